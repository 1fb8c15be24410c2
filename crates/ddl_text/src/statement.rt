// The statements of a definitions file, as they are written.
use ddl_clauses::{DictionaryParts, FunctionParts};
use dict_schema::{Arg, Column};
use dict_value::{AttrType, Bytes, ListOf};

/// A name, and the word behind its point.
#[derive(Debug, Drop)]
pub(crate) struct WrittenName {
    pub(crate) first: Bytes,
    pub(crate) second: Option<Bytes>,
}

#[derive(Debug, Drop)]
pub(crate) struct DictionaryText {
    pub(crate) name: WrittenName,
    pub(crate) columns: ListOf<Column>,
    /// The names of the key columns.
    pub(crate) keys: ListOf<Bytes>,
    pub(crate) parts: DictionaryParts,
}

#[derive(Debug, Drop)]
pub(crate) struct FunctionText {
    pub(crate) name: Bytes,
    pub(crate) arguments: ListOf<Arg>,
    pub(crate) returns: AttrType,
    pub(crate) parts: FunctionParts,
}

#[derive(Debug, Drop)]
pub(crate) enum Written {
    Dictionary(DictionaryText),
    Function(FunctionText),
}

#[derive(Debug, Drop)]
pub(crate) struct Statement {
    /// Its first byte.
    pub(crate) place: u32,
    pub(crate) written: Written,
    /// Whether a semicolon stands behind it.
    pub(crate) ended: bool,
}
