// The clauses, as they are written.
use crate::layouts::LayoutName;
use crate::settings::Setting;
use dict_schema::{Kind, Lifetime};
use dict_value::{Bytes, ListOf};

#[derive(Clone, Copy, Debug, PartialEq, Eq)]
pub enum ClauseKind {
    Source,
    Layout,
    Lifetime,
    Range,
    Settings,
    Comment,
}

/// The kind of a source, and its settings in the order of the text.
#[derive(Debug, Drop)]
pub struct WrittenSource {
    pub kind: Kind,
    pub settings: ListOf<Setting>,
}

/// A layout's name, and its settings in the order of the text.
#[derive(Debug, Drop)]
pub struct WrittenLayout {
    pub name: LayoutName,
    pub settings: ListOf<Setting>,
}

/// The names of the columns of a range.
#[derive(Debug, Drop)]
pub struct RangeNames {
    pub start: Bytes,
    pub end: Bytes,
}

#[derive(Debug, Drop)]
pub enum Clause {
    Source(WrittenSource),
    Layout(WrittenLayout),
    Lifetime(Lifetime),
    Range(RangeNames),
    /// The greatest number of bytes of one output.
    Settings(u64),
    Comment(Bytes),
}
