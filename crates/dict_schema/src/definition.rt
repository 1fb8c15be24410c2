// What a definitions file defines.
use dict_value::{AttrType, Bytes, Format, ListOf, Value};

/// A column of a dictionary.
#[derive(Debug, Drop)]
pub struct Column {
    pub name: Bytes,
    pub ty: AttrType,
    pub default: Value,
    pub hierarchical: bool,
    pub object_id: bool,
    pub injective: bool,
}

/// Which of several ranges that hold a point counts.
#[derive(Clone, Copy, Debug, PartialEq, Eq)]
pub enum Strategy {
    Min,
    Max,
}

/// The settings of a cache.
#[derive(Clone, Copy, Debug, PartialEq, Eq)]
pub struct CacheSet {
    pub cells: u64,
    pub expired: bool,
    pub queue: u32,
}

/// How a dictionary keeps its rows.
#[derive(Clone, Copy, Debug, PartialEq, Eq)]
pub enum Layout {
    Flat { initial: u32, max: u32 },
    Hashed,
    SparseHashed,
    HashedArray,
    ComplexHashed,
    ComplexSparseHashed,
    ComplexHashedArray,
    RangeHashed(Strategy),
    ComplexRangeHashed(Strategy),
    IpTrie,
    Cache(CacheSet),
    ComplexCache(CacheSet),
    Direct,
    ComplexDirect,
}

/// One child for each run, or a pool of children.
#[derive(Clone, Copy, Debug, PartialEq, Eq)]
pub enum Kind {
    Executable,
    Pool,
}

/// Which rows a load asks for.
#[derive(Debug, Drop)]
pub enum Update {
    /// All of them.
    None,
    /// Those that changed: the command gets this name and the moment of the last load, less so many seconds.
    Field { name: Bytes, lag: u32 },
}

/// The program that rows come from; times are in milliseconds (`_ms`) or seconds (`_s`).
#[derive(Debug, Drop)]
pub struct SourceOf {
    pub kind: Kind,
    pub command: Bytes,
    /// The text form of its output.
    pub format: Format,
    /// The command's words are run as they are, without a shell.
    pub direct: bool,
    pub implicit: bool,
    pub header: bool,
    pub read_ms: u32,
    pub write_ms: u32,
    pub end_s: u32,
    pub pool_size: u32,
    pub execution_s: u32,
    pub update: Update,
}

/// After how many seconds a version is loaded anew, at least and at most.
#[derive(Clone, Copy, Debug, PartialEq, Eq)]
pub struct Lifetime {
    pub min: u32,
    pub max: u32,
}

/// The columns of a range, by their place in the definition.
#[derive(Clone, Copy, Debug, PartialEq, Eq)]
pub enum RangeOf {
    None,
    Columns { start: u8, end: u8 },
}

/// A dictionary; `keys` are the places of the key columns.
#[derive(Debug, Drop)]
pub struct Definition {
    pub name: Bytes,
    pub columns: ListOf<Column>,
    pub keys: ListOf<u8>,
    pub source: SourceOf,
    pub layout: Layout,
    pub lifetime: Lifetime,
    pub range: RangeOf,
    /// The greatest number of bytes that one run may print.
    pub max_output: u32,
    pub comment: Bytes,
}

/// An argument of a function.
#[derive(Debug, Drop)]
pub struct Arg {
    pub name: Bytes,
    pub ty: AttrType,
}

/// An executable function.
#[derive(Debug, Drop)]
pub struct FunctionDef {
    pub name: Bytes,
    pub args: ListOf<Arg>,
    pub returns: AttrType,
    pub source: SourceOf,
    pub max_output: u32,
}

/// What one statement of a definitions file defines.
#[derive(Debug, Drop)]
pub enum Item {
    Dictionary(Definition),
    Function(FunctionDef),
}

/// What a column is for: a key, an end of a range, or what is asked for.
#[derive(Clone, Copy, Debug, PartialEq, Eq)]
pub enum Role {
    Key,
    Start,
    End,
    Attribute,
}

/// A column of a row as a child prints it.
#[derive(Debug, Drop)]
pub struct ShapeColumn {
    pub ty: AttrType,
    pub role: Role,
    /// What stands in an attribute that isn't nullable where the row has NULL.
    pub default: Value,
}

/// The columns of a row, in their order.
pub type Shape = ListOf<ShapeColumn>;
