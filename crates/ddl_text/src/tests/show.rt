// What is read of a text, in a form that is short to write down.
use crate::{DdlFault, DdlRefusal, fault_words, parse_definitions};
use dict_schema::{
    CacheSet, Column, DefFault, Definition, Format, FunctionDef, Item, Kind, Layout, RangeOf,
    SourceOf, Strategy, Update,
};
use dict_value::{AttrType, Bytes, ColType, NoMemory, Value};
use itoa::Buffer;
use std::alloc::Global;

/// A text of a test has at most so many bytes.
pub(super) const MOST: usize = 200_000;

fn push_word(word: &[u8], out: &mut Bytes) -> Result<(), NoMemory> {
    out.push(b' ')?;
    out.extend(word)
}

pub(super) fn push_number(n: u64, out: &mut Bytes) -> Result<(), NoMemory> {
    let mut digits = Buffer::new();
    out.push(b' ')?;
    out.extend(digits.format(n).as_bytes())
}

/// A number with its sign, where it has at most 64 bits.
fn push_signed(z: i128, out: &mut Bytes) -> Result<(), NoMemory> {
    let Ok(z) = i64::try_from(z) else {
        return push_word(b"long", out);
    };
    let mut digits = Buffer::new();
    out.push(b' ')?;
    out.extend(digits.format(z).as_bytes())
}

fn push_flag(word: &[u8], flag: bool, out: &mut Bytes) -> Result<(), NoMemory> {
    if flag { push_word(word, out) } else { Ok(()) }
}

fn base_word(base: ColType) -> &'static [u8] {
    match base {
        ColType::UInt8 => b"UInt8",
        ColType::UInt16 => b"UInt16",
        ColType::UInt32 => b"UInt32",
        ColType::UInt64 => b"UInt64",
        ColType::Int8 => b"Int8",
        ColType::Int16 => b"Int16",
        ColType::Int32 => b"Int32",
        ColType::Int64 => b"Int64",
        ColType::Str => b"String",
        ColType::Date => b"Date",
        ColType::DateTime => b"DateTime",
        ColType::Uuid => b"UUID",
        ColType::Ipv4 => b"IPv4",
        ColType::Ipv6 => b"IPv6",
        ColType::Decimal(_, _) => b"Decimal",
    }
}

fn push_type(ty: &AttrType, out: &mut Bytes) -> Result<(), NoMemory> {
    push_word(base_word(ty.base), out)?;
    if let ColType::Decimal(digits, scale) = ty.base {
        push_number(u64::from(digits), out)?;
        push_number(u64::from(scale), out)?;
    }
    push_flag(b"nullable", ty.nullable, out)
}

fn push_value(value: &Value, out: &mut Bytes) -> Result<(), NoMemory> {
    match value {
        Value::Null => push_word(b"NULL", out),
        Value::U(n) => push_number(*n, out),
        Value::I(z) => push_signed(i128::from(*z), out),
        Value::S(text) => {
            out.extend(b" '")?;
            out.extend(text.as_slice())?;
            out.push(b'\'')
        }
        Value::Day(n) => push_number(u64::from(*n), out),
        Value::Second(n) | Value::V4(n) => push_number(u64::from(*n), out),
        Value::Id(n) | Value::V6(n) => push_number(u64::try_from(*n).unwrap_or(u64::MAX), out),
        Value::Dec(z) => push_signed(*z, out),
    }
}

fn push_column(column: &Column, out: &mut Bytes) -> Result<(), NoMemory> {
    push_word(column.name.as_slice(), out)?;
    push_type(&column.ty, out)?;
    push_value(&column.default, out)?;
    push_flag(b"hierarchical", column.hierarchical, out)?;
    push_flag(b"object", column.object_id, out)?;
    push_flag(b"injective", column.injective, out)
}

/// The columns, and the places of the keys.
fn push_columns(d: &Definition, out: &mut Bytes) -> Result<(), NoMemory> {
    let mut first = true;
    for column in d.columns.as_slice() {
        if !first {
            out.push(b',')?;
        }
        push_column(column, out)?;
        first = false;
    }
    push_word(b"by", out)?;
    for key in d.keys.as_slice() {
        push_number(u64::from(*key), out)?;
    }
    Ok(())
}

fn push_source(s: &SourceOf, out: &mut Bytes) -> Result<(), NoMemory> {
    push_flag(b"pool", s.kind == Kind::Pool, out)?;
    push_word(s.command.as_slice(), out)?;
    push_flag(b"csv", s.format == Format::Csv, out)?;
    push_flag(b"direct", s.direct, out)?;
    push_flag(b"implicit", s.implicit, out)?;
    push_flag(b"header", s.header, out)?;
    push_number(u64::from(s.read_ms), out)?;
    push_number(u64::from(s.write_ms), out)?;
    push_number(u64::from(s.end_s), out)?;
    push_number(u64::from(s.pool_size), out)?;
    push_number(u64::from(s.execution_s), out)?;
    if let Update::Field { name, lag } = &s.update {
        push_word(name.as_slice(), out)?;
        push_number(u64::from(*lag), out)?;
    }
    Ok(())
}

fn push_cache(set: &CacheSet, out: &mut Bytes) -> Result<(), NoMemory> {
    push_number(set.cells, out)?;
    push_flag(b"expired", set.expired, out)?;
    push_number(u64::from(set.queue), out)
}

fn layout_word(layout: &Layout) -> &'static [u8] {
    match layout {
        Layout::Flat { .. } => b"flat",
        Layout::Hashed => b"hashed",
        Layout::SparseHashed => b"sparse",
        Layout::HashedArray => b"array",
        Layout::ComplexHashed => b"complex hashed",
        Layout::ComplexSparseHashed => b"complex sparse",
        Layout::ComplexHashedArray => b"complex array",
        Layout::RangeHashed(_) => b"range",
        Layout::ComplexRangeHashed(_) => b"complex range",
        Layout::IpTrie => b"trie",
        Layout::Cache(_) => b"cache",
        Layout::ComplexCache(_) => b"complex cache",
        Layout::Direct => b"direct",
        Layout::ComplexDirect => b"complex direct",
    }
}

fn push_layout(layout: &Layout, out: &mut Bytes) -> Result<(), NoMemory> {
    push_word(layout_word(layout), out)?;
    match layout {
        Layout::Flat { initial, max } => {
            push_number(u64::from(*initial), out)?;
            push_number(u64::from(*max), out)
        }
        Layout::RangeHashed(strategy) | Layout::ComplexRangeHashed(strategy) => {
            push_flag(b"max", *strategy == Strategy::Max, out)
        }
        Layout::Cache(set) | Layout::ComplexCache(set) => push_cache(set, out),
        _ => Ok(()),
    }
}

/// The layout and what the clauses behind it say.
fn push_clauses(d: &Definition, out: &mut Bytes) -> Result<(), NoMemory> {
    push_layout(&d.layout, out)?;
    push_number(u64::from(d.lifetime.min), out)?;
    push_number(u64::from(d.lifetime.max), out)?;
    if let RangeOf::Columns { start, end } = d.range {
        push_word(b"from", out)?;
        push_number(u64::from(start), out)?;
        push_number(u64::from(end), out)?;
    }
    push_flag(b"output", d.max_output != 67_108_864, out)?;
    if d.max_output != 67_108_864 {
        push_number(u64::from(d.max_output), out)?;
    }
    if !d.comment.is_empty() {
        push_word(d.comment.as_slice(), out)?;
    }
    Ok(())
}

fn push_signature(f: &FunctionDef, out: &mut Bytes) -> Result<(), NoMemory> {
    for argument in f.args.as_slice() {
        push_word(argument.name.as_slice(), out)?;
        push_type(&argument.ty, out)?;
    }
    push_word(b"gives", out)?;
    push_type(&f.returns, out)?;
    push_number(u64::from(f.max_output), out)
}

/// What is looked at in the items that are read.
#[derive(Clone, Copy, Debug, PartialEq, Eq)]
pub(super) enum Look {
    /// Their kinds and names.
    Names,
    Columns,
    Source,
    Clauses,
}

fn push_item(look: Look, item: &Item, out: &mut Bytes) -> Result<(), NoMemory> {
    match (look, item) {
        (Look::Names, Item::Dictionary(d)) => push_word(d.name.as_slice(), out),
        (Look::Columns, Item::Dictionary(d)) => push_columns(d, out),
        (Look::Source, Item::Dictionary(d)) => push_source(&d.source, out),
        (Look::Clauses, Item::Dictionary(d)) => push_clauses(d, out),
        (Look::Names, Item::Function(f)) => {
            push_word(f.name.as_slice(), out)?;
            out.extend(b"()")
        }
        (Look::Source, Item::Function(f)) => push_source(&f.source, out),
        (_, Item::Function(f)) => push_signature(f, out),
    }
}

/// The number that a fault of a definition has.
fn push_fault_number(fault: &DefFault, out: &mut Bytes) -> Result<(), NoMemory> {
    match fault {
        DefFault::Limit(_, n) => push_number(*n, out),
        DefFault::KeyMissing(n)
        | DefFault::DuplicateName(n)
        | DefFault::KeyType(n)
        | DefFault::HierarchyType(n)
        | DefFault::BadDefault(n) => push_number(u64::from(*n), out),
        _ => Ok(()),
    }
}

pub(super) fn place_of(fault: &DdlFault) -> u32 {
    match fault {
        DdlFault::Unexpected(place)
        | DdlFault::UnknownSetting(place)
        | DdlFault::Twice(place)
        | DdlFault::Unsupported(place)
        | DdlFault::Def(place, _)
        | DdlFault::TooMany(place) => *place,
    }
}

/// A fault: its line, how many bytes stand before it behind the front, and its words.
fn push_refusal(
    front: usize,
    line: u32,
    fault: &DdlFault,
    out: &mut Bytes,
) -> Result<(), NoMemory> {
    push_number(u64::from(line), out)?;
    push_number(u64::from(place_of(fault)).saturating_sub(front as u64), out)?;
    push_word(fault_words(fault), out)?;
    if let DdlFault::Def(_, fault) = fault {
        push_fault_number(fault, out)?;
    }
    Ok(())
}

/// What is read of a text that has this front.
pub(super) fn show(
    alloc: Global,
    look: Look,
    front: usize,
    text: &[u8],
) -> Result<Bytes, NoMemory> {
    let mut out = Bytes::new(alloc);
    if text.len() > MOST {
        return Ok(out);
    }
    match parse_definitions(alloc, text) {
        Ok(items) => {
            for item in items.as_slice() {
                push_item(look, item, &mut out)?;
            }
        }
        Err(DdlRefusal::Refused { line, fault }) => push_refusal(front, line, &fault, &mut out)?,
        Err(DdlRefusal::NoMemory) => return Err(NoMemory),
    }
    Ok(out)
}

/// Where the text of a case stands.
#[derive(Clone, Copy, Debug, PartialEq, Eq)]
pub(super) enum Among {
    /// It is the whole file.
    File,
    /// It stands in the brackets of the columns, behind the key `id UInt64`.
    Columns,
    /// It stands behind the columns `id UInt64, x String, a Date, b Date`.
    Behind,
    /// The same, and behind the source.
    Clauses,
    /// It stands in the brackets of a layout.
    Layout,
    /// It follows the command and the format of a DIRECT dictionary.
    Executable,
    Pool,
    /// The same for a function.
    Function,
    FunctionPool,
}

/// What stands before and behind the text of a case.
fn around(among: Among) -> (&'static [u8], &'static [u8]) {
    match among {
        Among::File => (b"", b""),
        Among::Columns => (
            b"CREATE DICTIONARY d (id UInt64, ",
            b") PRIMARY KEY id SOURCE(EXECUTABLE(command 'c' format TSV)) LAYOUT(HASHED)",
        ),
        Among::Behind => (
            b"CREATE DICTIONARY d (id UInt64, x String, a Date, b Date) ",
            b"",
        ),
        Among::Clauses => (
            b"CREATE DICTIONARY d (id UInt64, x String, a Date, b Date) PRIMARY KEY id \
                SOURCE(EXECUTABLE(command 'c' format TSV)) ",
            b"",
        ),
        Among::Layout => (
            b"CREATE DICTIONARY d (id UInt64, x String, a Date, b Date) PRIMARY KEY id \
                SOURCE(EXECUTABLE(command 'c' format TSV)) LAYOUT(",
            b")",
        ),
        Among::Executable => (
            b"CREATE DICTIONARY d (id UInt64) PRIMARY KEY id LAYOUT(HASHED) SOURCE(EXECUTABLE(command 'c' format TSV ",
            b"))",
        ),
        Among::Pool => (
            b"CREATE DICTIONARY d (id UInt64) PRIMARY KEY id LAYOUT(DIRECT) SOURCE(EXECUTABLE_POOL(command 'c' \
                format TSV ",
            b"))",
        ),
        Among::Function => (
            b"EXECUTABLE FUNCTION f(a UInt8) RETURNS String SOURCE(EXECUTABLE(command 'c' format TSV ",
            b"))",
        ),
        Among::FunctionPool => (
            b"EXECUTABLE FUNCTION f(a UInt8) RETURNS String SOURCE(EXECUTABLE_POOL(command 'c' format TSV ",
            b"))",
        ),
    }
}

/// What is read of a text where it stands; places are counted from the text's own first byte.
pub(super) fn show_among(
    alloc: Global,
    look: Look,
    among: Among,
    text: &[u8],
) -> Result<Bytes, NoMemory> {
    let (front, back) = around(among);
    let mut whole = Bytes::copy_of(alloc, front)?;
    whole.extend(text)?;
    whole.extend(back)?;
    show(alloc, look, front.len(), whole.as_slice())
}
