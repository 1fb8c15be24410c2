// What a text of clauses says, as a text: all that differs from the defaults, or the fault and its place.
use crate::{
    DictionaryParts, FunctionParts, RangeNames, Sizes, dictionary_clauses, function_clauses,
};
use ddl_tokens::{ReadFault, Reader, SyntaxFault};
use dict_schema::{CacheSet, Format, Kind, Layout, SourceOf, Strategy, Update};
use dict_value::{Bytes, NoMemory};
use itoa::Buffer;
use std::alloc::Global;

/// A text of a test has at most so many bytes.
const MOST: usize = 1000;

/// A number with its name, unless it is the default.
fn push_number(name: &[u8], n: u64, default: u64, out: &mut Bytes) -> Result<(), NoMemory> {
    if n == default {
        return Ok(());
    }
    let mut digits = Buffer::new();
    out.push(b' ')?;
    out.extend(name)?;
    out.extend(digits.format(n).as_bytes())
}

/// A name, where it holds.
fn push_flag(name: &[u8], flag: bool, out: &mut Bytes) -> Result<(), NoMemory> {
    if !flag {
        return Ok(());
    }
    out.push(b' ')?;
    out.extend(name)
}

/// A text with its name.
fn push_text(name: &[u8], text: &Bytes, out: &mut Bytes) -> Result<(), NoMemory> {
    push_flag(name, true, out)?;
    out.extend(text.as_slice())
}

fn push_update(update: &Update, out: &mut Bytes) -> Result<(), NoMemory> {
    if let Update::Field { name, lag } = update {
        push_text(b"update ", name, out)?;
        push_number(b"lag", u64::from(*lag), 0, out)?;
    }
    Ok(())
}

fn push_source(s: &SourceOf, out: &mut Bytes) -> Result<(), NoMemory> {
    push_flag(b"pool", s.kind == Kind::Pool, out)?;
    if s.command.as_slice() != b"c".as_slice() {
        push_text(b"command ", &s.command, out)?;
    }
    push_flag(b"csv", s.format == Format::Csv, out)?;
    push_flag(b"direct", s.direct, out)?;
    push_flag(b"implicit", s.implicit, out)?;
    push_flag(b"header", s.header, out)
}

fn push_times(s: &SourceOf, out: &mut Bytes) -> Result<(), NoMemory> {
    push_number(b"read", u64::from(s.read_ms), 10_000, out)?;
    push_number(b"write", u64::from(s.write_ms), 10_000, out)?;
    push_number(b"end", u64::from(s.end_s), 10, out)?;
    push_number(b"size", u64::from(s.pool_size), 16, out)?;
    push_number(b"execution", u64::from(s.execution_s), 10, out)
}

fn push_cache(name: &[u8], set: &CacheSet, out: &mut Bytes) -> Result<(), NoMemory> {
    push_flag(name, true, out)?;
    push_number(b"cells", set.cells, 0, out)?;
    push_flag(b"expired", set.expired, out)?;
    push_number(b"queue", u64::from(set.queue), 100_000, out)
}

fn push_range_layout(name: &[u8], strategy: Strategy, out: &mut Bytes) -> Result<(), NoMemory> {
    push_flag(name, true, out)?;
    push_flag(b"max", strategy == Strategy::Max, out)
}

fn push_flat(initial: u32, max: u32, out: &mut Bytes) -> Result<(), NoMemory> {
    push_flag(b"flat", true, out)?;
    push_number(b"initial", u64::from(initial), 1024, out)?;
    push_number(b"max", u64::from(max), 500_000, out)
}

/// A layout, unless it is HASHED.
fn push_layout(layout: &Layout, out: &mut Bytes) -> Result<(), NoMemory> {
    match layout {
        Layout::Flat { initial, max } => push_flat(*initial, *max, out),
        Layout::Hashed => Ok(()),
        Layout::SparseHashed => push_flag(b"sparse", true, out),
        Layout::HashedArray => push_flag(b"array", true, out),
        Layout::ComplexHashed => push_flag(b"complex", true, out),
        Layout::ComplexSparseHashed => push_flag(b"complex sparse", true, out),
        Layout::ComplexHashedArray => push_flag(b"complex array", true, out),
        Layout::RangeHashed(strategy) => push_range_layout(b"range", *strategy, out),
        Layout::ComplexRangeHashed(strategy) => push_range_layout(b"complex range", *strategy, out),
        Layout::IpTrie => push_flag(b"trie", true, out),
        Layout::Cache(set) => push_cache(b"cache", set, out),
        Layout::ComplexCache(set) => push_cache(b"complex cache", set, out),
        Layout::Direct => push_flag(b"direct", true, out),
        Layout::ComplexDirect => push_flag(b"complex direct", true, out),
    }
}

fn push_sizes(sizes: &Sizes, out: &mut Bytes) -> Result<(), NoMemory> {
    push_number(b"output=", sizes.output, 67_108_864, out)?;
    push_number(b"array=", sizes.array_size, 500_000, out)?;
    push_number(b"pool=", sizes.pool_size, 16, out)
}

fn push_range(range: &Option<RangeNames>, out: &mut Bytes) -> Result<(), NoMemory> {
    if let Some(names) = range {
        push_text(b"from ", &names.start, out)?;
        push_text(b"to ", &names.end, out)?;
    }
    Ok(())
}

fn push_dictionary(d: &DictionaryParts, out: &mut Bytes) -> Result<(), NoMemory> {
    push_source(&d.source, out)?;
    push_times(&d.source, out)?;
    push_update(&d.source.update, out)?;
    push_layout(&d.layout, out)?;
    push_number(b"least", u64::from(d.lifetime.min), 0, out)?;
    push_number(b"most", u64::from(d.lifetime.max), 0, out)?;
    push_range(&d.range, out)?;
    push_number(b"output", u64::from(d.max_output), 67_108_864, out)?;
    if !d.comment.is_empty() {
        push_text(b"comment ", &d.comment, out)?;
    }
    push_sizes(&d.sizes, out)
}

fn push_function(f: &FunctionParts, out: &mut Bytes) -> Result<(), NoMemory> {
    push_source(&f.source, out)?;
    push_times(&f.source, out)?;
    push_update(&f.source.update, out)?;
    push_number(b"output", u64::from(f.max_output), 67_108_864, out)?;
    push_sizes(&f.sizes, out)
}

/// A fault, with how many bytes stand before it behind the front.
fn push_fault(front: usize, fault: &ReadFault, out: &mut Bytes) -> Result<(), NoMemory> {
    let (name, place) = match fault {
        ReadFault::Syntax(SyntaxFault::Unexpected(place)) => (b"unexpected ".as_slice(), *place),
        ReadFault::Syntax(SyntaxFault::UnknownSetting(place)) => (b"unknown ".as_slice(), *place),
        ReadFault::Syntax(SyntaxFault::Twice(place)) => (b"twice ".as_slice(), *place),
        ReadFault::Syntax(SyntaxFault::Unsupported(place)) => (b"unsupported ".as_slice(), *place),
        ReadFault::NoMemory => return out.extend(b" memory"),
    };
    let behind = u64::from(place).saturating_sub(front as u64);
    push_number(name, behind, u64::MAX, out)
}

/// What a text says behind this front, and where it ends.
pub(super) fn show(
    alloc: Global,
    function: bool,
    front: usize,
    text: &[u8],
    out: &mut Bytes,
) -> Result<(), NoMemory> {
    if text.len() > MOST {
        return Ok(());
    }
    let mut r = Reader::new(text);
    if function {
        match function_clauses(alloc, &mut r) {
            Ok(parts) => push_function(&parts, out)?,
            Err(fault) => return push_fault(front, &fault, out),
        }
    } else {
        match dictionary_clauses(alloc, &mut r) {
            Ok(parts) => push_dictionary(&parts, out)?,
            Err(fault) => return push_fault(front, &fault, out),
        }
    }
    let behind = text.len().saturating_sub(r.place() as usize);
    push_number(b"left", behind as u64, 0, out)
}
