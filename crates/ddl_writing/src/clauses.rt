// The clauses of a dictionary. After `NoMemory` a front of what was to be written may stand behind what was there.
ghost use Rattle.std.specs.Prelude.{◌≡◌, ◌++◌, length, take, OnErr, OnOk};
ghost use Rattle.ddl_writing.specs.Canonical.{cache_text, clauses_text, comment_text, flat_text, kept_text};
ghost use Rattle.ddl_writing.specs.Canonical.{layout_clause};
ghost use Rattle.ddl_writing.specs.Canonical.{lifetime_text, output_text, range_text, strategy_text};

use crate::columns::push_column_name;
use crate::quoted::push_string;
use crate::sources::push_bit;
use crate::words::{Word, push_numbered, push_word};
use dict_schema::{CacheSet, Definition, Layout, Lifetime, RangeOf, Strategy};
use dict_value::{Bytes, NoMemory};

/// Appends which of several ranges counts.
fn push_strategy(out: &mut Bytes, strategy: Strategy) -> Result<(), NoMemory>
    ensures ok { OnOk result (out.new ≡ out.old ++ strategy_text strategy) }
    ensures err { OnErr result (take (length out.old) out.new ≡ out.old) }
{
    match strategy {
        Strategy::Min => out.extend(b"(range_lookup_strategy 'min')"),
        Strategy::Max => out.extend(b"(range_lookup_strategy 'max')"),
    }
}

/// Appends the settings of a cache.
#[tactic(auto, using(dict_value::proofs::Fronts::front_stays))]
fn push_cache(out: &mut Bytes, cache: &CacheSet) -> Result<(), NoMemory>
    ensures ok { OnOk result (out.new ≡ out.old ++ cache_text cache.now) }
    ensures err { OnErr result (take (length out.old) out.new ≡ out.old) }
{
    push_numbered(out, Word::Cells, cache.cells)?;
    push_word(out, Word::Expired)?;
    push_bit(out, cache.expired)?;
    push_numbered(out, Word::Queue, u64::from(cache.queue))?;
    out.push(b')')
}

/// Appends the layout FLAT.
#[tactic(auto, using(dict_value::proofs::Fronts::front_stays))]
fn push_flat(out: &mut Bytes, initial: u32, most: u32) -> Result<(), NoMemory>
    ensures ok { OnOk result (out.new ≡ out.old ++ flat_text initial most) }
    ensures err { OnErr result (take (length out.old) out.new ≡ out.old) }
{
    push_numbered(out, Word::Initial, u64::from(initial))?;
    push_numbered(out, Word::Greatest, u64::from(most))?;
    out.push(b')')
}

/// Appends the name of a layout and its settings.
#[tactic(auto, using(dict_value::proofs::Fronts::front_stays))]
fn push_kept(out: &mut Bytes, kept: &Layout) -> Result<(), NoMemory>
    ensures ok { OnOk result (out.new ≡ out.old ++ kept_text kept.now) }
    ensures err { OnErr result (take (length out.old) out.new ≡ out.old) }
{
    match kept {
        Layout::Flat { initial, max } => push_flat(out, *initial, *max),
        Layout::Hashed => out.extend(b"HASHED()"),
        Layout::SparseHashed => out.extend(b"SPARSE_HASHED()"),
        Layout::HashedArray => out.extend(b"HASHED_ARRAY()"),
        Layout::ComplexHashed => out.extend(b"COMPLEX_KEY_HASHED()"),
        Layout::ComplexSparseHashed => out.extend(b"COMPLEX_KEY_SPARSE_HASHED()"),
        Layout::ComplexHashedArray => out.extend(b"COMPLEX_KEY_HASHED_ARRAY()"),
        Layout::IpTrie => out.extend(b"IP_TRIE()"),
        Layout::Direct => out.extend(b"DIRECT()"),
        Layout::ComplexDirect => out.extend(b"COMPLEX_KEY_DIRECT()"),
        Layout::RangeHashed(strategy) => {
            push_word(out, Word::Range)?;
            push_strategy(out, *strategy)
        }
        Layout::ComplexRangeHashed(strategy) => {
            push_word(out, Word::ComplexRange)?;
            push_strategy(out, *strategy)
        }
        Layout::Cache(cache) => {
            push_word(out, Word::Cache)?;
            push_cache(out, cache)
        }
        Layout::ComplexCache(cache) => {
            push_word(out, Word::ComplexCache)?;
            push_cache(out, cache)
        }
    }
}

/// Appends the layout.
#[tactic(auto, using(dict_value::proofs::Fronts::front_stays))]
fn push_layout(out: &mut Bytes, kept: &Layout) -> Result<(), NoMemory>
    ensures ok { OnOk result (out.new ≡ out.old ++ layout_clause kept.now) }
    ensures err { OnErr result (take (length out.old) out.new ≡ out.old) }
{
    push_word(out, Word::Kept)?;
    push_kept(out, kept)?;
    out.push(b')')
}

/// Appends after how many seconds a version is loaded anew.
#[tactic(auto, using(dict_value::proofs::Fronts::front_stays))]
fn push_lifetime(out: &mut Bytes, lifetime: &Lifetime) -> Result<(), NoMemory>
    ensures ok { OnOk result (out.new ≡ out.old ++ lifetime_text lifetime.now) }
    ensures err { OnErr result (take (length out.old) out.new ≡ out.old) }
{
    push_numbered(out, Word::LifetimeMin, u64::from(lifetime.min))?;
    push_numbered(out, Word::Max, u64::from(lifetime.max))?;
    out.push(b')')
}

/// Appends the columns of a range.
#[tactic(auto, using(dict_value::proofs::Fronts::front_stays))]
fn push_range(out: &mut Bytes, d: &Definition, range: &RangeOf) -> Result<(), NoMemory>
    ensures ok { OnOk result (out.new ≡ out.old ++ range_text d.now range.now) }
    ensures err { OnErr result (take (length out.old) out.new ≡ out.old) }
{
    match *range {
        RangeOf::None => Ok(()),
        RangeOf::Columns { start, end } => {
            push_word(out, Word::RangeMin)?;
            push_column_name(out, d, start)?;
            push_word(out, Word::Max)?;
            push_column_name(out, d, end)?;
            out.push(b')')
        }
    }
}

/// Appends the limit of a run's output.
#[tactic(auto, using(dict_value::proofs::Fronts::front_stays))]
pub(crate) fn push_output(out: &mut Bytes, most: u32) -> Result<(), NoMemory>
    ensures ok { OnOk result (out.new ≡ out.old ++ output_text most) }
    ensures err { OnErr result (take (length out.old) out.new ≡ out.old) }
{
    push_numbered(out, Word::Output, u64::from(most))?;
    out.push(b')')
}

/// Appends the comment, where it isn't empty.
#[tactic(auto, using(dict_value::proofs::Fronts::front_stays))]
fn push_comment(out: &mut Bytes, text: &[u8]) -> Result<(), NoMemory>
    ensures ok { OnOk result (out.new ≡ out.old ++ comment_text text.now) }
    ensures err { OnErr result (take (length out.old) out.new ≡ out.old) }
{
    let [_, ..] = text else {
        return Ok(());
    };
    push_word(out, Word::Comment)?;
    push_string(out, text)
}

/// Appends the clauses behind the source.
#[tactic(auto, using(dict_value::proofs::Fronts::front_stays))]
pub(crate) fn push_clauses(out: &mut Bytes, d: &Definition) -> Result<(), NoMemory>
    ensures ok { OnOk result (out.new ≡ out.old ++ clauses_text d.now) }
    ensures err { OnErr result (take (length out.old) out.new ≡ out.old) }
{
    push_layout(out, &d.layout)?;
    push_lifetime(out, &d.lifetime)?;
    push_range(out, d, &d.range)?;
    push_output(out, d.max_output)?;
    push_comment(out, d.comment.as_slice())
}
