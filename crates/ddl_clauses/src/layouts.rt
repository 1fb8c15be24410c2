// The layouts by their names.
ghost use Rattle.std.specs.Prelude.{◌≡◌, ◌<◌, length, OnOk};
ghost use Rattle.ddl_tokens.specs.Reading.{Gives, bytes_ahead, is_name};
ghost use Rattle.ddl_tokens.specs.declared.fault.SyntaxFault.TheVariants.{Unsupported};
ghost use Rattle.ddl_clauses.specs.Choices.{chosen_at, meant_by};
ghost use Rattle.ddl_clauses.specs.Layouts.{all_layouts, layout_text, layout_named, layout_section};

use crate::settings::Section;
use ddl_tokens::{LetterCase, ReadFault, Reader, SyntaxFault};

#[derive(Clone, Copy, Debug, PartialEq, Eq)]
pub enum LayoutName {
    Flat,
    Hashed,
    SparseHashed,
    HashedArray,
    ComplexHashed,
    ComplexSparseHashed,
    ComplexHashedArray,
    RangeHashed,
    ComplexRangeHashed,
    IpTrie,
    Cache,
    ComplexCache,
    Direct,
    ComplexDirect,
}

/// What a layout is named, in any letter case.
fn layout_text(name: LayoutName) -> &'static [u8]
    ensures { result.now ≡ layout_text name }
{
    match name {
        LayoutName::Flat => b"FLAT",
        LayoutName::Hashed => b"HASHED",
        LayoutName::SparseHashed => b"SPARSE_HASHED",
        LayoutName::HashedArray => b"HASHED_ARRAY",
        LayoutName::ComplexHashed => b"COMPLEX_KEY_HASHED",
        LayoutName::ComplexSparseHashed => b"COMPLEX_KEY_SPARSE_HASHED",
        LayoutName::ComplexHashedArray => b"COMPLEX_KEY_HASHED_ARRAY",
        LayoutName::RangeHashed => b"RANGE_HASHED",
        LayoutName::ComplexRangeHashed => b"COMPLEX_KEY_RANGE_HASHED",
        LayoutName::IpTrie => b"IP_TRIE",
        LayoutName::Cache => b"CACHE",
        LayoutName::ComplexCache => b"COMPLEX_KEY_CACHE",
        LayoutName::Direct => b"DIRECT",
        LayoutName::ComplexDirect => b"COMPLEX_KEY_DIRECT",
    }
}

/// The settings that a layout takes.
pub(crate) fn layout_section(name: LayoutName) -> Section
    ensures { result ≡ layout_section name }
{
    match name {
        LayoutName::Flat => Section::Flat,
        LayoutName::Hashed
        | LayoutName::SparseHashed
        | LayoutName::HashedArray
        | LayoutName::ComplexHashed
        | LayoutName::ComplexSparseHashed
        | LayoutName::ComplexHashedArray => Section::Hashed,
        LayoutName::RangeHashed | LayoutName::ComplexRangeHashed => Section::Range,
        LayoutName::Cache | LayoutName::ComplexCache => Section::Cache,
        LayoutName::IpTrie | LayoutName::Direct | LayoutName::ComplexDirect => Section::Bare,
    }
}

/// The first of these layouts that the token in hand names.
#[tactic(auto, unfolding(crate::specs::Layouts::layout_named))]
fn layout_named(r: &Reader<'_>, layouts: &[LayoutName]) -> Option<LayoutName>
    ensures { result ≡ layout_named layouts.now (bytes_ahead r.now) }
{
    let mut rest = layouts;
    while let [name, others @ ..] = rest {
        if r.means(LetterCase::Any, layout_text(*name)) {
            return Some(*name);
        }
        rest = others;
    }
    None
}

/// The layout that the token in hand names.
fn any_layout(r: &Reader<'_>) -> Option<LayoutName>
    ensures { result ≡ layout_named all_layouts (bytes_ahead r.now) }
{
    let layouts = [
        LayoutName::Flat,
        LayoutName::Hashed,
        LayoutName::SparseHashed,
        LayoutName::HashedArray,
        LayoutName::ComplexHashed,
        LayoutName::ComplexSparseHashed,
        LayoutName::ComplexHashedArray,
        LayoutName::RangeHashed,
        LayoutName::ComplexRangeHashed,
        LayoutName::IpTrie,
        LayoutName::Cache,
        LayoutName::ComplexCache,
        LayoutName::Direct,
        LayoutName::ComplexDirect,
    ];
    layout_named(r, &layouts)
}

/// A layout's name, with or without quotes.
#[tactic(auto, using(crate::proofs::Ahead::sees_name_is, crate::proofs::Ahead::name_goes_on), unfolding(crate::specs::Choices::chosen_at))]
pub(crate) fn layout_name(r: &mut Reader<'_>) -> Result<LayoutName, ReadFault>
    ensures value { Gives (λ name. name) result r.new
        (chosen_at is_name (meant_by Unsupported (layout_named all_layouts)) r.old) }
    ensures shorter { OnOk result (length r.new < length r.old) }
{
    if !r.sees_name() {
        return Err(r.unexpected());
    }
    let Some(name) = any_layout(r) else {
        return Err(ReadFault::Syntax(SyntaxFault::Unsupported(r.place())));
    };
    r.skip();
    Ok(name)
}
