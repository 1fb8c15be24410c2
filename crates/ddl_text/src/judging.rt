// Whether what a statement makes can stand behind the items before it.
ghost use Rattle.std.specs.Prelude.{◌≡◌, ◌≤◌, ◌+◌, length, IfOk, MatchOption, MatchResult};
ghost use Rattle.dict_schema.specs.Judging.{IsJudged};
ghost use Rattle.dict_schema.specs.Sound.{IsSoundItem};
ghost use Rattle.ddl_text.specs.Items.{IsCountAbove, IsFaultOf, count_of, is_named, item_of, item_written, name_of};
ghost use Rattle.ddl_text.specs.Items.{number_of_item, number_of_written};
ghost use Rattle.ddl_text.specs.Items.{rules_of, sizes_of, with_written};
ghost use Rattle.ddl_text.specs.Items.{IsTaken, IsRefused, IsTakenItem, IsRefusedItem};
ghost use Rattle.ddl_text.specs.Files.{HasSoundTypes, IfFault};
ghost use Rattle.ddl_text.specs.declared.statement.Written.TheVariants as written;

use crate::fault::{DdlFault, FileFault};
use crate::items::{definition_of, function_of, same_name};
use crate::statement::{DictionaryText, Statement, Written};
use ddl_clauses::Sizes;
use dict_schema::{DefFault, Item, Which, check, check_function};
use dict_value::{Bytes, NoMemory};
use std::alloc::Global;

fn number_of_item(item: &Item) -> u8
    ensures { result ≡ number_of_item item.now }
{
    match item {
        Item::Dictionary(_) => 0,
        Item::Function(_) => 1,
    }
}

fn number_of_written(written: &Written) -> u8
    ensures { result ≡ number_of_written written.now }
{
    match written {
        Written::Dictionary(_) => 0,
        Written::Function(_) => 1,
    }
}

fn name_of(item: &Item) -> &Bytes
    ensures { result.now ≡ name_of item.now }
{
    match item {
        Item::Dictionary(d) => &d.name,
        Item::Function(f) => &f.name,
    }
}

/// How many items of a kind there are.
#[tactic(auto, unfolding(crate::specs::Items::count_of))]
fn count_of(kind: u8, items: &[Item]) -> usize
    ensures { result ≡ count_of kind items.now }
{
    let mut count = 0;
    let mut rest = items;
    while let [item, others @ ..] = rest {
        if number_of_item(item) == kind {
            count += 1;
        }
        rest = others;
    }
    count
}

/// Whether an item of a kind has this name.
#[tactic(auto, unfolding(crate::specs::Items::is_named))]
fn is_named(kind: u8, name: &Bytes, items: &[Item]) -> bool
    ensures { result ≡ is_named kind name.now items.now }
{
    let mut rest = items;
    while let [item, others @ ..] = rest {
        if number_of_item(item) == kind && same_name(name_of(item), name) {
            return true;
        }
        rest = others;
    }
    false
}

fn check_item(item: &Item) -> Result<(), DefFault>
    ensures { IsJudged (rules_of item.now) result }
{
    match item {
        Item::Dictionary(d) => check(d),
        Item::Function(f) => check_function(f),
    }
}

/// A fault with the number that is written.
fn with_written(sizes: &Sizes, fault: DefFault) -> DefFault
    ensures { result ≡ with_written sizes.now fault }
{
    match fault {
        DefFault::Limit(Which::Output, _) => DefFault::Limit(Which::Output, sizes.output),
        DefFault::Limit(Which::ArraySize, _) => {
            DefFault::Limit(Which::ArraySize, sizes.array_size)
        }
        DefFault::Limit(Which::PoolSize, _) => DefFault::Limit(Which::PoolSize, sizes.pool_size),
        fault => fault,
    }
}

fn sizes_of(written: &Written) -> Sizes
    ensures { result ≡ sizes_of written.now }
{
    match written {
        Written::Dictionary(text) => text.parts.sizes,
        Written::Function(text) => text.parts.sizes,
    }
}

/// Judges an item by its table, and its name by those before it.
fn judge(before: &[Item], item: &Item, sizes: &Sizes, place: u32) -> Result<(), DdlFault>
    requires { length before.now ≤ 256 }
    ensures { MatchResult result (λ _. IsTakenItem before.now item.now)
        (IsRefusedItem before.now item.now sizes.now place) }
{
    if let Err(fault) = check_item(item) {
        return Err(DdlFault::Def(place, with_written(sizes, fault)));
    }
    if is_named(number_of_item(item), name_of(item), before) {
        let number = before.len() as u32 + 1;
        return Err(DdlFault::Def(place, DefFault::DuplicateName(number)));
    }
    Ok(())
}

/// The count of a dictionary's columns or keys that is above the limit. So none of them is looked up by name.
#[tactic(auto, using(crate::proofs::Counts::many_columns, crate::proofs::Counts::many_keys))]
fn count_above(text: &DictionaryText) -> Option<DefFault>
    ensures { MatchOption result ((length text.now.columns ≤ 64) × (length text.now.keys ≤ 16))
        (IsCountAbove text.now) }
{
    if text.columns.len() > 64 {
        return Some(DefFault::Limit(Which::Columns, text.columns.len() as u64));
    }
    if text.keys.len() > 16 {
        return Some(DefFault::Limit(Which::Keys, text.keys.len() as u64));
    }
    None
}

/// The item of a dictionary's statement, unless one of its counts is above the limit.
fn dictionary_item(alloc: Global, text: DictionaryText, place: u32) -> Result<Item, FileFault>
    ensures made { IfOk result (λ item. item ≡ item_written (written.Dictionary text)) }
    ensures refused { IfFault result (IsFaultOf (item_written (written.Dictionary text)) text.parts.sizes place) }
{
    if let Some(fault) = count_above(&text) {
        return Err(FileFault::Fault(DdlFault::Def(place, fault)));
    }
    Ok(Item::Dictionary(definition_of(alloc, text)?))
}

/// The item of a statement.
fn item_written(alloc: Global, written: Written, place: u32) -> Result<Item, FileFault>
    ensures made { IfOk result (λ item. item ≡ item_written written) }
    ensures refused { IfFault result (IsFaultOf (item_written written) (sizes_of written) place) }
{
    match written {
        Written::Dictionary(text) => dictionary_item(alloc, text, place),
        Written::Function(text) => Ok(Item::Function(function_of(text))),
    }
}

/// The greatest number of items of one kind.
const MOST: usize = 128;

/// The item that a statement makes, where it can stand behind those before it.
pub(crate) fn take(alloc: Global, before: &[Item], statement: Statement) -> Result<Item, FileFault>
    requires { length before.now ≤ 256 }
    ensures taken { IfOk result (λ item. (item ≡ item_of statement) × IsTaken before.now statement) }
    ensures refused { IfFault result (IsRefused before.now statement) }
    ensures sound { HasSoundTypes statement → IfOk result IsSoundItem }
{
    let Statement { place, written, .. } = statement;
    if count_of(number_of_written(&written), before) >= MOST {
        return Err(FileFault::Fault(DdlFault::TooMany(place)));
    }
    let sizes = sizes_of(&written);
    let item = item_written(alloc, written, place)?;
    judge(before, &item, &sizes, place)?;
    Ok(item)
}
