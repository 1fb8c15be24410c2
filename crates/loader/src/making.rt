// The version of a load: the rows of its output, laid over the former ones where the definition has an update field.
ghost use Rattle.std.specs.Prelude.{◌≡◌, ◌≢◌, ◌<◌, ◌≤◌, All, IfOk, IfSome, MatchOption, false, true, length};
ghost use Rattle.std.specs.Option.{option_map};
ghost use Rattle.dict_schema.specs.Parts.{is_keyed_layout, is_updated_layout};
ghost use Rattle.dict_schema.specs.Shapes.{cell_types, shape_of};
ghost use Rattle.dict_schema.specs.Sound.{IsSound};
ghost use Rattle.dict_schema.specs.declared.definition.Update.TheVariants as update;
ghost use Rattle.dict_value.specs.declared.value.TheConstants.{MOST_ROWS};
ghost use Rattle.dict_version.specs.Keys.{key_number, numbers_of};
ghost use Rattle.dict_version.specs.Lookups.{lookup_by};
ghost use Rattle.dict_version.specs.Rows.{IsRefusedBy, LayoutTakesBy, TakesRows};
ghost use Rattle.dict_version.specs.declared.fault.LayoutFault.TheVariants as refusal;
ghost use Rattle.flat_layout.specs.Cells.{IsFirstTooLarge};
ghost use Rattle.overlay.specs.Overlays.{HaveTypes};
ghost use Rattle.packed_rows.specs.Cells.{meaning};
ghost use Rattle.loader.specs.steps.Makings.{CanFollow, IsBuilt, IsLaid, IsMade, kept_in};

use crate::fault::LoadFault;
use dict_copies::copy_definition;
use dict_schema::{Definition, Layout, Shape, Update, cell_type};
use dict_value::{AttrType, Cause, Counter, ListOf, MOST_ROWS, NoMemory};
use dict_version::{LayoutFault, Version};
use overlay::{copy_rows, overlay};
use packed_rows::{Cell, Rows, RowsBuilder};
use std::alloc::Global;

/// The greatest number of bytes that the texts of an overlay may have together.
const MOST_TEXT: u32 = 268_435_456;

/// A version that isn't published yet, and the rows that the next load is laid over.
#[derive(Drop)]
pub(crate) struct Made<C> {
    pub(crate) version: Version<C>,
    pub(crate) kept: Option<Rows>,
}

/// The types of the values of a row.
fn types_of(alloc: Global, shape: &Shape) -> Result<ListOf<AttrType>, NoMemory>
    ensures { IfOk result (λ types. types ≡ cell_types shape.now) }
{
    let mut types = ListOf::with_room(alloc, shape.len())?;
    for column in shape.as_slice() {
        types.push(cell_type(column))?;
    }
    Ok(types)
}

/// The version of some rows, or the first key that the layout doesn't take.
fn build<C: Counter>(alloc: Global, d: &Definition, rows: Rows) -> Result<Version<C>, LoadFault>
    requires sound { IsSound d.now }
    requires kept { is_keyed_layout d.now.layout ≡ false }
    requires few { length rows ≤ MOST_ROWS }
    requires takes { TakesRows d.now rows }
    ensures { IsBuilt d.now rows result }
{
    let definition = copy_definition(alloc, d)?;
    match Version::build(alloc, definition, rows) {
        Ok(version) => Ok(version),
        Err(LayoutFault::KeyTooLarge(key)) => Err(LoadFault::Refused(Cause::Key(key))),
        Err(LayoutFault::BadPrefix(row)) => Err(LoadFault::Refused(Cause::Prefix(row))),
        Err(LayoutFault::NoMemory) => Err(LoadFault::NoMemory),
    }
}

/// The number that a cell is.
fn number_in(cell: Option<Cell<'_>>) -> u64
    ensures { result ≡ key_number (option_map meaning cell.entry) }
{
    match cell {
        Some(Cell::U(number)) => number,
        _ => 0,
    }
}

/// The first key that isn't below a limit.
fn first_large_key(rows: &Rows, limit: u32) -> Option<u64>
    ensures { MatchOption result (All (λ number. number < limit) (numbers_of rows.now))
        (IsFirstTooLarge (numbers_of rows.now) limit) }
{
    for place in 0..rows.len() {
        let key = number_in(rows.get(place, 0));
        if key >= u64::from(limit) {
            return Some(key);
        }
    }
    None
}

/// The first key that a layout doesn't take.
fn first_untaken(layout: Layout, rows: &Rows) -> Option<u64>
    requires { is_updated_layout layout ≡ true }
    ensures { MatchOption result (LayoutTakesBy (lookup_by layout) rows.now)
        (λ key. IsRefusedBy (lookup_by layout) rows.now (refusal.KeyTooLarge key)) }
{
    match layout {
        Layout::Flat { max, .. } => first_large_key(rows, max),
        _ => None,
    }
}

/// Fresh rows laid over the former ones, if there are any.
fn lay(
    alloc: Global,
    types: &[AttrType],
    keys: u32,
    former: &Option<Rows>,
    fresh: &Rows,
) -> Result<Rows, LoadFault>
    requires keys { (1 ≤ keys) × (keys ≤ length types.now) }
    requires former { HaveTypes types.now (kept_in former.now) × (length (kept_in former.now) ≤ MOST_ROWS) }
    requires fresh { HaveTypes types.now fresh.now × (length fresh.now ≤ MOST_ROWS) }
    ensures { IsLaid keys (kept_in former.now) fresh.now result }
{
    let rows = match former {
        Some(former) => overlay(alloc, types, keys, former, fresh)?,
        None => {
            let none = RowsBuilder::new(alloc, types)?.finish();
            overlay(alloc, types, keys, &none, fresh)?
        }
    };
    if rows.len() > MOST_ROWS {
        return Err(LoadFault::Refused(Cause::Rows));
    }
    if rows.stored(&[]) > u64::from(MOST_TEXT) {
        return Err(LoadFault::Refused(Cause::Longer(MOST_TEXT)));
    }
    Ok(rows)
}

/// The version of fresh rows that are laid over the former ones.
fn update<C: Counter>(
    alloc: Global,
    d: &Definition,
    shape: &Shape,
    former: &Option<Rows>,
    fresh: &Rows,
) -> Result<Made<C>, LoadFault>
    requires sound { IsSound d.now }
    requires kept { is_keyed_layout d.now.layout ≡ false }
    requires update { d.now.source.update ≢ update.None }
    requires shape { shape.now ≡ shape_of d.now }
    requires former { CanFollow d.now (kept_in former.now) }
    requires few { length fresh.now ≤ MOST_ROWS }
    requires takes { TakesRows d.now fresh.now }
    ensures { IsMade d.now (kept_in former.now) fresh.now result }
{
    if let Some(key) = first_untaken(d.layout, fresh) {
        return Err(LoadFault::Refused(Cause::Key(key)));
    }
    let types = types_of(alloc, shape)?;
    let rows = lay(alloc, types.as_slice(), d.keys.len() as u32, former, fresh)?;
    let kept = copy_rows(alloc, types.as_slice(), &rows)?;
    let version = build(alloc, d, rows)?;
    Ok(Made {
        version,
        kept: Some(kept),
    })
}

/// The version of a load's fresh rows, which are laid over the former ones where the definition has an update field.
pub(crate) fn make<C: Counter>(
    alloc: Global,
    d: &Definition,
    shape: &Shape,
    former: &Option<Rows>,
    fresh: Rows,
) -> Result<Made<C>, LoadFault>
    requires sound { IsSound d.now }
    requires kept { is_keyed_layout d.now.layout ≡ false }
    requires shape { shape.now ≡ shape_of d.now }
    requires former { CanFollow d.now (kept_in former.now) }
    requires few { length fresh ≤ MOST_ROWS }
    requires takes { TakesRows d.now fresh }
    ensures { IsMade d.now (kept_in former.now) fresh result }
{
    match &d.source.update {
        Update::Field { .. } => update(alloc, d, shape, former, &fresh),
        Update::None => {
            let version = build(alloc, d, fresh)?;
            Ok(Made {
                version,
                kept: None,
            })
        }
    }
}
