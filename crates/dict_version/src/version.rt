// A version: a definition, its rows, and the index that its layout wants.
ghost use Rattle.std.specs.Prelude.{◌≡◌, ◌++◌, ◌<◌, ◌≤◌, ℕ, List, Err, false, Some, None, IfErr, IfOk, IfSome};
ghost use Rattle.std.specs.Prelude.{MatchOption};
ghost use Rattle.std.specs.Prelude.{OnErr, OnOk, length, min, slice_get};
ghost use Rattle.dict_schema.specs.Parts.{is_keyed_layout};
ghost use Rattle.dict_schema.specs.Shapes.{cell_types, shape_of};
ghost use Rattle.dict_schema.specs.Sound.{IsSound};
ghost use Rattle.dict_value.specs.Memory.{UnlessNoMemory};
ghost use Rattle.dict_value.specs.Values.{IsStringValue};
ghost use Rattle.dict_value.specs.declared.value.TheConstants.{MOST_ROWS};
ghost use Rattle.dict_value.specs.declared.value.Value.{Value as ValueOf};
ghost use Rattle.dict_version.specs.Contents.{contents};
ghost use Rattle.dict_version.specs.Kept.{HasHierarchy, IsHierarchyOf};
ghost use Rattle.dict_version.specs.Keys.{NamesParent};
ghost use Rattle.dict_version.specs.Lookups.{Finds, TakesFew};
ghost use Rattle.dict_version.specs.Printed.{IsPrintedAt, IsPrintedIn, IsCellOf};
ghost use Rattle.dict_version.specs.Rows.{IsRefusedFor, LayoutTakes, TakesRows};
ghost use Rattle.dict_version.specs.declared.fault.LayoutFault.TheVariants as fault;
ghost use Rattle.packed_rows.specs.Cells.{meaning};
ghost use Rattle.packed_rows.specs.Columns.{cell_at};
ghost use Rattle.packed_rows.specs.Packs.{stored_size};

use crate::fault::LayoutFault;
use crate::index::{Index, hierarchy_of};
use crate::key::Key;
use crate::print::print_cell;
use dict_schema::{Definition, cell_type, shape};
use dict_value::{AttrType, Bytes, Counter, ListOf, NoMemory, Row, Value};
use hier::Hier;
use packed_rows::{Cell, Rows, value_of};
use std::alloc::Global;
use std::marker::Model;

/// The rows of one load under the definition that they were loaded by.
#[derive(Drop)]
pub struct Version<S> {
    definition: Definition,
    rows: Rows,
    moment: u64,
    types: ListOf<AttrType>,
    index: Index<S>,
    hier: Option<Hier>,
}

impl<S> Model for Version<S> {
    ghost use Rattle.dict_version.specs.Contents.{Contents};

    ghost Value = { Contents };

    ghost use Rattle.dict_version.specs.Kept.{IsVersion};

    ghost view = { λ it. record { definition = it.definition; rows = it.rows; moment = it.moment } };

    ghost invariant = { λ it. IsVersion it.definition it.rows it.types it.index it.hier };
}

/// The types of the values of a row, in its order.
pub(crate) fn cell_types(alloc: Global, d: &Definition) -> Result<ListOf<AttrType>, NoMemory>
    ensures { IfOk result (λ types. types ≡ cell_types (shape_of d.now)) }
{
    let columns = shape(alloc, d)?;
    let mut types = ListOf::with_room(alloc, columns.len())?;
    for column in columns.as_slice() {
        types.push(cell_type(column))?;
    }
    Ok(types)
}

impl<S: Counter> Version<S> {
    /// The version of some rows by the layout of their definition. It keeps the rows as they are, without a copy.
    pub fn build(
        alloc: Global,
        definition: Definition,
        rows: Rows,
    ) -> Result<Version<S>, LayoutFault>
        requires sound { IsSound definition }
        // No version is kept of a dictionary whose rows are fetched by key.
        requires kept { is_keyed_layout definition.layout ≡ false }
        requires few { length rows ≤ MOST_ROWS }
        requires takes { TakesRows definition rows }
        ensures built { IfOk result (λ version. version ≡ contents definition rows) }
        ensures taken { OnOk result (LayoutTakes definition rows) }
        ensures refused { UnlessNoMemory (Err fault.NoMemory) result
            (IfErr result (IsRefusedFor definition rows)) }
    {
        let types = cell_types(alloc, &definition)?;
        let index = Index::build(alloc, &definition, &rows)?;
        let hier = hierarchy_of(alloc, &definition, &rows)?;
        Ok(Version {
            definition,
            rows,
            moment: 0,
            types,
            index,
            hier,
        })
    }

    /// The same version as of a load that began at a moment.
    pub fn stamp(self, moment: u64) -> Version<S>
        ensures { result ≡ record self { moment = moment } }
    {
        Version { moment, ..self }
    }

    /// The moment that it was stamped with, or 0.
    pub fn moment(&self) -> u64
        ensures { result ≡ self.now.moment }
    {
        self.moment
    }

    /// The definition, and what holds of the rows by it.
    pub fn definition(&self) -> &Definition
        ensures is { result.now ≡ self.now.definition }
        ensures sound { IsSound self.now.definition }
        ensures kept { is_keyed_layout self.now.definition.layout ≡ false }
        ensures takes { TakesRows self.now.definition self.now.rows }
        ensures taken { LayoutTakes self.now.definition self.now.rows }
    {
        &self.definition
    }

    /// How many rows there are.
    pub fn row_count(&self) -> u32
        ensures count { result ≡ length self.now.rows }
        ensures few { result ≤ MOST_ROWS }
    {
        self.rows.len() as u32
    }

    /// How many columns each row has.
    pub fn column_count(&self) -> usize
        ensures { result ≡ length (shape_of self.now.definition) }
    {
        self.types.len()
    }

    /// How many bytes the rows take: for each column its cells and, where it may hold NULL, a bit for each row; and
    /// all texts once. At most the greatest number of 64 bits is told.
    pub fn stored(&self) -> u64
        ensures { result ≡ min (stored_size (cell_types (shape_of self.now.definition)) self.now.rows) u64.MAX }
    {
        self.rows.stored(self.types.as_slice())
    }

    /// A copy of the row at a place, from 0.
    pub fn row(&self, alloc: Global, place: u32) -> Result<Row, NoMemory>
        requires { place < length self.now.rows }
        ensures { IfOk result (λ row. slice_get self.now.rows place ≡ Some row) }
    {
        let mut row = ListOf::with_room(alloc, self.types.len())?;
        for column in 0..self.types.len() {
            let cell = self.rows.cell(place as usize, column);
            row.push(value_of(alloc, &cell)?)?;
        }
        Ok(row)
    }

    /// The place of the row that is found by a key, without taking memory; nothing for a key of another form than
    /// the layout's. The steps are those of the layout.
    pub fn find(&self, key: &Key, steps: &mut S) -> Option<u32>
        ensures found { Finds self.now.definition self.now.rows key.now result }
        ensures within { IfSome result (λ place. place < length self.now.rows) }
        ensures steps { TakesFew self.now.definition self.now.rows key.now
            (S.amount steps.old) (S.amount steps.new) }
    {
        self.index.find(key, steps)
    }

    /// A copy of the value in a row and a column of the shape, from 0; only a String that isn't empty takes memory.
    pub fn value(&self, alloc: Global, place: u32, column: u32) -> Result<Value, NoMemory>
        requires place { place < length self.now.rows }
        requires column { column < length (shape_of self.now.definition) }
        ensures ok { IfOk result (λ value. cell_at self.now.rows place column ≡ Some value) }
        ensures memory { OnErr result ((value : ValueOf)
            × (cell_at self.now.rows place column ≡ Some value) × IsStringValue value) }
    {
        let cell = self.rows.cell(place as usize, column as usize);
        value_of(alloc, &cell)
    }

    /// The value in a row and a column of the shape, from 0, where it lies.
    pub fn cell(&self, place: u32, column: u32) -> Cell<'_>
        requires place { place < length self.now.rows }
        requires column { column < length (shape_of self.now.definition) }
        ensures { cell_at self.now.rows place column ≡ Some (meaning result) }
    {
        self.rows.cell(place as usize, column as usize)
    }

    /// Appends the escaped text of a cell that stands in a column of the shape, from 0, and `\N` for NULL. After
    /// `NoMemory` nothing has changed.
    pub fn write_found(&self, cell: &Cell<'_>, column: u32, out: &mut Bytes) -> Result<(), NoMemory>
        requires column { column < length (shape_of self.now.definition) }
        requires stands { IsCellOf self.now.rows column (meaning cell.now) }
        ensures ok { OnOk result ((text : List ℕ)
            × IsPrintedIn self.now.definition self.now.rows column (meaning cell.now) text
            × (out.new ≡ out.old ++ text)) }
        ensures err { OnErr result (out.new ≡ out.old) }
    {
        print_cell(&self.types.as_slice()[column as usize], cell, out)
    }

    /// Appends the escaped text of the value in a row and a column of the shape, from 0, and `\N` for NULL. The cell
    /// is read where it lies. After `NoMemory` nothing has changed.
    pub fn write_cell(&self, place: u32, column: u32, out: &mut Bytes) -> Result<(), NoMemory>
        requires place { place < length self.now.rows }
        requires column { column < length (shape_of self.now.definition) }
        ensures ok { OnOk result ((text : List ℕ)
            × IsPrintedAt self.now.definition self.now.rows place column text × (out.new ≡ out.old ++ text)) }
        ensures err { OnErr result (out.new ≡ out.old) }
    {
        let cell = self.rows.cell(place as usize, column as usize);
        print_cell(&self.types.as_slice()[column as usize], &cell, out)
    }

    /// The hierarchy of the keys, where the layout is FLAT or a simple hashed one and a column names a parent.
    pub fn hier(&self) -> Option<&Hier>
        ensures { MatchOption result ((column : ℕ) → ¬ (NamesParent self.now.definition column))
            (λ hier. IsHierarchyOf self.now.definition self.now.rows hier.now) }
    {
        match &self.hier {
            Some(hier) => Some(hier),
            None => None,
        }
    }
}
