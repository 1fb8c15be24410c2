// The columns of a row as a child prints it.
ghost use Rattle.std.specs.Prelude.{◌≡◌, ◌++◌, ◌<◌, ℕ, List, [], ◌∷◌, IfOk, OnOk, take, length};
ghost use Rattle.dict_schema.specs.Shapes.{attribute_columns, cell_type, columns_at, end_columns, keyed_shape_of};
ghost use Rattle.dict_schema.specs.Shapes.{may_be_open, shape_column, shape_of};

use crate::definition::{Definition, RangeOf, Role, Shape, ShapeColumn};
use crate::parts::{column_at, is_attribute};
use dict_value::{AttrType, ListOf, NoMemory, copy_value};
use std::alloc::Global;

#[cfg(test)]
mod tests;

/// The columns of a row: the keys in the order of PRIMARY KEY, the start and the end of the range, then the others
/// in the order of the definition.
pub fn shape(alloc: Global, d: &Definition) -> Result<Shape, NoMemory>
    ensures { IfOk result (λ shape. shape ≡ shape_of d.now) }
{
    let mut shape = ListOf::with_room(alloc, d.columns.len())?;
    push_keys(alloc, d, &mut shape)?;
    push_ends(alloc, d, &mut shape)?;
    push_attributes(alloc, d, &mut shape)?;
    Ok(shape)
}

/// The same without the keys where the rows of a reply stand for the keys that were sent.
pub fn keyed_shape(alloc: Global, d: &Definition) -> Result<Shape, NoMemory>
    ensures { IfOk result (λ shape. shape ≡ keyed_shape_of d.now) }
{
    if !d.source.implicit {
        return shape(alloc, d);
    }
    let mut shape = ListOf::with_room(alloc, d.columns.len())?;
    push_ends(alloc, d, &mut shape)?;
    push_attributes(alloc, d, &mut shape)?;
    Ok(shape)
}

/// Appends the column at a place, where there is one.
fn push_column(
    alloc: Global,
    d: &Definition,
    role: Role,
    place: usize,
    shape: &mut Shape,
) -> Result<(), NoMemory>
    ensures { OnOk result (shape.new ≡ shape.old ++ columns_at d.now role (place ∷ [])) }
{
    let Some(column) = column_at(d, place) else {
        return Ok(());
    };
    shape.push(ShapeColumn {
        ty: column.ty,
        role,
        default: copy_value(alloc, &column.default)?,
    })
}

fn push_keys(alloc: Global, d: &Definition, shape: &mut Shape) -> Result<(), NoMemory>
    ensures { OnOk result (shape.new ≡ shape.old ++ columns_at d.now Role.Key d.now.keys) }
{
    for key in d.keys.as_slice() {
        push_column(alloc, d, Role::Key, usize::from(*key), shape)?;
    }
    Ok(())
}

fn push_ends(alloc: Global, d: &Definition, shape: &mut Shape) -> Result<(), NoMemory>
    ensures { OnOk result (shape.new ≡ shape.old ++ end_columns d.now d.now.range) }
{
    match d.range {
        RangeOf::None => Ok(()),
        RangeOf::Columns { start, end } => {
            push_column(alloc, d, Role::Start, usize::from(start), shape)?;
            push_column(alloc, d, Role::End, usize::from(end), shape)
        }
    }
}

fn push_attributes(alloc: Global, d: &Definition, shape: &mut Shape) -> Result<(), NoMemory>
    ensures { OnOk result (shape.new ≡ shape.old ++ attribute_columns d.now) }
{
    for place in 0..d.columns.len() {
        if is_attribute(d, place) {
            push_column(alloc, d, Role::Attribute, place, shape)?;
        }
    }
    Ok(())
}

/// Whether NULL in a column stands for an end of a range that is open.
pub fn may_be_open(role: Role) -> bool
    ensures { result ≡ may_be_open role }
{
    matches!(role, Role::Start | Role::End)
}

/// The type of the values in a column of a row: that of the column, and nullable at an end of a range.
pub fn cell_type(column: &ShapeColumn) -> AttrType
    ensures { result ≡ cell_type column.now }
{
    AttrType {
        base: column.ty.base,
        nullable: may_be_open(column.role) || column.ty.nullable,
    }
}
