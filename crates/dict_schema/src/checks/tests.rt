// What `check` and `check_function` answer, by tables of definitions.
mod alone;
mod beside;
mod bounds;
mod functions;
mod layouts;

use crate::sketch::{NUMBER, Sketch, definition_of};
use crate::{DefFault, RangeOf, check};
use dict_value::{AttrType, NoMemory};
use std::alloc::Global;

const NULLABLE: AttrType = AttrType {
    nullable: true,
    ..NUMBER
};

/// The range from the first of the two columns behind the third to the second.
const BOTH: RangeOf = RangeOf::Columns { start: 3, end: 4 };

/// What `check` answers of a sketch's definition.
fn judged(alloc: Global, sketch: &Sketch) -> Result<Result<(), DefFault>, NoMemory> {
    Ok(check(&definition_of(alloc, sketch)?))
}
