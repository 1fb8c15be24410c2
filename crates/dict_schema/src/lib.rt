//! Definitions of dictionaries and functions: plain data, what they are allowed to be, and the columns of their rows.
//!
//! It promises that `check` and `check_function` answer Ok exactly where no fault of their tables stands, else the
//! first fault in the table's order, with its number (`specs/Table.antt`, read from the bottom up), and that `shape`
//! and `keyed_shape` give the columns of a row in their order (`specs/Shapes.antt`). A definition without a fault whose
//! types can be is sound (`specs/Sound.antt`); later layers have this as their condition.
#![tactic(auto)]

mod attributes;
pub mod checks;
pub mod definition;
pub mod fault;
mod judging;
mod keys;
pub mod layout;
mod names;
pub mod parts;
mod ranges;
pub mod shapes;
#[cfg(test)]
mod sketch;
mod sources;

pub use checks::{check, check_function};
pub use definition::{
    Arg, CacheSet, Column, Definition, FunctionDef, Item, Kind, Layout, Lifetime, RangeOf, Role,
    Shape, ShapeColumn, SourceOf, Strategy, Update,
};
pub use dict_value::Format;
pub use fault::{DefFault, Which};
pub use layout::is_keyed;
pub use parts::{column_at, is_attribute};
pub use shapes::{cell_type, keyed_shape, may_be_open, shape};
