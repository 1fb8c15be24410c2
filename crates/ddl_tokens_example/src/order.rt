// An order, as it is written.
use dict_value::{Bytes, ListOf};

#[derive(Debug, Drop)]
pub struct Item {
    pub name: Bytes,
    pub times: Option<Bytes>,
}

#[derive(Debug, Drop)]
pub enum Clause {
    Price(Bytes),
    Note(Bytes),
    Due(Bytes),
}

#[derive(Clone, Copy, Debug, PartialEq, Eq)]
pub(crate) enum ClauseKind {
    Price,
    Note,
    Due,
}

#[derive(Debug, Drop)]
pub struct Order {
    pub name: Bytes,
    pub items: ListOf<Item>,
    pub clauses: ListOf<Clause>,
}
