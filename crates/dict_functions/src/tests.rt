// Replies by tables.
mod calls;
mod fetching;
mod flat;
mod hashed;
mod hierarchies;
mod keyed;
mod making;
mod prefixes;
mod ranges;
