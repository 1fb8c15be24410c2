//! What the program meets outside itself, as traits: sources of bytes, sinks of bytes, files and the
//! clock, with objects in memory that meet them and thin real ones over the runtime.
//!
//! It promises that a call which answers a fault raises the object's count of faults, and that any
//! other leaves it; that nothing is read behind an end; and that where an object tells its bytes, a
//! read gives the next of them and a write appends.
#![tactic(auto)]

pub mod lent;
pub mod link;
pub mod memory;
pub mod outside;
pub mod real;
pub mod shelf;

pub use link::{Both, Gate, Link, MemoryLink, OpenGate, write_link};
pub use memory::{MemoryClock, MemorySink, MemorySource};
pub use outside::{
    Clock, Failed, Got, LAST_MOMENT, Put, Shelf, ShelfFault, Sink, Source, write_all,
};
pub use real::{FileShelf, StdSink, StdSource, SystemClock, read_from, write_to};
pub use shelf::{MemoryShelf, NamedFile};
