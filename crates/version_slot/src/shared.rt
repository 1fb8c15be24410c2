// The slot that threads share: one publisher, and viewers that never wait.
ghost use Rattle.std.specs.Prelude.{◌≡◌, ◌<◌, [], replicate, IfOk};
ghost use Rattle.version_slot.specs.SharedSlots.{Reached, Viewing, no_view_yet, nothing_yet};

use crate::fact::Fact;
use crate::held::Entry;
use dict_value::{ListOf, NoMemory};
use std::alloc::Global;
use std::marker::PhantomData;
use std::sync::Wait;

mod copies;
pub mod laws;
mod log;
mod publisher;
mod rule;
mod shown;
#[cfg(test)]
mod tests;
mod token;
mod viewer;

pub use copies::{Flip, SlotCopies};
pub use publisher::SharedPublisher;
pub use shown::Shown;
pub use token::SharedToken;
pub use viewer::SharedViewer;

/// Makes slots. No value of it is made.
pub struct SharedSlot<V: Entry, F: Fact<V>> {
    of: PhantomData<(V, F)>,
}

impl<V: Entry, F: Fact<V>> SharedSlot<V, F> {
    /// The ends of a slot without an entry, with all its viewers. The publisher waits by `rt`.
    pub fn new<R: Wait + Drop>(
        rt: R,
        alloc: Global,
        readers: u32,
    ) -> Result<
        (
            SharedPublisher<V, F, SlotCopies<V, F, R>>,
            ListOf<SharedViewer<V, F>>,
        ),
        NoMemory,
    >
        requires { 0 < readers }
        ensures publisher { IfOk result (λ ends. ends.0 ≡ nothing_yet ends.0.slot) }
        ensures viewers { IfOk result (λ ends. ends.1 ≡ replicate readers (no_view_yet ends.0.slot)) }
    {
        let mut viewers = ListOf::with_room(alloc, readers as usize)?;
        let (told, counter) = SharedToken::open();
        let mut copies = copies::open_copies::<V, F, R>(rt, alloc, &told, readers)?;
        for _ in 0..readers {
            let reader = copies::make_reader::<V, F, R>(&mut copies)?;
            viewers.push(SharedViewer::over(reader, told.again()))?;
        }
        Ok((SharedPublisher::over(told, counter, copies), viewers))
    }
}
