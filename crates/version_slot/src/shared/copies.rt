// The publisher's end of the two copies of what a slot shows.
ghost use Rattle.std.specs.Prelude.{◌≡◌, ◌<◌, [], Some, IfOk, OnOk, OnErr};
ghost use Rattle.left_right.specs.Sides.{view as seat_view};
ghost use Rattle.version_slot.specs.SharedSlots.{Reached};
ghost use Rattle.version_slot.specs.Copies.{which};

use super::rule::{Hearing, Known, OneSlot, Showing, Telling};
use super::shown::Shown;
use super::token::SharedToken;
use crate::fact::Fact;
use crate::held::Entry;
use core::mem::replace_with;
use crossbeam_utils::rule::Protocol;
use dict_value::NoMemory;
use left_right::Absorb;
use left_right::reader::Reader;
use left_right::writer::Writer;
use std::alloc::{AllocError, Global};
use std::sync::Wait;

/// What shows viewers a value. A field of a struct over any entries can't have the type of the copies themselves.
pub trait Flip: Drop {
    type Value: Drop;

    /// What viewers take now.
    ghost shown: { Self → Self.Value };

    /// This value may be shown.
    ghost may_show: { Self → Self.Value → Type 0 };

    /// Shows the next value. It waits for those that still read the copy from before the last call.
    fn flip(&mut self, next: Self::Value) -> Result<(), NoMemory>
        requires { may_show self.old next }
        ensures ok { OnOk result (shown self.new ≡ next) }
        ensures err { OnErr result (shown self.new ≡ shown self.old) }
        ensures stays { (value : Self.Value) → may_show self.old value → may_show self.new value };
}

/// The writer of two copies, and the runtime by which it waits.
pub struct Copies<T: Absorb<O> + Drop, O: Drop, P: Protocol<T, Known>, R: Wait + Drop> {
    writer: Writer<T, O, Known, P>,
    rt: R,
}

impl<T: Absorb<O> + Drop, O: Drop, P: Protocol<T, Known>, R: Wait + Drop> Drop
    for Copies<T, O, P, R> {
    fn drop(self) {
        let Self { writer, rt } = self;
        drop(writer.take(&rt));
    }
}

type SlotWriter<V, F> = Writer<Shown<V, F>, Shown<V, F>, Known, OneSlot>;

/// The two copies of what a slot shows.
pub type SlotCopies<V, F, R> = Copies<Shown<V, F>, Shown<V, F>, OneSlot, R>;

pub(super) type SlotReader<V, F> = Reader<Shown<V, F>, Known, OneSlot>;

// Shows the next value. Where it is refused, what it leaves pending is replaced by the next showing, if one comes.
fn show<V: Entry, F: Fact<V>, R: Wait>(
    writer: SlotWriter<V, F>,
    rt: &R,
    next: Shown<V, F>,
) -> (SlotWriter<V, F>, Result<(), AllocError>)
    requires { next.slot ≡ writer.desk.shown.value.slot }
    ensures ok { OnOk result.1 (result.0.desk.shown.value ≡ next) }
    ensures knows { OnOk result.1 (seat_view result.0.desk.place ≡ Some (which next.slot)) }
    ensures err { OnErr result.1 (result.0.desk.shown.value ≡ writer.desk.shown.value) }
{
    let mut writer = writer;
    let Ok(()) = writer.append(next) else {
        return (writer, Err(AllocError));
    };
    writer.publish_as::<Showing, R>(rt)
}

impl<V: Entry, F: Fact<V>, R: Wait + Drop> Flip for Copies<Shown<V, F>, Shown<V, F>, OneSlot, R> {
    type Value = Shown<V, F>;

    ghost shown = { λ copies. copies.writer.desk.shown.value };

    ghost may_show = { λ copies next. next.slot ≡ copies.writer.desk.shown.value.slot };

    fn flip(&mut self, next: Shown<V, F>) -> Result<(), NoMemory> {
        let shown = replace_with(&mut self.writer, (&self.rt, next), |writer, (rt, next)| {
            show::<V, F, R>(writer, rt, next)
        });
        match shown {
            Ok(()) => Ok(()),
            Err(AllocError) => Err(NoMemory),
        }
    }
}

/// Makes the copies, for so many readers. The first showing tells the writer of which slot they are, and makes room for
/// later ones.
pub(super) fn open_copies<V: Entry, F: Fact<V>, R: Wait + Drop>(
    rt: R,
    alloc: Global,
    told: &SharedToken<V, F>,
    readers: u32,
) -> Result<SlotCopies<V, F, R>, NoMemory>
    requires readers { 0 < readers }
    requires empty { told.now.list ≡ [] }
    ensures shown { IfOk result (λ copies. copies.writer.desk.shown.value ≡ told.now) }
    ensures knows { IfOk result (λ copies. seat_view copies.writer.desk.place ≡ Some (which told.now.slot)) }
{
    let first = Shown::nothing(told.again());
    let second = Shown::nothing(told.again());
    let Ok(writer) = Writer::new(alloc, first, second, readers as usize) else {
        return Err(NoMemory);
    };
    let (writer, shown) = show::<V, F, R>(writer, &rt, Shown::nothing(told.again()));
    let copies = Copies { writer, rt };
    match shown {
        Ok(()) => Ok(copies),
        Err(_) => Err(NoMemory),
    }
}

/// A reader that knows of which slot the copies are.
pub(super) fn make_reader<V: Entry, F: Fact<V>, R: Wait + Drop>(
    copies: &mut SlotCopies<V, F, R>,
) -> Result<SlotReader<V, F>, NoMemory>
    ensures shown { copies.new.writer.desk.shown ≡ copies.old.writer.desk.shown }
    ensures kept { seat_view copies.new.writer.desk.place ≡ seat_view copies.old.writer.desk.place }
    ensures told { IfOk result (λ reader. seat_view reader.place ≡ seat_view copies.old.writer.desk.place) }
{
    let Ok(mut reader) = copies.writer.factory().reader() else {
        return Err(NoMemory);
    };
    let note = copies.writer.tell::<Telling>();
    reader.learn::<Hearing>(note);
    Ok(reader)
}
