// What holds between any two that have a list of one slot.
ghost use Rattle.std.specs.Prelude.{◌≡◌};
ghost use Rattle.version_slot.specs.SharedSlots.{AreOfOneList, Reached, Viewing};

use super::copies::Flip;
use super::publisher::SharedPublisher;
use super::shown::Shown;
use super::viewer::SharedViewer;
use crate::fact::Fact;
use crate::held::Entry;

/// Of a slot's list, as its publisher has it, and a view the longer begins with the shorter.
pub fn list_and_view<V: Entry, F: Fact<V>, W: Flip<Value = Shown<V, F>>>(
    publisher: &SharedPublisher<V, F, W>,
    viewer: &SharedViewer<V, F>,
)
    requires { viewer.now.slot ≡ publisher.now.slot }
    ensures { AreOfOneList publisher.now.list viewer.now.list }
{
    let _shorter = publisher.tell().is_within(&viewer.tell());
}

/// The same of two views.
pub fn two_views<V: Entry, F: Fact<V>>(one: &SharedViewer<V, F>, other: &SharedViewer<V, F>)
    requires { other.now.slot ≡ one.now.slot }
    ensures { AreOfOneList one.now.list other.now.list }
{
    let _shorter = one.tell().is_within(&other.tell());
}
