// How another definitions file may change the items of a desk.
ghost use Rattle.std.specs.Prelude.{◌<◌, ◌↔◌, IfNone, IfSome, IsTrue, length};
ghost use Rattle.dict_hub.specs.Changes.{AllStand, CanChange, IsFirstUnlike, Stands};
ghost use Rattle.dict_hub.specs.Over.{AllLoaded, IsLoaded};

use dict_schema::{Definition, Item, is_keyed};

/// Whether both are fully loaded dictionaries of one name.
fn can_change(d: &Definition, other: &Definition) -> bool
    ensures { IsTrue result ↔ CanChange d.now other.now }
{
    d.name.as_slice() == other.name.as_slice() && !is_keyed(d) && !is_keyed(other)
}

/// Whether an item may stand in the place of a dictionary that is fully loaded.
fn stands(item: &Item, other: &Item) -> bool
    requires { IsLoaded item.now }
    ensures { IsTrue result ↔ Stands item.now other.now }
{
    match (item, other) {
        (Item::Dictionary(d), Item::Dictionary(other)) => can_change(d, other),
        _ => false,
    }
}

/// The first item, from 1, that is missing in one of the lists or can't stand in the other's place.
pub(crate) fn first_unlike(items: &[Item], others: &[Item]) -> Option<u32>
    requires loaded { AllLoaded items.now }
    requires few { length items.now < u32.MAX }
    ensures none { IfNone result (AllStand items.now others.now) }
    ensures first { IfSome result (IsFirstUnlike items.now others.now) }
{
    for place in 0..items.len() {
        if place >= others.len() || !stands(&items[place], &others[place]) {
            return Some(place as u32 + 1);
        }
    }
    if others.len() > items.len() {
        return Some(items.len() as u32 + 1);
    }
    None
}
