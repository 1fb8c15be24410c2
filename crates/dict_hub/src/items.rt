// The items of a desk.
ghost use Rattle.std.specs.Prelude.{◌≡◌, ◌<◌, ◌↔◌, All, IfNone, IfSome, IsTrue, length};
ghost use Rattle.dict_hub.specs.Changes.{AllStand, IsFirstUnlike};
ghost use Rattle.dict_hub.specs.Over.{AllLoaded, AreDesks, IsLoaded};
ghost use Rattle.dict_schema.specs.Sound.{IsSoundItem};

use crate::changes::first_unlike;
use dict_schema::{Item, is_keyed};
use dict_value::ListOf;
use std::marker::Model;

/// Whether an item is a dictionary that is fully loaded.
fn is_loaded(item: &Item) -> bool
    ensures { IsTrue result ↔ IsLoaded item.now }
{
    match item {
        Item::Dictionary(d) => !is_keyed(d),
        Item::Function(_) => false,
    }
}

/// Whether each item is a dictionary that is fully loaded.
pub fn are_loaded(items: &[Item]) -> bool
    ensures { IsTrue result ↔ AllLoaded items.now }
{
    items.iter().all(|item| is_loaded(item))
}

/// Sound items, each of which is a dictionary that is fully loaded.
#[derive(Drop)]
pub struct Items {
    items: ListOf<Item>,
}

impl Model for Items {
    ghost use Rattle.std.specs.Prelude.{List};
    ghost use Rattle.dict_hub.specs.Over.{AreDesks};
    ghost use Rattle.dict_schema.specs.declared.definition.Item.{Item as ItemOf};

    ghost Value = { List ItemOf };

    ghost view = { λ it. it.items };

    ghost invariant = { λ it. AreDesks it.items };
}

impl Items {
    pub fn new(items: ListOf<Item>) -> Items
        requires sound { All IsSoundItem items }
        requires loaded { AllLoaded items }
        requires few { length items < u32.MAX }
        ensures { result ≡ items }
    {
        Items { items }
    }

    pub fn list(&self) -> &ListOf<Item>
        ensures list { result.now ≡ self.now }
        ensures are { AreDesks self.now }
    {
        &self.items
    }

    /// The first item, from 1, that is missing in one of the lists or can't stand in the other's place.
    pub(crate) fn first_unlike(&self, others: &ListOf<Item>) -> Option<u32>
        ensures none { IfNone result (AllStand self.now others.now) }
        ensures first { IfSome result (IsFirstUnlike self.now others.now) }
    {
        first_unlike(self.items.as_slice(), others.as_slice())
    }
}
