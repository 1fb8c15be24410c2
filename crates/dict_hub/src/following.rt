// What a dictionary makes of the item that stands in its place in another definitions file.
ghost use Rattle.std.specs.Prelude.{◌≡◌, ◌≤◌, ◌<◌, ◌+◌};
ghost use mathlib.Core.List.{IsPrefix};
ghost use Rattle.dict_hub.specs.Over.{Follows, IsLoaded, children_of, item_name, no_counts, with_end};
ghost use Rattle.dict_io.specs.declared.outside.TheConstants.{LAST_MOMENT};
ghost use Rattle.dict_schema.specs.Sound.{IsSoundItem};

use crate::parts::DictAt;
use child_io::Spawner;
use dict_schema::Item;
use loader::LoadEnd;
use std::alloc::Global;

/// How many items differed, and how many loads were published.
#[derive(Clone, Copy, Debug, PartialEq, Eq)]
pub struct Counts {
    pub changed: u32,
    pub published: u32,
}

impl Counts {
    pub(crate) fn none() -> Counts
        ensures { result ≡ no_counts }
    {
        Counts {
            changed: 0,
            published: 0,
        }
    }

    /// One more item differed, and its load ended so.
    fn with_end(self, end: LoadEnd) -> Counts
        requires room { self.changed < u32.MAX }
        requires fewer { self.published ≤ self.changed }
        ensures counts { result ≡ with_end self end }
        ensures fewer { result.published ≤ result.changed }
        ensures one { result.changed ≡ self.changed + 1 }
    {
        let published = match end {
            LoadEnd::Published(_) => self.published + 1,
            _ => self.published,
        };
        Counts {
            changed: self.changed + 1,
            published,
        }
    }
}

/// Hands a dictionary an item: where that differs from its current one, it is loaded with it.
pub(crate) fn follow_one<S: Spawner, C: DictAt<S>>(
    alloc: Global,
    dictionary: &mut C,
    spawner: &mut S,
    item: Item,
    now: u64,
    counts: &mut Counts,
)
    requires sound { IsSoundItem item }
    requires loaded { IsLoaded item }
    requires named { item_name item ≡ C.name (C.state dictionary.old) }
    requires bound { now ≤ LAST_MOMENT }
    requires room { counts.old.changed < u32.MAX }
    requires fewer { counts.old.published ≤ counts.old.changed }
    ensures follows { Follows C.judged C.loaded_as now item counts.old
        (C.state dictionary.old) (children_of S.scripts S.starts spawner.old)
        (C.state dictionary.new) (children_of S.scripts S.starts spawner.new) counts.new }
    ensures grows { IsPrefix (C.view (C.state dictionary.old)) (C.view (C.state dictionary.new)) }
    ensures named { C.name (C.state dictionary.new) ≡ C.name (C.state dictionary.old) }
    ensures fewer { counts.new.published ≤ counts.new.changed }
    ensures one { counts.new.changed ≤ counts.old.changed + 1 }
{
    let Item::Dictionary(definition) = item else {
        return;
    };
    if dictionary.is_current(&definition) {
        return;
    }
    let end = dictionary.load_as(alloc, definition, spawner, now);
    *counts = counts.with_end(end);
}
