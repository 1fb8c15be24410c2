// A shared handle of an entry, which contracts see as the entry.
ghost use Rattle.std.specs.Prelude.{◌≡◌, IfOk};

use dict_value::NoMemory;
use std::alloc::Global;
use std::marker::Model;
use std::sync::Arc;

/// What may be an entry of a slot: each type whose values may be let go.
pub trait Entry {
    /// Lets it go.
    fn end(self);
}

impl<V: Drop> Entry for V {
    fn end(self) {}
}

pub struct Held<V: Entry> {
    handle: Arc<V>,
}

impl<V: Entry> Model for Held<V> {
    ghost use Rattle.std.specs.Arc.{arc_value};

    ghost Value = { V };

    ghost view = { λ it. arc_value it.handle };
}

impl<V: Entry> Drop for Held<V> {
    fn drop(self) {
        let Self { handle } = self;
        if let Some(v) = Arc::into_inner(handle) {
            v.end();
        }
    }
}

impl<V: Entry> Held<V> {
    /// A first handle; after `NoMemory` the entry is given up.
    pub fn new(alloc: Global, v: V) -> Result<Held<V>, NoMemory>
        ensures { IfOk result (λ held. held ≡ v) }
    {
        match Arc::new(alloc, v) {
            Ok(handle) => Ok(Held { handle }),
            Err(refused) => {
                refused.value.end();
                Err(NoMemory)
            }
        }
    }

    /// One more handle. It takes no memory, and fails where the handles can't be counted any more.
    pub fn again(&self) -> Result<Held<V>, NoMemory>
        ensures { IfOk result (λ held. held ≡ self.now) }
    {
        match Arc::try_clone(&self.handle) {
            Ok(handle) => Ok(Held { handle }),
            Err(_) => Err(NoMemory),
        }
    }

    pub fn get(&self) -> &V
        ensures { result.now ≡ self.now }
    {
        &*self.handle
    }
}
