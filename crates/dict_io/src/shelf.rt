// Files in memory.
ghost use Rattle.std.specs.Prelude.{◌≡◌, List, Some, find};
ghost use Rattle.std.specs.Option.{option_copied};
ghost use Rattle.std.specs.Str.{bytes_eq};
ghost use Rattle.dict_io.specs.Shelves.{file_named};
ghost use Rattle.dict_io.specs.declared.shelf.NamedFile.{NamedFile as FileOf};

use crate::outside::{Shelf, ShelfFault};
use dict_value::{Bytes, ListOf, NoMemory};
use std::alloc::Global;

#[cfg(test)]
mod tests;

/// A file in memory.
#[derive(Debug, Drop)]
pub struct NamedFile {
    pub name: Bytes,
    pub text: Bytes,
}

/// The first file of the name.
fn find_file<'a>(files: &'a [NamedFile], name: &[u8]) -> Option<&'a NamedFile>
    ensures { option_copied result ≡ find (λ f. bytes_eq f.name name.now) files.now }
{
    files.iter().find(|file| file.name.as_slice() == name)
}

/// Files in memory, by name; a name that isn't there fails.
#[derive(Drop)]
pub struct MemoryShelf {
    alloc: Global,
    files: ListOf<NamedFile>,
    failing: ListOf<u64>,
    calls: u64,
    faults: u64,
}

impl MemoryShelf {
    /// `failing` are the calls, from 0, that fail.
    pub fn new(alloc: Global, files: ListOf<NamedFile>, failing: ListOf<u64>) -> MemoryShelf
        ensures readings { ⟦<MemoryShelf as Shelf>⟧.readings result ≡ files }
        ensures faults { ⟦<MemoryShelf as Shelf>⟧.shelf_faults result ≡ 0 }
    {
        MemoryShelf {
            alloc,
            files,
            failing,
            calls: 0,
            faults: 0,
        }
    }
}

impl Shelf for MemoryShelf {
    ghost Readings = { List FileOf };

    ghost readings = { λ s. s.files };

    ghost file = { λ files name. Some (file_named files name) };

    ghost later = { λ files. files };

    ghost filed = { λ name answer. Unit {0} };

    ghost shelf_faults = { λ s. s.faults };

    fn read_file(&mut self, name: &str, limit: u32) -> Result<Bytes, ShelfFault> {
        let call = self.calls;
        self.calls = call.saturating_add(1);
        if self.failing.as_slice().contains(&call) {
            self.faults = self.faults.saturating_add(1);
            return Err(ShelfFault::Failed);
        }
        let Some(file) = find_file(self.files.as_slice(), name.as_bytes()) else {
            self.faults = self.faults.saturating_add(1);
            return Err(ShelfFault::Failed);
        };
        if file.text.len() > limit as usize {
            return Err(ShelfFault::TooLong);
        }
        match Bytes::copy_of(self.alloc, file.text.as_slice()) {
            Ok(text) => Ok(text),
            Err(NoMemory) => Err(ShelfFault::NoMemory),
        }
    }
}
