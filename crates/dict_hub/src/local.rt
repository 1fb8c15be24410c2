// The desk of one thread.
ghost use Rattle.std.specs.Prelude.{◌≡◌, ◌<◌, ◌∷◌, ℕ, [], All, IfOk, List, length, true};
ghost use Rattle.dict_hub.specs.Over.{AllLoaded, IsLoaded, children_of, over_state};
ghost use Rattle.dict_hub.specs.Plain.{new_plain, opened};
ghost use Rattle.dict_hub.specs.Readings.{file_state};
ghost use Rattle.dict_schema.specs.Sound.{IsSoundItem};

use crate::items::Items;
use crate::over::DeskOver;
use crate::plain::PlainDict;
use crate::reading::DefinitionsFile;
use child_io::Spawner;
use dict_copies::copy_definition;
use dict_io::{Clock, Shelf};
use dict_schema::Item;
use dict_session::Desk;
use dict_value::{ListOf, NoMemory};
use loader::Folder;
use std::alloc::Global;

/// A desk of one thread, which loads what is due before each request. Its programs lie in the folder that F names.
pub type LocalDesk<'a, S, K, H, F> = DeskOver<S, K, PlainDict<S, F>, DefinitionsFile<'a, H>>;

/// The dictionary of an item, before its first load.
fn open<S: Spawner, F: Folder>(
    alloc: Global,
    item: &Item,
    folder: &[u8],
    seed: u64,
    number: u32,
) -> Result<PlainDict<S, F>, NoMemory>
    requires sound { IsSoundItem item.now }
    requires loaded { IsLoaded item.now }
    requires folder { folder.now ≡ F.folder }
    ensures { IfOk result (λ made. opened folder.now seed number (item.now ∷ []) ≡ made ∷ []) }
{
    match item {
        Item::Dictionary(d) => {
            let definition = copy_definition(alloc, d)?;
            PlainDict::new(alloc, definition, folder, seed, number)
        }
        Item::Function(_) => unreachable!(),
    }
}

/// The dictionaries of items, before their first loads.
fn open_each<S: Spawner, F: Folder>(
    alloc: Global,
    items: &[Item],
    folder: &[u8],
    seed: u64,
) -> Result<Vec<PlainDict<S, F>>, NoMemory>
    requires sound { All IsSoundItem items.now }
    requires loaded { AllLoaded items.now }
    requires few { length items.now < u32.MAX }
    requires folder { folder.now ≡ F.folder }
    ensures { IfOk result (λ made. made.items ≡ opened folder.now seed 0 items.now) }
{
    let mut made = ListOf::with_room(alloc, items.len())?;
    for place in 0..items.len() {
        let dictionary = open(alloc, &items[place], folder, seed, place as u32)?;
        made.push(dictionary)?;
    }
    Ok(made.into_vec())
}

/// The dictionaries of items, before their first loads: each one's number is its place. The programs lie in the folder
/// that F names.
pub fn plain_dictionaries<S: Spawner, F: Folder>(
    alloc: Global,
    items: &Items,
    folder: &[u8],
    seed: u64,
) -> Result<Vec<PlainDict<S, F>>, NoMemory>
    requires { folder.now ≡ F.folder }
    ensures { IfOk result (λ made. made.items ≡ opened folder.now seed 0 items.now) }
{
    let items = items.list();
    open_each(alloc, items.as_slice(), folder, seed)
}

/// The desk of one thread over these dictionaries of the items.
pub fn local_desk<'a, S: Spawner, K: Clock, H: Shelf, F: Folder>(
    items: Items,
    dictionaries: Vec<PlainDict<S, F>>,
    spawner: S,
    clock: K,
    shelf: H,
    file: &'a str,
) -> LocalDesk<'a, S, K, H, F>
    requires { (folder : List ℕ) × (seed : ℕ) × (dictionaries.items ≡ opened folder seed 0 items) }
    ensures { ⟦<LocalDesk<'a, S, K, H, F> as Desk>⟧.state result
        ≡ over_state items (file_state (H.readings shelf) file.now) (K.moments clock)
        (children_of S.scripts S.starts spawner) dictionaries.items true }
{
    let _items = items.list();
    let file = DefinitionsFile::new(shelf, file);
    DeskOver::new(spawner, clock, file, items, dictionaries, true)
}
