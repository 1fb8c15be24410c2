// A dictionary of one thread.
ghost use Rattle.std.specs.Prelude.{◌≡◌, ◌≤◌, List, ℕ, IfErr, IfOk, false};
ghost use Rattle.dict_hub.specs.Plain.{PlainDue, PlainEntered, PlainJudged, PlainLoaded, PlainLoadedAs, PlainState};
ghost use Rattle.dict_hub.specs.Plain.{PlainTaught, new_plain};
ghost use Rattle.dict_version.specs.Contents.{Contents};
ghost use Rattle.loader.specs.Origins.{HasOrigin};
ghost use Rattle.version_slot.specs.Views.{HasEntries, first_entries};
ghost use Rattle.dict_schema.specs.Parts.{is_keyed_layout};
ghost use Rattle.dict_schema.specs.Sound.{IsSound};

use crate::parts::DictAt;
use child_io::Spawner;
use dict_schema::Definition;
use dict_value::{NoMemory, Uncounted};
use dict_version::Version;
use loader::{BoardState, Folder, LoadEnd, Loader, OriginOf, StatusRow};
use std::alloc::Global;
use std::marker::Model;
use version_slot::{End, EnterFault, PlainSlot, PlainToken, Publisher, Seen, Viewer};

/// A slot as its one viewer. What names the slot is its list: to leave the slot is to leave the list.
#[derive(Drop)]
pub(crate) struct PlainView<S: Spawner, F: Folder> {
    slot: PlainSlot<Version<Uncounted>, OriginOf<S, F>>,
}

impl<S: Spawner, F: Folder> End for PlainView<S, F> {
    type V = Version<Uncounted>;

    type Told = PlainToken;

    ghost Slot = { List Contents };

    ghost slot = { λ it. it.slot };

    ghost list = { λ it. it.slot };

    ghost allows = { HasOrigin S.ran F.folder };

    ghost is_of = { λ it. HasEntries it.slot };

    ghost told_list = { λ it. first_entries it.slot };
}

impl<S: Spawner, F: Folder> Viewer for PlainView<S, F> {
    ghost refusals = { λ _. 0 };

    fn enter(&mut self) -> Result<Seen<Version<Uncounted>>, EnterFault> {
        self.slot.enter()
    }

    fn learn(&mut self, told: &mut PlainToken) {
        self.slot.learn(told)
    }
}

/// What loads a dictionary, the list of its versions, and its board. Its programs lie in the folder that F names.
#[derive(Drop)]
pub struct PlainDict<S: Spawner, F: Folder> {
    loader: Loader,
    view: PlainView<S, F>,
    board: BoardState<PlainToken>,
}

impl<S: Spawner, F: Folder> Model for PlainDict<S, F> {
    ghost use Rattle.dict_hub.specs.Plain.{IsPlain, PlainState, plain_state};

    ghost Value = { PlainState };

    ghost view = { λ it. plain_state it.loader it.view.slot it.board };

    ghost invariant = { λ it. IsPlain F.folder it.loader it.view.slot it.board };
}

impl<S: Spawner, F: Folder> PlainDict<S, F> {
    /// A dictionary of which no load has begun: its definition, the folder of its programs, the seed of the run, and
    /// its number in the definitions file, from 0.
    pub fn new(
        alloc: Global,
        definition: Definition,
        folder: &[u8],
        seed: u64,
        number: u32,
    ) -> Result<PlainDict<S, F>, NoMemory>
        requires sound { IsSound definition }
        requires kept { is_keyed_layout definition.layout ≡ false }
        requires folder { folder.now ≡ F.folder }
        ensures { IfOk result (λ made. made ≡ new_plain definition folder.now seed number) }
    {
        let loader = Loader::new(alloc, definition, folder, seed, number)?;
        let board = BoardState::new(alloc)?;
        Ok(PlainDict {
            loader,
            view: PlainView {
                slot: PlainSlot::new(alloc),
            },
            board,
        })
    }
}

impl<S: Spawner, F: Folder> DictAt<S> for PlainDict<S, F> {
    ghost State = { PlainState };

    ghost state = { λ it. it };

    ghost view = { λ state. state.list };

    ghost name = { λ state. state.loader.definition.name };

    ghost allows = { HasOrigin S.ran F.folder };

    ghost entered = { PlainEntered };

    ghost taught = { PlainTaught };

    ghost loaded = { PlainLoaded };

    ghost due = { PlainDue };

    ghost loaded_as = { PlainLoadedAs };

    ghost judged = { PlainJudged };

    ghost refusals = { λ _. 0 };

    fn versions(&self) -> u64 {
        self.view.slot.number()
    }

    fn enter(&mut self) -> Result<Seen<Version<Uncounted>>, EnterFault> {
        self.view.slot.enter()
    }

    fn teach(&mut self) -> StatusRow {
        self.board.teach(&mut self.view)
    }

    fn load(&mut self, alloc: Global, spawner: &mut S, now: u64) -> LoadEnd {
        self.loader
            .load(alloc, spawner, &mut self.view.slot, now, &mut self.board)
    }

    fn load_due(&mut self, alloc: Global, spawner: &mut S, now: u64) -> Option<LoadEnd> {
        self.loader
            .load_due(alloc, spawner, &mut self.view.slot, now, &mut self.board)
    }

    fn is_current(&mut self, definition: &Definition) -> bool {
        self.loader.is_current(definition)
    }

    fn load_as(
        &mut self,
        alloc: Global,
        definition: Definition,
        spawner: &mut S,
        now: u64,
    ) -> LoadEnd {
        self.loader.load_as(
            alloc,
            definition,
            spawner,
            &mut self.view.slot,
            now,
            &mut self.board,
        )
    }
}
