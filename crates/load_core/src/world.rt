// Dictionaries and callers at once, and what a list of events makes of them.
ghost use Rattle.std.specs.Prelude.{◌≡◌, [], ◌∷◌, ◌++◌, ◌≤◌, length, map, replicate, MatchOption, IfOk, OnOk, All};
ghost use Rattle.std.specs.Prelude.{slice_get, slice_set};
ghost use Rattle.std.specs.List.{range_with_len};
ghost use Rattle.load_core.specs.WorldSteps.{Finishes, Run, WorldStep, counted, definition_for, dict_after};
ghost use Rattle.load_core.specs.WorldSteps.{last_number, loaded, knowing, event_piece};
ghost use Rattle.load_core.specs.WorldSteps.{empty_dict, empty_caller, empty_world};
ghost use Rattle.load_core.specs.steps.WorldTurns.{DictTurn, InformsAt, IsShort, KnowsAt, published_as, TurnsAt};

use crate::caller::{CallerCore, CallerEvent};
use crate::dictionary::{DictCore, DictEffect, DictEvent, Ending, Phase};
use crate::judge::{Judge, RowJudge};
use crate::verdict::Asked;
use dict_value::{Bytes, Cause, Exit, ListOf, NoMemory};
use std::alloc::Global;
use std::mem;

#[cfg(test)]
mod tests;

/// How the child of a load ended.
#[derive(Clone, Copy, Debug, PartialEq, Eq)]
pub enum Ended {
    /// Its whole output was read, and it ended so.
    Whole(Exit),
    /// Reading or waiting failed.
    Broken,
    TimedOut,
    /// More than this many bytes were read.
    TooLong(u32),
    NotStarted,
    NoMemory,
}

/// What happens in a world. The first number is the dictionary's place, but in the last two events
/// it is the caller's, and the second is the dictionary's.
#[derive(Debug, Drop)]
pub enum WorldEvent {
    /// A load with the dictionary's current definition begins.
    Start(u32),
    /// A load with the definition of the second number begins.
    StartWith(u32, u32),
    Piece(u32, Bytes),
    Finish(u32, Ended),
    Publish(u32),
    Post(u32),
    /// The caller is shown the dictionary's last entry.
    Enter(u32, u32),
    /// The caller is told the number that the dictionary posted.
    Learn(u32, u32),
}

/// A published version.
#[derive(Debug, Drop)]
pub struct WorldEntry {
    /// Which version it is, counted from 1.
    pub number: u64,
    /// The number of its load's definition.
    pub definition: u32,
    /// The bytes of its load.
    pub bytes: Bytes,
    /// Which load gave it, counted from 1.
    pub load: u64,
}

/// A dictionary with all that it has published.
#[derive(Debug, Drop)]
pub struct WorldDict {
    /// The number of its current definition: that of the last entry, or else its own place.
    pub definition: u32,
    /// The number of the definition of the load that began last, or else its own place.
    pub loading: u32,
    /// What its load has taken.
    pub bytes: Bytes,
    pub entries: ListOf<WorldEntry>,
    /// The number that was posted last.
    pub posted: u64,
    pub core: DictCore,
}

/// What a caller knows of one dictionary.
#[derive(Debug, Drop)]
pub struct WorldCaller {
    pub core: CallerCore,
    /// The numbers that it was shown, in order.
    pub answers: ListOf<u64>,
}

/// Dictionaries by place, and for each caller what it knows of each dictionary.
#[derive(Debug, Drop)]
pub struct World {
    /// How many definitions there are; they are numbered from 0.
    pub definitions: u32,
    pub dictionaries: ListOf<WorldDict>,
    pub callers: ListOf<ListOf<WorldCaller>>,
}

/// The greatest number of bytes that a load takes.
const MOST_BYTES: usize = 4_294_967_295;

/// The bytes that an event brings.
fn piece_of(event: &WorldEvent) -> &[u8]
    ensures { result.now ≡ event_piece event.now }
{
    match event {
        WorldEvent::Piece(_, piece) => piece.as_slice(),
        _ => &[],
    }
}

impl WorldDict {
    /// The dictionary at a place that has published nothing.
    fn empty(alloc: Global, place: u32) -> WorldDict
        ensures { result ≡ empty_dict place }
    {
        WorldDict {
            definition: place,
            loading: place,
            bytes: Bytes::new(alloc),
            entries: ListOf::new(alloc),
            posted: 0,
            core: DictCore::new(),
        }
    }

    /// The definition of the load that an event begins.
    fn definition_for(&self, event: &WorldEvent) -> u32
        ensures { result ≡ definition_for self.now event.now }
    {
        match event {
            WorldEvent::StartWith(_, definition) => *definition,
            _ => self.definition,
        }
    }

    /// How many bytes a piece counts; one that would bring them above the bound counts none.
    fn counted(&self, piece: &[u8]) -> u32
        ensures { result ≡ counted self.now.bytes piece.now }
    {
        let taken = self.bytes.len();
        if taken <= MOST_BYTES && piece.len() <= MOST_BYTES - taken {
            piece.len() as u32
        } else {
            0
        }
    }

    /// How its load finishes, by how the child ended.
    fn ending<J: Asked>(&self, alloc: Global, ended: Ended) -> Result<Ending, NoMemory>
        requires { IsShort self.now }
        ensures { IfOk result (λ ending. Finishes J.judges (loaded self.now) ended ending) }
    {
        let cause = match ended {
            Ended::NotStarted => Cause::Start,
            Ended::Broken => Cause::Read,
            Ended::TimedOut => Cause::TimedOut,
            Ended::TooLong(limit) => Cause::Longer(limit),
            Ended::Whole(Exit::Code(0)) => return J::ask(
                alloc,
                self.loading,
                self.entries.as_slice(),
                self.bytes.as_slice(),
            ),
            Ended::Whole(Exit::Code(status)) => Cause::Status(status),
            Ended::Whole(Exit::Killed) => Cause::Killed,
            Ended::NoMemory => Cause::NoMemory,
        };
        Ok(Ending::Failed(cause))
    }

    /// Appends the entry that its load becomes, whose definition is the current one from then on.
    fn publish(&mut self, alloc: Global, number: u64, load: u64) -> Result<(), NoMemory>
        ensures { OnOk result (self.new ≡ published_as self.old number load) }
    {
        let bytes = Bytes::copy_of(alloc, self.bytes.as_slice())?;
        self.entries.push(WorldEntry {
            number,
            definition: self.loading,
            bytes,
            load,
        })?;
        self.definition = self.loading;
        Ok(())
    }

    /// An event, which is this one of its core, with what it keeps by the answer.
    fn take(&mut self, alloc: Global, event: &WorldEvent, taken: DictEvent) -> Result<(), NoMemory>
        ensures { OnOk result (self.new ≡ dict_after self.old event.now taken) }
    {
        let load = self.core.loads;
        match self.core.step(taken) {
            DictEffect::Begun(_) => {
                self.loading = self.definition_for(event);
                self.bytes.clear();
            }
            DictEffect::Taken => self.bytes.extend(piece_of(event))?,
            DictEffect::Published(number) => self.publish(alloc, number, load)?,
            DictEffect::Posted => self.posted = self.entries.len() as u64,
            DictEffect::Ready | DictEffect::Failing | DictEffect::Refused => {}
        }
        Ok(())
    }

    /// One event of the world; those of callers leave it as it is.
    fn happen<J: Asked>(&mut self, alloc: Global, event: &WorldEvent) -> Result<(), NoMemory>
        requires { IsShort self.old }
        ensures { OnOk result (DictTurn J.judges self.old event.now self.new) }
    {
        match event {
            WorldEvent::Start(_) | WorldEvent::StartWith(_, _) => {
                self.take(alloc, event, DictEvent::Start)
            }
            WorldEvent::Piece(_, piece) => {
                let count = self.counted(piece.as_slice());
                self.take(alloc, event, DictEvent::Piece(count))
            }
            WorldEvent::Finish(_, ended) => match self.core.phase {
                Phase::Reading | Phase::Ready => {
                    let ending = self.ending::<J>(alloc, *ended)?;
                    self.take(alloc, event, DictEvent::Finish(ending))
                }
                // The core refuses each end of a load that isn't there.
                Phase::Idle | Phase::ToPost => Ok(()),
            },
            WorldEvent::Publish(_) => self.take(alloc, event, DictEvent::Publish),
            WorldEvent::Post(_) => self.take(alloc, event, DictEvent::Post),
            WorldEvent::Enter(_, _) | WorldEvent::Learn(_, _) => Ok(()),
        }
    }

    /// The number of its last entry, or 0.
    fn last_number(&self) -> u64
        ensures { result ≡ last_number self.now.entries }
    {
        match self.entries.as_slice() {
            [] => 0,
            [.., entry] => entry.number,
        }
    }
}

impl WorldCaller {
    /// A caller that knows of no version.
    fn empty(alloc: Global) -> WorldCaller
        ensures { result ≡ empty_caller }
    {
        WorldCaller {
            core: CallerCore::new(),
            answers: ListOf::new(alloc),
        }
    }

    /// A number comes to it, which is an answer where it was shown that version.
    fn know(&mut self, event: CallerEvent) -> Result<(), NoMemory>
        ensures { OnOk result (self.new ≡ knowing self.old event) }
    {
        let _ = self.core.step(event);
        match event {
            CallerEvent::Entered(number) => self.answers.push(number),
            CallerEvent::Told(_) => Ok(()),
        }
    }
}

/// What a caller knows once a number of the dictionary at a place came to it.
fn informed(
    known: ListOf<WorldCaller>,
    d: u32,
    event: CallerEvent,
) -> Result<ListOf<WorldCaller>, NoMemory>
    ensures { IfOk result (KnowsAt known d event) }
{
    let mut known = known.into_vec();
    let place = d as usize;
    if place < known.len() {
        known[place].know(event)?;
    }
    Ok(ListOf::from_vec(known))
}

/// A caller that knows of no version of any dictionary.
fn unknowing(alloc: Global, dictionaries: u32) -> Result<ListOf<WorldCaller>, NoMemory>
    ensures { IfOk result (λ known. known ≡ replicate dictionaries empty_caller) }
{
    let mut known = ListOf::new(alloc);
    for _number in 0..dictionaries {
        known.push(WorldCaller::empty(alloc))?;
    }
    Ok(known)
}

/// Dictionaries that have published nothing, by place.
fn unpublished(alloc: Global, dictionaries: u32) -> Result<ListOf<WorldDict>, NoMemory>
    ensures { IfOk result (λ all. all ≡ map empty_dict (range_with_len 0 dictionaries)) }
{
    let mut all = ListOf::new(alloc);
    for number in 0..dictionaries {
        all.push(WorldDict::empty(alloc, number))?;
    }
    Ok(all)
}

impl World {
    ghost use Rattle.load_core.specs.declared.world.WorldDict.{WorldDict};

    /// Nothing has happened.
    fn empty(
        alloc: Global,
        dictionaries: u32,
        definitions: u32,
        callers: u32,
    ) -> Result<World, NoMemory>
        ensures { IfOk result (λ world. world ≡ empty_world dictionaries definitions callers) }
    {
        let mut all = ListOf::new(alloc);
        for _caller in 0..callers {
            all.push(unknowing(alloc, dictionaries)?)?;
        }
        Ok(World {
            definitions,
            dictionaries: unpublished(alloc, dictionaries)?,
            callers: all,
        })
    }

    /// An event of the dictionary at a place; where there is none, nothing changes.
    fn in_dict<J: Asked>(self, alloc: Global, d: u32, event: &WorldEvent) -> Result<World, NoMemory>
        requires { All IsShort self.dictionaries }
        ensures { IfOk result (TurnsAt J.judges self d event.now) }
    {
        let World {
            definitions,
            dictionaries,
            callers,
        } = self;
        let mut dictionaries = dictionaries.into_vec();
        let place = d as usize;
        if place < dictionaries.len() {
            dictionaries[place].happen::<J>(alloc, event)?;
        }
        Ok(World {
            definitions,
            dictionaries: ListOf::from_vec(dictionaries),
            callers,
        })
    }

    /// A number of the dictionary at a place comes to a caller; where there is none, nothing changes.
    fn inform(self, alloc: Global, c: u32, d: u32, event: CallerEvent) -> Result<World, NoMemory>
        ensures { IfOk result (InformsAt self c d event) }
    {
        let World {
            definitions,
            dictionaries,
            callers,
        } = self;
        let mut callers = callers.into_vec();
        let place = c as usize;
        if place < callers.len() {
            let known = mem::replace(&mut callers[place], ListOf::new(alloc));
            callers[place] = informed(known, d, event)?;
        }
        Ok(World {
            definitions,
            dictionaries,
            callers: ListOf::from_vec(callers),
        })
    }

    /// One event.
    fn after<J: Asked>(self, alloc: Global, event: &WorldEvent) -> Result<World, NoMemory>
        requires { All IsShort self.dictionaries }
        ensures { IfOk result (WorldStep J.judges self event.now) }
    {
        match event {
            WorldEvent::StartWith(_, definition) if *definition >= self.definitions => Ok(self),
            WorldEvent::Start(d)
            | WorldEvent::StartWith(d, _)
            | WorldEvent::Piece(d, _)
            | WorldEvent::Finish(d, _)
            | WorldEvent::Publish(d)
            | WorldEvent::Post(d) => self.in_dict::<J>(alloc, *d, event),
            WorldEvent::Enter(c, d) => match self.dictionaries.as_slice().get(*d as usize) {
                None => Ok(self),
                Some(x) => {
                    let number = x.last_number();
                    self.inform(alloc, *c, *d, CallerEvent::Entered(number))
                }
            },
            WorldEvent::Learn(c, d) => match self.dictionaries.as_slice().get(*d as usize) {
                None => Ok(self),
                Some(x) => {
                    let number = x.posted;
                    self.inform(alloc, *c, *d, CallerEvent::Told(number))
                }
            },
        }
    }

    /// The world that these events lead to from the empty one, by the judge's verdicts.
    fn run_by<J: Asked>(
        alloc: Global,
        dictionaries: u32,
        definitions: u32,
        callers: u32,
        events: &[WorldEvent],
    ) -> Result<World, NoMemory>
        ensures { IfOk result (Run J.judges (empty_world dictionaries definitions callers) events.now) }
    {
        let mut world = World::empty(alloc, dictionaries, definitions, callers)?;
        for event in events {
            world = world.after::<J>(alloc, event)?;
        }
        Ok(world)
    }

    /// The world that these events lead to from the empty one, where each definition takes rows of one
    /// key of type UInt64 and one String, as TabSeparated. Each dictionary has at first the definition of
    /// its own place.
    pub fn run(
        alloc: Global,
        dictionaries: u32,
        definitions: u32,
        callers: u32,
        events: &[WorldEvent],
    ) -> Result<World, NoMemory>
        requires { dictionaries ≤ definitions }
        ensures { let first = empty_world dictionaries definitions callers in
            IfOk result (Run ⟦<RowJudge as Judge>⟧.judges first events.now) }
    {
        World::run_by::<RowJudge>(alloc, dictionaries, definitions, callers, events)
    }
}
