// The loads of one dictionary, as numbers alone.
use dict_value::Cause;

#[cfg(test)]
mod tests;

/// Loads beyond this many are refused.
pub const MOST_LOADS: u64 = 9223372036854775807;

/// What happens to a load.
#[derive(Clone, Copy, Debug, PartialEq, Eq)]
pub enum DictEvent {
    Start,
    /// So many bytes were read.
    Piece(u32),
    Finish(Ending),
    Publish,
    Post,
}

/// How a load finished.
#[derive(Clone, Copy, Debug, PartialEq, Eq)]
pub enum Ending {
    /// It has rows that can be published.
    Rows,
    Failed(Cause),
}

/// How a core answers an event.
#[derive(Clone, Copy, Debug, PartialEq, Eq)]
pub enum DictEffect {
    /// The load of this number began, counted from 1.
    Begun(u64),
    Taken,
    Ready,
    Failing,
    /// The version of this number was published, counted from 1.
    Published(u64),
    Posted,
    /// Nothing was changed.
    Refused,
}

/// Where a dictionary stands in its load.
#[derive(Clone, Copy, Debug, PartialEq, Eq)]
pub enum Phase {
    /// No load runs.
    Idle,
    Reading,
    /// The rows can be published.
    Ready,
    /// The load has ended, and its end isn't told yet.
    ToPost,
}

/// Why the last load that ended failed.
#[derive(Clone, Copy, Debug, PartialEq, Eq)]
pub enum LastCause {
    /// It didn't fail, or no load has ended.
    None,
    Of(Cause),
}

/// What a dictionary is told to be in: whether it has a version, whether its last load failed, and whether
/// one runs.
#[derive(Clone, Copy, Debug, PartialEq, Eq)]
pub enum State {
    NotLoaded,
    Loaded,
    /// It has no version, and a load failed.
    Failed,
    /// The first load runs.
    Loading,
    LoadedAndReloading,
    FailedAndReloading,
}

/// The counts, the phase and the last cause of one dictionary.
#[derive(Clone, Copy, Debug, PartialEq, Eq)]
pub struct DictCore {
    pub published: u64,
    pub loads: u64,
    pub oks: u64,
    pub fails: u64,
    pub phase: Phase,
    pub cause: LastCause,
}

impl DictCore {
    ghost use Rattle.std.specs.Prelude.{◌≡◌};
    ghost use Rattle.load_core.specs.DictSteps.{empty_core, stepped};

    /// A dictionary of which no load has begun.
    pub fn new() -> DictCore
        ensures { result ≡ empty_core }
    {
        DictCore {
            published: 0,
            loads: 0,
            oks: 0,
            fails: 0,
            phase: Phase::Idle,
            cause: LastCause::None,
        }
    }

    /// One event of the dictionary. It takes no memory.
    pub fn step(&mut self, event: DictEvent) -> DictEffect
        ensures core { self.new ≡ (stepped self.old event).core }
        ensures effect { result ≡ (stepped self.old event).effect }
    {
        match (self.phase, event) {
            (Phase::Idle, DictEvent::Start) if self.loads < MOST_LOADS => {
                self.loads += 1;
                self.phase = Phase::Reading;
                DictEffect::Begun(self.loads)
            }
            (Phase::Reading, DictEvent::Piece(count)) if count > 0 => DictEffect::Taken,
            (Phase::Reading, DictEvent::Finish(Ending::Rows)) => {
                self.phase = Phase::Ready;
                DictEffect::Ready
            }
            (Phase::Reading | Phase::Ready, DictEvent::Finish(Ending::Failed(cause))) => {
                self.fails = self.fails.saturating_add(1);
                self.phase = Phase::ToPost;
                self.cause = LastCause::Of(cause);
                DictEffect::Failing
            }
            (Phase::Ready, DictEvent::Publish) => {
                self.published = self.published.saturating_add(1);
                self.oks = self.oks.saturating_add(1);
                self.phase = Phase::ToPost;
                self.cause = LastCause::None;
                DictEffect::Published(self.published)
            }
            (Phase::ToPost, DictEvent::Post) => {
                self.phase = Phase::Idle;
                DictEffect::Posted
            }
            _ => DictEffect::Refused,
        }
    }
}
