// The least version that a caller may be shown, for one dictionary.

/// What a caller comes to know of a dictionary's version.
#[derive(Clone, Copy, Debug, PartialEq, Eq)]
pub enum CallerEvent {
    /// It was shown the version of this number.
    Entered(u64),
    /// It was told that this number was published.
    Told(u64),
}

/// How a number stands to the floor.
#[derive(Clone, Copy, Debug, PartialEq, Eq)]
pub enum CallerEffect {
    /// It is at or above the floor.
    Kept,
    /// It is older than this floor.
    Older(u64),
}

/// The greatest number that a caller knows of.
#[derive(Clone, Copy, Debug, PartialEq, Eq)]
pub struct CallerCore {
    pub floor: u64,
}

impl CallerCore {
    ghost use Rattle.std.specs.Prelude.{◌≡◌};
    ghost use Rattle.load_core.specs.CallerSteps.{raised, effect_of};

    /// A caller that knows of no version.
    pub fn new() -> CallerCore
        ensures { result ≡ record { floor = 0 } }
    {
        CallerCore { floor: 0 }
    }

    /// Raises the floor to the number where that is greater. It takes no memory.
    pub fn step(&mut self, event: CallerEvent) -> CallerEffect
        ensures core { self.new ≡ raised self.old event }
        ensures effect { result ≡ effect_of self.old event }
    {
        let (CallerEvent::Entered(number) | CallerEvent::Told(number)) = event;
        if number < self.floor {
            return CallerEffect::Older(self.floor);
        }
        self.floor = number;
        CallerEffect::Kept
    }
}
