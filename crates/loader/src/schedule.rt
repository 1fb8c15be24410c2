// When a dictionary is loaded again.
ghost use Rattle.std.specs.Prelude.{◌≡◌, ◌≤◌, ◌^◌, ◌*◌, ◌+◌, ◌<◌, ◌↔◌, IsTrue, min};
ghost use Rattle.dict_io.specs.declared.outside.TheConstants.{LAST_MOMENT};
ghost use Rattle.loader.specs.Timing.{IsDue, after_failure, after_ok, drawn_life, never_loaded, stays, wait_after};
ghost use Rattle.loader.specs.Timing.{with_lifetime};

use dict_schema::Lifetime;
use rand_core::utils::NextWord;
use rand_pcg::Lcg64Xsh32;
use std::marker::Model;

/// How many failures in a row count.
const COUNTED_FAILURES: u32 = 7;

/// The shortest and the longest wait after a failure, in seconds.
const SHORTEST_WAIT: u64 = 5;

const LONGEST_WAIT: u64 = 600;

/// When the next load of a dictionary is due.
#[derive(Drop)]
pub struct Schedule {
    lifetime: Lifetime,
    words: Lcg64Xsh32,
    deadline: Option<u64>,
    failures: u32,
}

impl Model for Schedule {
    ghost use Rattle.std.specs.Prelude.{◌≤◌};
    ghost use Rattle.loader.specs.Timing.{Timing};

    ghost Value = { Timing };

    ghost view = { λ it. record {
      lifetime = it.lifetime;
      words = it.words;
      deadline = it.deadline;
      failures = it.failures;
    } };

    ghost invariant = { λ it. (it.lifetime.min ≤ it.lifetime.max) × (it.failures ≤ 7) };
}

/// The wait after so many failures in a row, in seconds.
fn wait_after(failures: u32) -> u64
    requires { failures ≤ 7 }
    ensures value { result ≡ wait_after failures }
    ensures bound { result ≤ 600 }
{
    (SHORTEST_WAIT << failures).min(LONGEST_WAIT)
}

impl Schedule {
    /// The schedule of an item that was never loaded: its lifetime, the seed of the run, and its number in the
    /// definitions file, from 0. Nothing is due.
    pub fn new(lifetime: Lifetime, seed: u64, number: u32) -> Schedule
        requires { lifetime.min ≤ lifetime.max }
        ensures { result ≡ never_loaded lifetime seed number }
    {
        Schedule {
            lifetime,
            words: Lcg64Xsh32::new(seed, u64::from(number)),
            deadline: None,
            failures: 0,
        }
    }

    /// Whether a load is due at a moment.
    pub fn due(&self, now: u64) -> bool
        ensures { IsTrue result ↔ IsDue self.now now }
    {
        match self.deadline {
            Some(deadline) => now >= deadline,
            None => false,
        }
    }

    /// Takes another lifetime, and leaves all else.
    pub fn set(&mut self, lifetime: Lifetime)
        requires { lifetime.min ≤ lifetime.max }
        ensures { self.new ≡ with_lifetime self.old lifetime }
    {
        self.lifetime = lifetime;
    }

    /// Counts a load that was published at a moment. One word of the item's stream picks the next deadline, unless
    /// MIN and MAX are 0: then there is none, and no word is drawn.
    pub fn after_ok(&mut self, now: u64)
        requires { now ≤ LAST_MOMENT }
        ensures { self.new ≡ after_ok self.old now }
    {
        self.failures = 0;
        if self.lifetime.min == 0 && self.lifetime.max == 0 {
            self.deadline = None;
            return;
        }
        let lives = u64::from(self.lifetime.max - self.lifetime.min) + 1;
        let life = u64::from(self.words.next_word()) % lives;
        self.deadline = Some(now + u64::from(self.lifetime.min) + life);
    }

    /// Counts a load that failed at a moment: the next one is due after 5 seconds, and after twice as many for each
    /// failure in a row before this one, at most 600.
    pub fn after_failure(&mut self, now: u64)
        requires { now ≤ LAST_MOMENT }
        ensures { self.new ≡ after_failure self.old now }
    {
        self.deadline = Some(now + wait_after(self.failures));
        self.failures = (self.failures + 1).min(COUNTED_FAILURES);
    }
}
