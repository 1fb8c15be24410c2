//! Times `enter` of a slot that threads share. The words are `alone` (one thread) or `beside` (three readers beside a
//! publisher that publishes all the time), how often each reader enters, and a number of rounds. The program prints
//! how often was entered and how often a number fell and, for more than no rounds, of the round with the shortest
//! entering its nanoseconds for all enterings of one reader, how often was published, and the nanoseconds of all
//! publishings and of the longest.
#![tactic(auto)]

use std::alloc::Global;
use std::rt::Clock;
use std::sync::Wait;
use std::sync::atomic::{AtomicU64, Ordering};
use std::thread::{Threads, join};
use std::time::Instant;
use std::{env, io};
use version_slot::{
    Fact, LAST_NUMBER, Publisher, SharedPublisher, SharedSlot, SharedViewer, SlotCopies, Viewer,
};

const READERS: u32 = 3;

/// Each entry may follow each list.
struct Anything;

impl Fact<u64> for Anything {
    ghost allows = { λ _ _. Unit {0} };
}

type NumberViewer = SharedViewer<u64, Anything>;

type NumberPublisher<R> = SharedPublisher<u64, Anything, SlotCopies<u64, Anything, R>>;

/// What one reader met, or several.
#[derive(Clone, Copy)]
struct Entered {
    count: u64,
    falls: u64,
    nanos: u64,
}

/// What a publisher did.
#[derive(Clone, Copy)]
struct Published {
    count: u64,
    nanos: u64,
    longest: u64,
}

const NOTHING_ENTERED: Entered = Entered {
    count: 0,
    falls: 0,
    nanos: 0,
};

const NOTHING_PUBLISHED: Published = Published {
    count: 0,
    nanos: 0,
    longest: 0,
};

impl Entered {
    /// The counts together, and the nanoseconds of both.
    fn and(self, other: Entered) -> Entered {
        Entered {
            count: self.count.wrapping_add(other.count),
            falls: self.falls.wrapping_add(other.falls),
            nanos: self.nanos.wrapping_add(other.nanos),
        }
    }
}

/// The nanoseconds since a start, none where the clock can't be read.
fn nanos_since<R: Clock>(rt: &R, start: &io::Result<Instant>) -> u64 {
    match start {
        Ok(start) => match start.elapsed(rt) {
            Ok(took) => u64::try_from(took.as_nanos()).unwrap_or(0),
            Err(_) => 0,
        },
        Err(_) => 0,
    }
}

/// Enters so often.
fn enter_often<R: Clock>(rt: &R, viewer: &mut NumberViewer, times: u64) -> Entered {
    let start = Instant::now(rt);
    let mut met = NOTHING_ENTERED;
    let mut last = 0;
    for _ in 0..times {
        if let Ok(seen) = viewer.enter() {
            let number = seen.version().copied().unwrap_or(0);
            if number < last {
                met.falls = met.falls.wrapping_add(1);
            }
            met.count = met.count.wrapping_add(1);
            last = number;
        }
    }
    met.nanos = nanos_since(rt, &start);
    met
}

/// The same, and then tells the publisher that this reader is done.
fn enter_until_done<R: Clock>(
    rt: &R,
    viewer: &mut NumberViewer,
    times: u64,
    done: &AtomicU64,
) -> Entered {
    let met = enter_often(rt, viewer, times);
    done.fetch_add(1, Ordering::SeqCst);
    met
}

/// Publishes a number; false where it can't.
fn publish_next<R: Wait + Drop>(publisher: &mut NumberPublisher<R>, alloc: Global) -> bool {
    let number = publisher.number();
    number < LAST_NUMBER && publisher.publish(alloc, number + 1).is_ok()
}

/// Publishes until all readers are done.
fn publish_until_done<R: Clock + Wait, W: Wait + Drop>(
    rt: &R,
    publisher: &mut NumberPublisher<W>,
    alloc: Global,
    done: &AtomicU64,
) -> Published {
    let mut published = NOTHING_PUBLISHED;
    for _ in rt.forever() {
        let start = Instant::now(rt);
        if done.load(Ordering::SeqCst) >= u64::from(READERS) || !publish_next(publisher, alloc) {
            break;
        }
        let nanos = nanos_since(rt, &start);
        published.count = published.count.wrapping_add(1);
        published.nanos = published.nanos.wrapping_add(nanos);
        published.longest = published.longest.max(nanos);
    }
    published
}

/// One thread enters a slot with one entry.
fn run_alone<R: Clock + Wait>(rt: &R, alloc: Global, times: u64) -> Option<(Entered, Published)> {
    let (mut publisher, mut viewers) = SharedSlot::<u64, Anything>::new(rt, alloc, 1).ok()?;
    let mut viewer = viewers.pop_front()?;
    if !publish_next(&mut publisher, alloc) {
        return None;
    }
    Some((enter_often(rt, &mut viewer, times), NOTHING_PUBLISHED))
}

/// Three readers enter a slot while it is published to; the nanoseconds are those of one reader on average.
fn run_beside<R: Clock + Threads + Wait + Sync>(
    rt: &R,
    alloc: Global,
    times: u64,
) -> Option<(Entered, Published)> {
    let (mut publisher, mut viewers) = SharedSlot::<u64, Anything>::new(rt, alloc, READERS).ok()?;
    let mut one = viewers.pop_front()?;
    let mut two = viewers.pop_front()?;
    let mut three = viewers.pop_front()?;
    let done = AtomicU64::new(0);
    let (first, (second, (third, published))) = join(
        rt,
        || enter_until_done(rt, &mut one, times, &done),
        || join(
            rt,
            || enter_until_done(rt, &mut two, times, &done),
            || join(
                rt,
                || enter_until_done(rt, &mut three, times, &done),
                || publish_until_done(rt, &mut publisher, alloc, &done),
            ),
        ),
    );
    let mut met = first.and(second).and(third);
    met.nanos /= u64::from(READERS);
    Some((met, published))
}

fn run<R: Clock + Threads + Wait + Sync>(
    rt: &R,
    alloc: Global,
    beside: bool,
    times: u64,
) -> (Entered, Published) {
    let met = if beside {
        run_beside(rt, alloc, times)
    } else {
        run_alone(rt, alloc, times)
    };
    met.unwrap_or((NOTHING_ENTERED, NOTHING_PUBLISHED))
}

fn main(rt: HostRuntime) -> io::Result<()> {
    let alloc = rt.alloc();
    let mut words = env::args(&rt)?;
    let _program = words.next();
    let beside = match words.next() {
        Some(word) => word.as_str() == "beside",
        None => false,
    };
    let times: u64 = match words.next() {
        Some(number) => number.as_str().parse().unwrap_or(0),
        None => 0,
    };
    let rounds: u32 = match words.next() {
        Some(number) => number.as_str().parse().unwrap_or(0),
        None => 0,
    };
    let (met, _published) = run(&rt, alloc, beside, times);
    println!(rt; "entered {} fell {}", met.count, met.falls)?;
    let mut best = u64::MAX;
    let mut beside_best = NOTHING_PUBLISHED;
    for _ in 0..rounds {
        let (met, published) = run(&rt, alloc, beside, times);
        if met.nanos < best {
            best = met.nanos;
            beside_best = published;
        }
    }
    if rounds > 0 {
        println!(rt;
            "{best} {} {} {}",
            beside_best.count, beside_best.nanos, beside_best.longest
        )?;
    }
    Ok(())
}
