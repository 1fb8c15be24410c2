// Viewers beside a publisher, in threads, and what one thread sees of its own publishings.
ghost use Rattle.std.specs.Prelude.{◌≡◌, ◌<◌, length, IfSome};

use super::*;
use crate::ends::{LAST_NUMBER, Publisher, Token, Viewer};
use crate::seen::EnterFault;
use crate::tests::Anything;
use std::test::Fail;
use std::thread::{Threads, join};

const ENTRIES: u64 = 100;

const ENTERINGS: u32 = 1000;

const ROUNDS: u32 = 50;

/// Each entry is its number.
struct OwnNumber;

impl Fact<u64> for OwnNumber {
    ghost use Rattle.std.specs.Prelude.{◌≡◌, ◌+◌, length};

    ghost allows = { λ before entry. entry ≡ length before + 1 };
}

type NumberPublisher<R> = SharedPublisher<u64, OwnNumber, SlotCopies<u64, OwnNumber, R>>;

type NumberViewer = SharedViewer<u64, OwnNumber>;

type NumberToken = SharedToken<u64, OwnNumber>;

/// Publishes so many entries, and answers the last token.
fn publish_all<R: Wait + Drop>(
    publisher: NumberPublisher<R>,
    alloc: Global,
) -> Option<(NumberPublisher<R>, NumberToken)>
    ensures publisher { IfSome result (λ r. r.0.slot ≡ publisher.slot) }
    ensures told { IfSome result (λ r. r.1.slot ≡ publisher.slot) }
{
    let mut publisher = publisher;
    let mut newest = publisher.tell();
    for _ in 0..ENTRIES {
        let number = publisher.number();
        if number >= LAST_NUMBER {
            return None;
        }
        newest = publisher.publish(alloc, number + 1).ok()?;
    }
    Some((publisher, newest))
}

/// Enters so often; none where a number fell, or an entry wasn't its number.
fn enter_often(viewer: NumberViewer) -> Option<NumberViewer>
    ensures { IfSome result (λ viewer_after. viewer_after.slot ≡ viewer.slot) }
{
    let mut viewer = viewer;
    let mut least = 0;
    for _ in 0..ENTERINGS {
        let seen = viewer.enter().ok()?;
        let number = seen.number();
        if number < least || seen.version().copied().unwrap_or(0) != number {
            return None;
        }
        least = number;
    }
    Some(viewer)
}

/// The number that is entered next.
fn enter_number(viewer: &mut NumberViewer) -> Result<u64, EnterFault> {
    Ok(viewer.enter()?.number())
}

/// Two viewers enter while a publisher publishes. Then each has learnt the last token, and a third viewer none: what do
/// they enter next, and what do the two once the publisher is gone?
fn enter_beside<R: Threads + Wait>(rt: &R, alloc: Global) -> Option<[Result<u64, EnterFault>; 5]> {
    let Ok((publisher, mut viewers)) = SharedSlot::<u64, OwnNumber>::new(rt, alloc, 3) else {
        return None;
    };
    let (Some(one), Some(two)) = (viewers.pop_front(), viewers.pop_front()) else {
        return None;
    };
    let Some(mut untold) = viewers.pop_front() else {
        return None;
    };
    let (one, (two, published)) = join(
        rt,
        move || enter_often(one),
        || join(
            rt,
            move || enter_often(two),
            || publish_all(publisher, alloc),
        ),
    );
    let (Some(mut one), Some(mut two)) = (one, two) else {
        return None;
    };
    let Some((publisher, mut newest)) = published else {
        return None;
    };
    one.learn(&mut newest);
    two.learn(&mut newest);
    let before = (enter_number(&mut one), enter_number(&mut two));
    let seen = enter_number(&mut untold);
    drop(publisher);
    Some([
        before.0,
        before.1,
        seen,
        enter_number(&mut one),
        enter_number(&mut two),
    ])
}

#[test]
fn numbers_never_fall(rt: HostRuntime) -> Result<(), Fail> {
    let alloc = rt.alloc();
    for round in 0..ROUNDS {
        let Some(entered) = enter_beside(&rt, alloc) else {
            panic!(rt; "round {round} saw a number fall, or another entry");
        };
        assert_eq!(rt;
            entered,
            [
                Ok(ENTRIES),
                Ok(ENTRIES),
                Ok(ENTRIES),
                Err(EnterFault::Shut),
                Err(EnterFault::Shut)
            ]
        );
    }
    Ok(())
}

/// Publishes a value, lets the viewer learn the token, and enters, by the traits alone: the token's number, and what is
/// seen.
fn hand_on<P: Publisher<V = u64>, W: Viewer<V = u64, Told = P::Told>>(
    publisher: &mut P,
    viewer: &mut W,
    alloc: Global,
    value: u64,
) -> Option<(u64, u64, Option<u64>)>
    requires room { length (P.list publisher.old) < LAST_NUMBER }
    requires fact { P.allows (P.list publisher.old) value }
    requires one_slot { (p : P) (told : P.Told) → P.slot p ≡ P.slot publisher.old → P.is_of p told
        → W.is_of viewer.old told }
    ensures publisher { P.slot publisher.new ≡ P.slot publisher.old }
    ensures viewer { W.slot viewer.new ≡ W.slot viewer.old }
{
    let Ok(mut told) = publisher.publish(alloc, value) else {
        return None;
    };
    viewer.learn(&mut told);
    let Ok(seen) = viewer.enter() else {
        return None;
    };
    Some((told.number(), seen.number(), seen.version().copied()))
}

/// Values, and the numbers under which they are published.
static VALUES: [(u64, u64); 5] = [(70, 1), (20, 2), (90, 3), (90, 4), (10, 5)];

#[test]
fn what_is_told_is_seen(rt: HostRuntime) -> Result<(), Fail> {
    let alloc = rt.alloc();
    let Ok((mut publisher, mut viewers)) = SharedSlot::<u64, Anything>::new(&rt, alloc, 1) else {
        panic!(rt; "no slot is made");
    };
    let Some(mut viewer) = viewers.pop_front() else {
        panic!(rt; "no viewer is made");
    };
    for (value, number) in VALUES {
        assert!(rt; publisher.number() < LAST_NUMBER);
        let seen = hand_on(&mut publisher, &mut viewer, alloc, value);
        assert_eq!(rt; seen, Some((number, number, Some(value))));
    }
    Ok(())
}
