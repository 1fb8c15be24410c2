use super::*;
use std::test::Fail;

/// Each entry may follow each list.
pub(crate) struct Anything;

impl Fact<u64> for Anything {
    ghost allows = { λ _ _. Unit {0} };
}

#[derive(Clone, Copy)]
enum Step {
    /// Publishes the value, and learns the token, which has this number.
    Publish(u64, u64),
    /// Sees this number and this value.
    Enter(u64, Option<u64>),
}

#[test]
fn each_entering_sees_the_newest(rt: HostRuntime) -> Result<(), Fail> {
    let alloc = rt.alloc();
    let mut slot: PlainSlot<u64, Anything> = PlainSlot::new(alloc);
    let steps = [
        Step::Enter(0, None),
        Step::Publish(70, 1),
        Step::Enter(1, Some(70)),
        Step::Enter(1, Some(70)),
        Step::Publish(20, 2),
        Step::Publish(90, 3),
        Step::Enter(3, Some(90)),
        Step::Publish(90, 4),
        Step::Publish(10, 5),
        Step::Enter(5, Some(10)),
    ];
    for step in steps {
        match step {
            Step::Publish(value, number) => {
                assert!(rt; slot.number() < LAST_NUMBER);
                let Ok(mut told) = slot.publish(alloc, value) else {
                    panic!(rt; "{value} isn't published");
                };
                slot.learn(&mut told);
                assert_eq!(rt; (told.number(), slot.number()), (number, number));
            }
            Step::Enter(number, value) => {
                let Ok(seen) = slot.enter() else {
                    panic!(rt; "number {number} isn't entered");
                };
                assert_eq!(rt; (seen.number(), seen.version().copied()), (number, value));
            }
        }
    }
    Ok(())
}
