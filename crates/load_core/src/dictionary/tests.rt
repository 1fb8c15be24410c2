// A core through each pair of a phase and an event.
use super::*;

#[test]
fn each_pair_of_phase_and_event(rt: HostRuntime) {
    let failed = DictEvent::Finish(Ending::Failed(Cause::Read));
    let rows = DictEvent::Finish(Ending::Rows);
    let table = [
        (DictEvent::Piece(1), DictEffect::Refused),
        (rows, DictEffect::Refused),
        (failed, DictEffect::Refused),
        (DictEvent::Publish, DictEffect::Refused),
        (DictEvent::Post, DictEffect::Refused),
        (DictEvent::Start, DictEffect::Begun(1)),
        (DictEvent::Start, DictEffect::Refused),
        (DictEvent::Piece(0), DictEffect::Refused),
        (DictEvent::Publish, DictEffect::Refused),
        (DictEvent::Post, DictEffect::Refused),
        (DictEvent::Piece(4), DictEffect::Taken),
        (rows, DictEffect::Ready),
        (DictEvent::Start, DictEffect::Refused),
        (DictEvent::Piece(1), DictEffect::Refused),
        (rows, DictEffect::Refused),
        (DictEvent::Post, DictEffect::Refused),
        (DictEvent::Publish, DictEffect::Published(1)),
        (DictEvent::Start, DictEffect::Refused),
        (DictEvent::Piece(1), DictEffect::Refused),
        (rows, DictEffect::Refused),
        (failed, DictEffect::Refused),
        (DictEvent::Publish, DictEffect::Refused),
        (DictEvent::Post, DictEffect::Posted),
        (DictEvent::Start, DictEffect::Begun(2)),
        (rows, DictEffect::Ready),
        (failed, DictEffect::Failing),
        (DictEvent::Post, DictEffect::Posted),
    ];
    let mut core = DictCore::new();
    for (event, effect) in table {
        let before = core;
        assert_eq!(rt; core.step(event), effect, "at {event:?} in {before:?}");
        if effect == DictEffect::Refused {
            assert_eq!(rt; core, before);
        }
    }
    let after = DictCore {
        published: 1,
        loads: 2,
        oks: 1,
        fails: 1,
        phase: Phase::Idle,
        cause: LastCause::Of(Cause::Read),
    };
    assert_eq!(rt; core, after);
    core.loads = MOST_LOADS;
    assert_eq!(rt; core.step(DictEvent::Start), DictEffect::Refused);
}
