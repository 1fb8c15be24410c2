// Worlds on worked rows, and the laws over them.
use super::*;
use crate::dictionary::LastCause;
use crate::laws::{core_law, one_verdict};
use dict_value::{BadRow, BadValue, Why};
use std::test::Fail;

#[test]
fn one_dictionary_and_two_callers(rt: HostRuntime) -> Result<(), Fail> {
    let piece = Bytes::copy_of(rt.alloc(), b"1\ta\n")?;
    let events = [
        WorldEvent::Start(0),
        WorldEvent::Piece(0, piece),
        WorldEvent::Finish(0, Ended::Whole(Exit::Code(0))),
        WorldEvent::Publish(0),
        WorldEvent::Enter(0, 0),
        WorldEvent::Post(0),
        WorldEvent::Start(0),
        WorldEvent::Finish(0, Ended::Broken),
        WorldEvent::Publish(0),
        WorldEvent::Post(0),
        WorldEvent::Enter(0, 0),
        WorldEvent::Learn(1, 0),
    ];
    let world = World::run(rt.alloc(), 1, 1, 2, &events)?;
    let [dictionary] = world.dictionaries.as_slice() else {
        return Err(Fail::from("not one dictionary"));
    };
    let core = DictCore {
        published: 1,
        loads: 2,
        oks: 1,
        fails: 1,
        phase: Phase::Idle,
        cause: LastCause::Of(Cause::Read),
    };
    assert_eq!(rt; dictionary.core, core);
    assert_eq!(rt; dictionary.posted, 1);
    let [entry] = dictionary.entries.as_slice() else {
        return Err(Fail::from("not one entry"));
    };
    assert_eq!(rt; (entry.number, entry.load), (1, 1));
    assert_eq!(rt; entry.bytes.as_slice(), b"1\ta\n".as_slice());
    let [first, second] = world.callers.as_slice() else {
        return Err(Fail::from("not two callers"));
    };
    let [shown] = first.as_slice() else {
        return Err(Fail::from("the first caller knows not one dictionary"));
    };
    assert_eq!(rt; shown.answers.as_slice(), [1, 1].as_slice());
    let [told] = second.as_slice() else {
        return Err(Fail::from("the second caller knows not one dictionary"));
    };
    assert_eq!(rt; told.core, CallerCore { floor: 1 });
    core_law::<RowJudge>();
    one_verdict();
    Ok(())
}

#[test]
fn loads_with_other_definitions(rt: HostRuntime) -> Result<(), Fail> {
    let first = Bytes::copy_of(rt.alloc(), b"1\ta\n")?;
    let second = Bytes::copy_of(rt.alloc(), b"2\tb\n")?;
    let events = [
        // No definition has the number 3, and no dictionary is at place 2.
        WorldEvent::StartWith(0, 3),
        WorldEvent::StartWith(2, 0),
        WorldEvent::StartWith(0, 2),
        WorldEvent::Piece(0, first),
        // A load runs: it keeps its definition.
        WorldEvent::StartWith(0, 1),
        WorldEvent::Start(0),
        WorldEvent::Finish(0, Ended::Whole(Exit::Code(0))),
        WorldEvent::Publish(0),
        WorldEvent::Post(0),
        // This load has the current definition, and fails.
        WorldEvent::Start(0),
        WorldEvent::Finish(0, Ended::Whole(Exit::Killed)),
        WorldEvent::Post(0),
        WorldEvent::StartWith(0, 1),
        WorldEvent::Piece(0, second),
        WorldEvent::Finish(0, Ended::Whole(Exit::Code(0))),
        WorldEvent::Publish(0),
        WorldEvent::Post(0),
        // A load that fails leaves the current definition.
        WorldEvent::StartWith(0, 0),
        WorldEvent::Finish(0, Ended::Whole(Exit::Code(1))),
        WorldEvent::Post(0),
    ];
    let world = World::run(rt.alloc(), 2, 3, 0, &events)?;
    let [changed, other] = world.dictionaries.as_slice() else {
        return Err(Fail::from("not two dictionaries"));
    };
    assert_eq!(rt;
        (changed.definition, changed.loading, changed.posted),
        (1, 0, 2)
    );
    assert_eq!(rt; changed.core.cause, LastCause::Of(Cause::Status(1)));
    let [one, two] = changed.entries.as_slice() else {
        return Err(Fail::from("not two entries"));
    };
    assert_eq!(rt; (one.number, one.definition, one.load), (1, 2, 1));
    assert_eq!(rt; one.bytes.as_slice(), b"1\ta\n".as_slice());
    assert_eq!(rt; (two.number, two.definition, two.load), (2, 1, 3));
    assert_eq!(rt; two.bytes.as_slice(), b"2\tb\n".as_slice());
    assert_eq!(rt;
        (other.definition, other.loading, other.core.loads),
        (1, 1, 0)
    );
    Ok(())
}

#[test]
fn outputs_with_their_verdicts(rt: HostRuntime) -> Result<(), Fail> {
    let word = BadRow {
        line: 2,
        column: 1,
        why: Why::Value(BadValue::NotANumber),
    };
    let null = BadRow {
        line: 1,
        column: 1,
        why: Why::Value(BadValue::NullNotAllowed),
    };
    let table = [
        (b"1\ta\\\\\n".as_slice(), Phase::Ready, LastCause::None),
        (b"1\ta".as_slice(), Phase::Ready, LastCause::None),
        (b"499999\t\\N\n".as_slice(), Phase::Ready, LastCause::None),
        (
            b"\\N\ta\n".as_slice(),
            Phase::ToPost,
            LastCause::Of(Cause::Row(null)),
        ),
        (
            b"1\ta\nx\tb\n".as_slice(),
            Phase::ToPost,
            LastCause::Of(Cause::Row(word)),
        ),
        (
            b"1\ta\n500000\tb\n500001\tc\n".as_slice(),
            Phase::ToPost,
            LastCause::Of(Cause::Key(500000)),
        ),
    ];
    for (output, phase, cause) in table {
        let piece = Bytes::copy_of(rt.alloc(), output)?;
        let events = [
            WorldEvent::Start(0),
            WorldEvent::Piece(0, piece),
            WorldEvent::Finish(0, Ended::Whole(Exit::Code(0))),
        ];
        let world = World::run(rt.alloc(), 1, 1, 0, &events)?;
        let [dictionary] = world.dictionaries.as_slice() else {
            return Err(Fail::from("not one dictionary"));
        };
        assert_eq!(rt; dictionary.core.phase, phase, "at {output:?}");
        assert_eq!(rt; dictionary.core.cause, cause, "at {output:?}");
    }
    Ok(())
}
