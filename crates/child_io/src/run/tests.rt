use super::*;
use crate::child::Script;
use crate::memory::MemorySpawner;
use dict_value::{Exit, ListOf};
use std::test::Fail;

/// A script, as a table has it; it prints in pieces of two bytes.
#[derive(Clone, Copy)]
struct Case {
    start_fails: bool,
    output: &'static [u8],
    failing_reads: &'static [u64],
    timed_out_reads: &'static [u64],
    failing_writes: &'static [u64],
    wait_fails: bool,
    after_close: bool,
    room: u32,
    accepted: &'static [u8],
    input: &'static [u8],
    limit: u32,
    want: &'static str,
    bytes: &'static [u8],
}

const WHOLE: Case = Case {
    start_fails: false,
    output: b"abcde",
    failing_reads: &[],
    timed_out_reads: &[],
    failing_writes: &[],
    wait_fails: false,
    after_close: true,
    room: 3,
    accepted: b"key",
    input: b"key",
    limit: 5,
    want: "status 3",
    bytes: b"abcde",
};

const NOTHING: Case = Case {
    want: "not started",
    bytes: b"",
    ..WHOLE
};

fn script_of(alloc: Global, case: &Case) -> Result<Script, Fail> {
    let mut accepted = ListOf::new(alloc);
    accepted.push(Bytes::copy_of(alloc, case.accepted)?)?;
    Ok(Script {
        start_fails: case.start_fails,
        output: Bytes::copy_of(alloc, case.output)?,
        sizes: ListOf::from_vec(Vec::from_slice(alloc, &[2, 2, 2])?),
        failing_reads: ListOf::from_vec(Vec::from_slice(alloc, case.failing_reads)?),
        timed_out_reads: ListOf::from_vec(Vec::from_slice(alloc, case.timed_out_reads)?),
        failing_writes: ListOf::from_vec(Vec::from_slice(alloc, case.failing_writes)?),
        wait_fails: case.wait_fails,
        after_close: case.after_close,
        exit: Exit::Code(3),
        room: case.room,
        accepted,
    })
}

fn spawner_of(alloc: Global, script: Script) -> Result<MemorySpawner, Fail> {
    let mut scripts = ListOf::new(alloc);
    scripts.push(script)?;
    Ok(MemorySpawner::new(alloc, scripts))
}

/// An outcome's name and its bytes.
fn shown(outcome: &Outcome) -> (&'static str, &[u8]) {
    match outcome {
        Outcome::NotStarted => ("not started", b""),
        Outcome::WriteFailed => ("write failed", b""),
        Outcome::Cut { bytes, timed_out } => {
            let name = if *timed_out { "timed out" } else { "cut" };
            (name, bytes.as_slice())
        }
        Outcome::TooLong => ("too long", b""),
        Outcome::WaitFailed(bytes) => ("wait failed", bytes.as_slice()),
        Outcome::Ended { bytes, exit } => {
            let name = match exit {
                Exit::Code(3) => "status 3",
                Exit::Code(_) => "status",
                Exit::Killed => "killed",
            };
            (name, bytes.as_slice())
        }
        Outcome::NoMemory => ("no memory", b""),
    }
}

const CASES: [Case; 12] = [
    WHOLE,
    Case {
        limit: 4,
        want: "too long",
        ..NOTHING
    },
    Case {
        start_fails: true,
        ..NOTHING
    },
    Case {
        room: 2,
        want: "write failed",
        ..NOTHING
    },
    Case {
        failing_writes: &[0],
        want: "write failed",
        ..NOTHING
    },
    Case {
        accepted: b"kex",
        want: "cut",
        ..NOTHING
    },
    Case {
        failing_reads: &[1],
        want: "cut",
        bytes: b"ab",
        ..WHOLE
    },
    Case {
        timed_out_reads: &[2],
        want: "timed out",
        bytes: b"abcd",
        ..WHOLE
    },
    Case {
        failing_reads: &[2],
        timed_out_reads: &[2],
        want: "cut",
        bytes: b"abcd",
        ..WHOLE
    },
    Case {
        failing_reads: &[3],
        want: "cut",
        ..WHOLE
    },
    Case {
        wait_fails: true,
        want: "wait failed",
        ..WHOLE
    },
    Case {
        input: b"",
        accepted: b"",
        failing_writes: &[0],
        ..WHOLE
    },
];

#[test]
fn runs_end_as_their_scripts_say(rt: HostRuntime) -> Result<(), Fail> {
    let alloc = rt.alloc();
    for case in &CASES {
        let mut spawner = spawner_of(alloc, script_of(alloc, case)?)?;
        let outcome = run_whole(alloc, &mut spawner, &[], case.input, case.limit, 7);
        let (name, bytes) = shown(&outcome);
        assert_eq!(rt; name, case.want);
        assert!(rt; bytes == case.bytes);
    }
    Ok(())
}

/// A read before the input is closed finds nothing yet.
#[test]
fn output_may_come_behind_the_closed_input(rt: HostRuntime) -> Result<(), Fail> {
    let alloc = rt.alloc();
    let mut spawner = spawner_of(alloc, script_of(alloc, &WHOLE)?)?;
    let mut child = spawner.start(&[])?;
    assert_eq!(rt; child.write(b"keys"), Put::Bytes(3));
    let mut buf = [0; 4];
    let Heard::TimedOut = child.read(&mut buf, 7) else {
        return Err(Fail::from(Failed));
    };
    child.close_input();
    assert_eq!(rt; child.read(&mut buf, 7), Heard::Bytes(2));
    assert_eq!(rt; child.wait(), Ok(Exit::Code(3)));
    Ok(())
}

#[test]
fn pieces_are_counted(rt: HostRuntime) -> Result<(), Fail> {
    let alloc = rt.alloc();
    let mut spawner = spawner_of(alloc, script_of(alloc, &WHOLE)?)?;
    let mut gathered = Gathered::new(alloc);
    let end = run_pieces(&mut spawner, &[], b"key", 5, 7, &mut gathered);
    assert_eq!(rt; end, PieceEnd::Ended(Exit::Code(3)));
    assert_eq!(rt; gathered.pieces, 3);
    assert!(rt; gathered.bytes.as_slice() == b"abcde".as_slice());
    Ok(())
}

/// Outputs of one whole read and of 16 MiB, read to their limit.
#[test]
fn long_outputs_are_read(rt: HostRuntime) -> Result<(), Fail> {
    let alloc = rt.alloc();
    for size in [65_536, 16_777_216] {
        let mut script = script_of(alloc, &WHOLE)?;
        script.output = Bytes::zeros(alloc, size as usize)?;
        let mut spawner = spawner_of(alloc, script)?;
        let outcome = run_whole(alloc, &mut spawner, &[], b"key", size, 7);
        let (name, bytes) = shown(&outcome);
        assert_eq!(rt; name, "status 3");
        assert_eq!(rt; bytes.len(), size as usize);
    }
    Ok(())
}

#[test]
fn each_start_keeps_its_words(rt: HostRuntime) -> Result<(), Fail> {
    let alloc = rt.alloc();
    let words = [Bytes::copy_of(alloc, b"c")?, Bytes::copy_of(alloc, b"-n")?];
    let mut spawner = spawner_of(alloc, script_of(alloc, &WHOLE)?)?;
    let _ = run_whole(alloc, &mut spawner, &words, b"key", 5, 7);
    // No script is left: this start fails.
    let _ = run_whole(alloc, &mut spawner, &words[..1], b"", 5, 7);
    let [first, second] = spawner.starts() else {
        return Err(Fail::from("not two starts"));
    };
    let [program, argument] = first.as_slice() else {
        return Err(Fail::from("not two words"));
    };
    assert!(rt; program.as_slice() == b"c".as_slice());
    assert!(rt; argument.as_slice() == b"-n".as_slice());
    let [program] = second.as_slice() else {
        return Err(Fail::from("not one word"));
    };
    assert!(rt; program.as_slice() == b"c".as_slice());
    Ok(())
}
