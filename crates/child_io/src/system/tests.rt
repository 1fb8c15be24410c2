use super::*;
use crate::child::Outcome;
use crate::run::run_whole;
use dict_value::ListOf;
use std::fs::{self, File};
use std::test::Fail;

fn words(alloc: Global, texts: &[&[u8]]) -> Result<ListOf<Bytes>, Fail> {
    let mut words = ListOf::new(alloc);
    for text in texts {
        words.push(Bytes::copy_of(alloc, text)?)?;
    }
    Ok(words)
}

/// An outcome's name and its bytes.
fn shown(outcome: &Outcome) -> (&'static str, &[u8]) {
    match outcome {
        Outcome::NotStarted => ("not started", b""),
        Outcome::TooLong => ("too long", b""),
        Outcome::Ended { bytes, exit } => {
            let name = match exit {
                Exit::Code(3) => "status 3",
                Exit::Code(_) => "status",
                Exit::Killed => "killed",
            };
            (name, bytes.as_slice())
        }
        _ => ("other", b""),
    }
}

/// Each is run by the shell with the input `key`.
#[test]
fn real_programs_run(rt: HostRuntime) -> Result<(), Fail> {
    let alloc = rt.alloc();
    let mut spawner = OsSpawner::new(&rt, alloc);
    let cases: [(&[u8], &str, &[u8]); 5] = [
        (b"cat > /dev/null; printf ab; exit 3", "status 3", b"ab"),
        (b"cat; printf c; kill -9 $$", "killed", b"keyc"),
        (b"cat; cat", "status", b"key"),
        (b"cat; printf def", "too long", b""),
        (b"\xff", "not started", b""),
    ];
    for (command, want, want_bytes) in &cases {
        let words = words(alloc, &[b"/bin/sh", b"-c", command])?;
        let outcome = run_whole(alloc, &mut spawner, words.as_slice(), b"key", 5, 7);
        let (name, bytes) = shown(&outcome);
        assert_eq!(rt; name, *want);
        assert!(rt; bytes == *want_bytes);
    }
    let nowhere = words(alloc, &[b"/nowhere/to/be/found"])?;
    let outcome = run_whole(alloc, &mut spawner, nowhere.as_slice(), &[], 5, 7);
    assert_eq!(rt; shown(&outcome).0, "not started");
    Ok(())
}

/// An output of 16 MiB at its limit.
#[test]
fn long_outputs_are_read(rt: HostRuntime) -> Result<(), Fail> {
    let alloc = rt.alloc();
    let mut spawner = OsSpawner::new(&rt, alloc);
    let words = words(alloc, &[b"/bin/sh", b"-c", b"head -c 16777216 /dev/zero"])?;
    let outcome = run_whole(alloc, &mut spawner, words.as_slice(), &[], 16_777_216, 7);
    let (name, bytes) = shown(&outcome);
    assert_eq!(rt; name, "status");
    assert_eq!(rt; bytes.len(), 16_777_216);
    Ok(())
}

/// A program that closes its input before it prints.
#[test]
fn a_closed_input_takes_nothing(rt: HostRuntime) -> Result<(), Fail> {
    let alloc = rt.alloc();
    let mut spawner = OsSpawner::new(&rt, alloc);
    let words = words(alloc, &[b"/bin/sh", b"-c", b"exec <&-; printf a; exit 3"])?;
    let mut child = spawner.start(words.as_slice())?;
    assert_eq!(rt; child.read(&mut [0; 4], 7), Heard::Bytes(1));
    assert_eq!(rt; child.write(b"key"), Put::Failed);
    child.close_input();
    assert_eq!(rt; child.wait(), Ok(Exit::Code(3)));
    Ok(())
}

/// A process whose output is a folder, and which was waited for by another.
#[derive(Drop)]
struct Lost;

impl OpenProcess for Lost {
    type Stdin = File;

    type Stdout = File;

    type Stderr = File;

    fn id(&self) -> u32 {
        1
    }

    fn wait(&mut self) -> io::Result<ExitStatus> {
        Err(io::Error::from(ErrorKind::NotFound))
    }
}

#[test]
fn faults_of_the_system_are_answered(rt: HostRuntime) -> Result<(), Fail> {
    let output = fs::open(&rt, ".")?;
    let mut child = OsChild {
        child: process::Child::from_parts(Lost, None, Some(output), None),
        closed: false,
        ended: false,
        faults: 0,
    };
    assert_eq!(rt; child.write(b"key"), Put::Failed);
    assert_eq!(rt; child.read(&mut [0; 4], 7), Heard::Failed);
    child.close_input();
    assert_eq!(rt; child.wait(), Err(Failed));
    assert_eq!(rt; child.faults, 3);
    Ok(())
}
