use super::*;
use dict_schema::{Format, Kind};
use std::process::Abort;
use std::test::Fail;

fn source(alloc: Global, command: &[u8], direct: bool) -> Result<SourceOf, NoMemory> {
    Ok(SourceOf {
        kind: Kind::Executable,
        command: Bytes::copy_of(alloc, command)?,
        format: Format::Tab,
        direct,
        implicit: false,
        header: false,
        read_ms: 0,
        write_ms: 0,
        end_s: 0,
        pool_size: 0,
        execution_s: 0,
        update: Update::None,
    })
}

fn same_words(rt: &impl Abort, got: &ListOf<Bytes>, want: &[&[u8]]) {
    assert_eq!(rt; got.len(), want.len());
    for (word, text) in got.as_slice().iter().zip(want) {
        assert!(rt; word.as_slice() == *text);
    }
}

#[test]
fn words_and_folders(rt: HostRuntime) -> Result<(), Fail> {
    let alloc = rt.alloc();
    let command = b" gen.py\t-n  5 ";
    let shell = words_of(alloc, &source(alloc, command, false)?, b"/etc")?;
    same_words(&rt, &shell, &[b"/bin/sh", b"-c", command]);
    let direct = words_of(alloc, &source(alloc, command, true)?, b"/etc")?;
    same_words(&rt, &direct, &[b"/etc/user_scripts/gen.py", b"-n", b"5"]);
    let folders: [(&[u8], &[u8]); 3] = [
        (b"a/b/defs.sql", b"a/b"),
        (b"/defs.sql", b""),
        (b"defs.sql", b"."),
    ];
    for (path, folder) in &folders {
        assert!(rt; folder_of(path) == *folder);
    }
    Ok(())
}

#[test]
fn words_since_a_moment(rt: HostRuntime) -> Result<(), Fail> {
    let alloc = rt.alloc();
    let mut source = source(alloc, b"c  -n", false)?;
    let plain = words_since(alloc, &source, b".", Since::From(130))?;
    same_words(&rt, &plain, &[b"/bin/sh", b"-c", b"c  -n"]);
    source.update = Update::Field {
        name: Bytes::copy_of(alloc, b"ts")?,
        lag: 5,
    };
    let whole = words_since(alloc, &source, b".", Since::Whole)?;
    same_words(&rt, &whole, &[b"/bin/sh", b"-c", b"c  -n"]);
    let shell = words_since(alloc, &source, b".", Since::From(100))?;
    same_words(&rt, &shell, &[b"/bin/sh", b"-c", b"c  -n ts 95"]);
    let early = words_since(alloc, &source, b".", Since::From(4))?;
    same_words(&rt, &early, &[b"/bin/sh", b"-c", b"c  -n ts 0"]);
    source.direct = true;
    let direct = words_since(alloc, &source, b".", Since::From(130))?;
    same_words(&rt, &direct, &[b"./user_scripts/c", b"-n", b"ts", b"125"]);
    Ok(())
}
