// Which requests lines are, by tables.
ghost use Rattle.std.specs.Prelude.{◌≤◌, length};

use crate::shown::show;
use crate::{lines_after, read_request};
use dict_value::{Bytes, ListOf, NoMemory};
use std::alloc::Global;
use std::test::Fail;

/// Lookups and calls of one line, and what they ask for.
static LOOKUPS: [(&[u8], &[u8]); 25] = [
    (b"dictGet", b"bad"),
    (b"dictGet\td", b"bad"),
    (b"dictGet\td\ta", b"bad"),
    (b"dictGet\td\ta\t1", b"get d.a|? 0;|1"),
    (b"dictGet\td\ta\t1\t2", b"get d.a|? 0;|1|2"),
    (b"dictGet\t\\N\ta\t1", b"bad"),
    (b"dictGet\td\t\\N\t1", b"bad"),
    (b"dictGet\t\t\t\\N", b"get .|? 0;|?"),
    (b"dictGetOrDefault\td\ta\tv", b"bad"),
    (b"dictGetOrDefault\td\ta\tv\t1", b"default d.a|v 0;|1"),
    (
        b"dictGetOrDefault\td\ta\t\\N\t1\t2",
        b"default d.a|? 0;|1|2",
    ),
    (b"dictGetOrDefault\td\t\\N\tv\t1", b"bad"),
    (b"dictGetOrNull\td\ta", b"bad"),
    (b"dictGetOrNull\td\ta\t1", b"null d.a|? 0;|1"),
    (b"dictGetOrNull\td\ta\t1\t2", b"null d.a|? 0;|1|2"),
    (b"dictHas", b"bad"),
    (b"dictHas\td", b"bad"),
    (b"dictHas\td\t1", b"has d.|? 0;|1"),
    (b"dictHas\td\t1\t2", b"has d.|? 0;|1|2"),
    (b"dictHas\t\\N\t1", b"bad"),
    (b"call\tf", b"bad"),
    (b"call\tf\t1", b"call f.|? 0;|1"),
    (b"call\tf\t1\t\\N", b"call f.|? 0;|1|?"),
    (b"call\t\\N\t1", b"bad"),
    (b"dictHas\td\t1\\r", b"has d.|? 0;|1\r"),
];

/// What is asked of hierarchies.
static HIERARCHIES: [(&[u8], &[u8]); 21] = [
    (b"dictGetHierarchy\td", b"bad"),
    (b"dictGetHierarchy\td\t1", b"hierarchy d.|? 0;|1"),
    (b"dictGetHierarchy\td\t1\t2", b"bad"),
    (b"dictGetHierarchy\t\\N\t1", b"bad"),
    (b"dictGetChildren\td", b"bad"),
    (b"dictGetChildren\td\t1", b"children d.|? 0;|1"),
    (b"dictGetChildren\td\t1\t2", b"bad"),
    (b"dictIsIn\td\t1", b"bad"),
    (b"dictIsIn\td\t1\t2", b"in d.|? 0;|1|2"),
    (b"dictIsIn\td\t1\t2\t3", b"bad"),
    (b"dictGetDescendants\td\t1", b"bad"),
    (b"dictGetDescendants\td\t1\t0", b"descendants d.|? 0;|1"),
    (b"dictGetDescendants\td\t1\t0\t0", b"bad"),
    (
        b"dictGetDescendants\td\t1\t4294967295",
        b"descendants d.|? 4294967295;|1",
    ),
    (b"dictGetDescendants\td\t1\t4294967296", b"bad"),
    (b"dictGetDescendants\td\t1\t00", b"bad"),
    (b"dictGetDescendants\td\t1\t01", b"bad"),
    (b"dictGetDescendants\td\t1\t", b"bad"),
    (b"dictGetDescendants\td\t1\t\\N", b"bad"),
    (b"dictGetDescendants\td\t1\t+1", b"bad"),
    (b"dictGetDescendants\td\t1\t\\x37", b"descendants d.|? 7;|1"),
];

/// Words with a name, with a number too, or alone.
static NAMED: [(&[u8], &[u8]); 24] = [
    (b"reload", b"bad"),
    (b"reload\td", b"reload d"),
    (b"reload\td\te", b"bad"),
    (b"reload\t\\N", b"bad"),
    (b"status", b"bad"),
    (b"status\td", b"status d"),
    (b"status\td\te", b"bad"),
    (b"status\t\\N", b"bad"),
    (b"show", b"bad"),
    (b"show\td", b"show d"),
    (b"show\td\te", b"bad"),
    (b"show\t\\N", b"bad"),
    (b"after\td", b"bad"),
    (b"after\td\t0", b"after d 0"),
    (
        b"after\td\t18446744073709551615",
        b"after d 18446744073709551615",
    ),
    (b"after\td\t18446744073709551616", b"bad"),
    (b"after\td\t00", b"bad"),
    (b"after\td\t\\N", b"bad"),
    (b"after\td\t1\t2", b"bad"),
    (b"after\t\\N\t1", b"bad"),
    (b"reloadConfig", b"config"),
    (b"reloadConfig\t", b"bad"),
    (b"quit", b"quit"),
    (b"quit\t", b"bad"),
];

/// Lines whose words, names and ends are spelled in other ways.
static SPELLINGS: [(&[u8], &[u8]); 12] = [
    (b"", b"bad"),
    (b"\\N", b"bad"),
    (b"\\N\td", b"bad"),
    (b"QUIT", b"bad"),
    (b"dictget\td\ta\t1", b"bad"),
    (b"dict\\x48as\ta\\tb\t\\\\N", b"has a\tb.|? 0;|\\N"),
    (b"\\x71uit", b"quit"),
    (b"quit\r", b"bad"),
    (b"dictHas\td\t1\r", b"bad"),
    (b"dictHas\td\t1\r\t2", b"has d.|? 0;|1\r|2"),
    (b"dictHas\td\t\\x4", b"bad"),
    (b"dictHas\td\t1\\", b"bad"),
];

/// First lines of blocks, none of which has its lines, how many they say follow, and what they ask for.
static BLOCK_LINES: [(&[u8], u32, &[u8]); 32] = [
    (b"many", 0, b"bad"),
    (b"many\t", 0, b"bad"),
    (b"many\t2", 2, b"bad"),
    (b"many\t0", 0, b"bad"),
    (b"many\t0\tdictHas", 0, b"bad"),
    (b"many\t0\tdictGet\td\ta", 0, b"get d.a|? 0 block"),
    (b"many\t0\tdictGet\td", 0, b"bad"),
    (b"many\t0\tdictGet\td\ta\t1", 0, b"bad"),
    (
        b"many\t0\tdictGetOrDefault\td\ta\tv",
        0,
        b"default d.a|v 0 block",
    ),
    (b"many\t0\tdictGetOrDefault\td\ta", 0, b"bad"),
    (b"many\t0\tdictGetOrNull\td\ta", 0, b"null d.a|? 0 block"),
    (b"many\t0\tdictHas\td", 0, b"has d.|? 0 block"),
    (b"many\t0\tdictHas\td\t1", 0, b"bad"),
    (b"many\t0\tcall\tf", 0, b"call f.|? 0 block"),
    (b"many\t0\tcall\tf\t1", 0, b"bad"),
    (b"many\t0\tdictHas\t\\N", 0, b"bad"),
    (b"many\t0\t\\N\td", 0, b"bad"),
    (b"many\t0\tdictGetHierarchy\td", 0, b"bad"),
    (b"many\t0\tdictIsIn\td", 0, b"bad"),
    (b"many\t0\tquit", 0, b"bad"),
    (b"many\t0\tmany\t0\tdictHas\td", 0, b"bad"),
    (b"many\t00\tdictHas\td", 0, b"bad"),
    (b"many\t\\N\tdictHas\td", 0, b"bad"),
    (b"\\x6dany\t0\tdictHas\td", 0, b"bad"),
    (b"many\t\\x30\tdictHas\td", 0, b"bad"),
    (b"many\\t0\tdictHas\td", 0, b"bad"),
    (b"many\t1\tdictHas\td", 1, b"bad"),
    (b"many\t4096\tdictHas\td", 4096, b"bad"),
    (b"many\t4097\tdictHas\td", 4097, b"bad"),
    (b"many\t4294967295\tdictHas\td", 4294967295, b"bad"),
    (b"many\t4294967296\tdictHas\td", 0, b"bad"),
    (b"many\t18446744073709551617\tdictHas\td", 0, b"bad"),
];

/// A line and the two that follow it, how many it says follow, and what they ask for.
static BLOCKS: [(&[u8], &[u8], &[u8], u32, &[u8]); 15] = [
    (
        b"many\t2\tdictHas\td",
        b"1",
        b"2\t3",
        2,
        b"has d.|? 0 block;|1;|2|3",
    ),
    (
        b"many\t2\tdictGet\td\ta",
        b"\\N",
        b"",
        2,
        b"get d.a|? 0 block;|?;|",
    ),
    (
        b"many\t2\tdictGetOrDefault\td\ta\t\\N",
        b"a\\tb",
        b"2",
        2,
        b"default d.a|? 0 block;|a\tb;|2",
    ),
    (
        b"many\t2\tdictGetOrNull\td\ta",
        b"1",
        b"2",
        2,
        b"null d.a|? 0 block;|1;|2",
    ),
    (
        b"many\t2\tcall\tf",
        b"1",
        b"2",
        2,
        b"call f.|? 0 block;|1;|2",
    ),
    (b"many\t1\tdictHas\td", b"1", b"2", 1, b"bad"),
    (b"many\t3\tdictHas\td", b"1", b"2", 3, b"bad"),
    (b"many\t2\tdictHas\td", b"1", b"2\r", 2, b"bad"),
    (b"many\t2\tdictHas\td", b"\\x4", b"2", 2, b"bad"),
    (b"many\t2\tdictHas\td\r", b"1", b"2", 2, b"bad"),
    (b"many\t02\tdictHas\td", b"1", b"2", 0, b"bad"),
    (b"many\t\\x32\tdictHas\td", b"1", b"2", 0, b"bad"),
    (b"\\x6dany\t2\tdictHas\td", b"1", b"2", 0, b"bad"),
    (b"dictHas\td\t1", b"1", b"2", 0, b"bad"),
    (b"quit", b"1", b"2", 0, b"bad"),
];

/// What a line asks for that no other follows.
fn answered(alloc: Global, line: &[u8]) -> Result<Bytes, NoMemory>
    requires { length line.now ≤ u32.MAX }
{
    let none = ListOf::new(alloc);
    let mut out = Bytes::new(alloc);
    show(read_request(alloc, line, none.as_slice()), &mut out)?;
    Ok(out)
}

#[test]
fn lookups(rt: HostRuntime) -> Result<(), Fail> {
    for (row, (line, wanted)) in LOOKUPS.iter().enumerate() {
        assert!(rt; line.len() <= u32::MAX as usize, "row {row}");
        assert_eq!(rt; lines_after(line), 0, "row {row}");
        assert_eq!(rt;
            answered(rt.alloc(), line)?.as_slice(),
            *wanted,
            "row {row}"
        );
    }
    Ok(())
}

#[test]
fn hierarchies(rt: HostRuntime) -> Result<(), Fail> {
    for (row, (line, wanted)) in HIERARCHIES.iter().enumerate() {
        assert!(rt; line.len() <= u32::MAX as usize, "row {row}");
        assert_eq!(rt; lines_after(line), 0, "row {row}");
        assert_eq!(rt;
            answered(rt.alloc(), line)?.as_slice(),
            *wanted,
            "row {row}"
        );
    }
    Ok(())
}

#[test]
fn named(rt: HostRuntime) -> Result<(), Fail> {
    for (row, (line, wanted)) in NAMED.iter().enumerate() {
        assert!(rt; line.len() <= u32::MAX as usize, "row {row}");
        assert_eq!(rt; lines_after(line), 0, "row {row}");
        assert_eq!(rt;
            answered(rt.alloc(), line)?.as_slice(),
            *wanted,
            "row {row}"
        );
    }
    Ok(())
}

#[test]
fn spellings(rt: HostRuntime) -> Result<(), Fail> {
    for (row, (line, wanted)) in SPELLINGS.iter().enumerate() {
        assert!(rt; line.len() <= u32::MAX as usize, "row {row}");
        assert_eq!(rt; lines_after(line), 0, "row {row}");
        assert_eq!(rt;
            answered(rt.alloc(), line)?.as_slice(),
            *wanted,
            "row {row}"
        );
    }
    Ok(())
}

#[test]
fn block_lines(rt: HostRuntime) -> Result<(), Fail> {
    for (row, (line, after, wanted)) in BLOCK_LINES.iter().enumerate() {
        assert!(rt; line.len() <= u32::MAX as usize, "row {row}");
        assert_eq!(rt; lines_after(line), *after, "row {row}");
        assert_eq!(rt;
            answered(rt.alloc(), line)?.as_slice(),
            *wanted,
            "row {row}"
        );
    }
    Ok(())
}

#[test]
fn blocks(rt: HostRuntime) -> Result<(), Fail> {
    for (row, (line, first, second, after, wanted)) in BLOCKS.iter().enumerate() {
        assert!(rt; line.len() <= u32::MAX as usize, "row {row}");
        assert!(rt;
            first.len() <= u32::MAX as usize && second.len() <= u32::MAX as usize,
            "row {row}"
        );
        assert_eq!(rt; lines_after(line), *after, "row {row}");
        let keys = [
            Bytes::copy_of(rt.alloc(), first)?,
            Bytes::copy_of(rt.alloc(), second)?,
        ];
        let mut out = Bytes::new(rt.alloc());
        show(read_request(rt.alloc(), line, &keys), &mut out)?;
        assert_eq!(rt; out.as_slice(), *wanted, "row {row}");
    }
    Ok(())
}
