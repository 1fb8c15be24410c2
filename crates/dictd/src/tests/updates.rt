// Updates: the words that ask for what changed, and rows laid over the former ones.
use super::{Ends, Session, run_session, shelf};
use std::process::Abort;
use std::test::Fail;

/// A load, an update, one that fails, and one that brings nothing; its lag is taken off the moment before.
static UPDATES: Session = Session {
    file: b"CREATE DICTIONARY d (id UInt64, x String DEFAULT '') PRIMARY KEY id SOURCE(EXECUTABLE(command 'c' format \
        'TabSeparated' update_field 'ts' update_lag 5)) LAYOUT(HASHED()) LIFETIME(0);",
    children: &[
        (b"1\ta\n2\tb\n", Ends::With(0)),
        (b"2\tz\n3\tc\n", Ends::With(0)),
        (b"", Ends::With(1)),
        (b"", Ends::With(0)),
    ],
    moments: &[100, 130, 130, 140, 144, 144],
    input: b"reload\td\nmany\t3\tdictGet\td\tx\n1\n2\n3\nreload\td\nreload\td\ndictGet\td\tx\t3\n",
    out: b"OK\tv2\nOK\tv2\t3\na\nz\nc\nERR\t7\t4 status 1\nOK\tv3\nOK\tv3\tc\n",
};

static COMMANDS: [&[u8]; 4] = [b"c", b"c ts 95", b"c ts 125", b"c ts 125"];

#[test]
fn updates_ask_for_what_changed(rt: HostRuntime) -> Result<(), Fail> {
    let alloc = rt.alloc();
    let file = shelf(alloc, UPDATES.file, &[])?;
    let told = run_session(&rt, alloc, &UPDATES, file, 0)?;
    let starts = told.spawner.starts();
    assert_eq!(rt; starts.len(), COMMANDS.len());
    for (start, command) in starts.iter().zip(COMMANDS.iter()) {
        let words = start.as_slice();
        assert_eq!(rt; words.len(), 3);
        assert!(rt; words[0].as_slice() == b"/bin/sh".as_slice());
        assert!(rt; words[1].as_slice() == b"-c".as_slice());
        assert!(rt; words[2].as_slice() == *command);
    }
    Ok(())
}
