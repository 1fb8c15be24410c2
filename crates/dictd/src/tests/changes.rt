// Definitions that change while a session runs.
ghost use Rattle.std.specs.Prelude.{ℕ, None};

use super::{Child, Ends, FLAT, Session, run_session};
use dict_io::{Shelf, ShelfFault};
use dict_value::{Bytes, NoMemory};
use std::alloc::Global;
use std::test::Fail;

/// A shelf that gives one text after the other, whatever the name; where none is left a reading fails.
#[derive(Drop)]
struct Changing {
    alloc: Global,
    texts: &'static [&'static [u8]],
    read: usize,
    faults: u64,
}

impl Shelf for Changing {
    ghost Readings = { ℕ };

    ghost readings = { λ s. 0 };

    ghost file = { λ readings name. None };

    ghost later = { λ readings. readings };

    ghost filed = { λ name answer. Unit {0} };

    ghost shelf_faults = { λ s. s.faults };

    fn read_file(&mut self, _name: &str, limit: u32) -> Result<Bytes, ShelfFault> {
        let Some(text) = self.texts.get(self.read) else {
            self.faults = self.faults.saturating_add(1);
            return Err(ShelfFault::Failed);
        };
        self.read = self.read.saturating_add(1);
        if text.len() > limit as usize {
            return Err(ShelfFault::TooLong);
        }
        match Bytes::copy_of(self.alloc, text) {
            Ok(text) => Ok(text),
            Err(NoMemory) => Err(ShelfFault::NoMemory),
        }
    }
}

const HASHED: &[u8] =
    b"CREATE DICTIONARY d (id UInt64, x String DEFAULT '') PRIMARY KEY id SOURCE(EXECUTABLE(command 'c' format \
        'TabSeparated')) LAYOUT(HASHED()) LIFETIME(0);";

/// Another name.
const OTHER: &[u8] =
    b"CREATE DICTIONARY e (id UInt64, x String DEFAULT '') PRIMARY KEY id SOURCE(EXECUTABLE(command 'c' format \
        'TabSeparated')) LAYOUT(FLAT()) LIFETIME(0);";

const ROWS: Child = (b"1\ta\n2\tb\n", Ends::With(0));

/// The texts of the file, the first of which the run begins with.
static CHANGES: [(&[&[u8]], Session); 5] = [
    // Another layout, whose rows the former one would refuse; and the same once more.
    (
        &[FLAT, HASHED, HASHED],
        Session {
            file: FLAT,
            children: &[ROWS, (b"500000\tz\n", Ends::With(0))],
            moments: &[],
            input: b"reloadConfig\ndictGet\td\tx\t500000\nreloadConfig\n",
            out: b"OK\tconfig\t1\t1\nOK\tv2\tz\nOK\tconfig\t0\t0\n",
        },
    ),
    // The load fails, and the former definition stays.
    (
        &[FLAT, HASHED],
        Session {
            file: FLAT,
            children: &[ROWS, (b"500000\tz\n", Ends::With(1))],
            moments: &[],
            input: b"reloadConfig\ndictGet\td\tx\t2\nshow\td\n",
            out: b"OK\tconfig\t1\t0\nOK\tv1\tb\nOK\tshow\tCREATE DICTIONARY `d` (`id` UInt64, \
                `x` String DEFAULT \\'\\') PRIMARY KEY `id` SOURCE(EXECUTABLE(command \\'c\\' format \
                \\'TabSeparated\\' execute_direct 0 implicit_key 0 send_chunk_header 0 command_read_timeout 10000 \
                command_write_timeout 10000 command_termination_timeout 10)) \
                LAYOUT(FLAT(INITIAL_ARRAY_SIZE 1024 MAX_ARRAY_SIZE 500000)) LIFETIME(MIN 0 MAX 0) \
                SETTINGS(max_output_bytes = 67108864)\n",
        },
    ),
    // Other names, a file that is no definitions, and one that isn't read: nothing is loaded.
    (
        &[FLAT, OTHER, b"CREATE DICTIONARY d (id Float64)"],
        Session {
            file: FLAT,
            children: &[ROWS],
            moments: &[],
            input: b"reloadConfig\nreloadConfig\nreloadConfig\ndictGet\td\tx\t2\n",
            out: b"ERR\t17\t1\nERR\t16\tline 1 byte 24: unsupported\nERR\t15\nOK\tv1\tb\n",
        },
    ),
    // One item more.
    (
        &[
            FLAT,
            b"CREATE DICTIONARY d (id UInt64, x String DEFAULT '') PRIMARY KEY id SOURCE(EXECUTABLE(command 'c' format \
                TSV)) LAYOUT(FLAT()) LIFETIME(0);CREATE DICTIONARY e (id UInt64, x String) PRIMARY KEY id \
                SOURCE(EXECUTABLE(command 'c' format TSV)) LAYOUT(FLAT());",
        ],
        Session {
            file: FLAT,
            children: &[ROWS],
            moments: &[],
            input: b"reloadConfig\n",
            out: b"ERR\t17\t2\n",
        },
    ),
    // A comment counts as a change, a spelling doesn't.
    (
        &[
            FLAT,
            b"create dictionary d (`id` UInt64, x String) primary key id source(executable(command 'c' format TSV)) \
                layout(flat);",
            b"CREATE DICTIONARY d (id UInt64, x String) PRIMARY KEY id SOURCE(EXECUTABLE(command 'c' format TSV)) \
                LAYOUT(FLAT()) COMMENT 'c';",
        ],
        Session {
            file: FLAT,
            children: &[ROWS, (b"2\tc\n", Ends::With(0))],
            moments: &[],
            input: b"reloadConfig\nreloadConfig\ndictGet\td\tx\t2\n",
            out: b"OK\tconfig\t0\t0\nOK\tconfig\t1\t1\nOK\tv2\tc\n",
        },
    ),
];

#[test]
fn changed_definitions_are_loaded(rt: HostRuntime) -> Result<(), Fail> {
    let alloc = rt.alloc();
    for (place, (texts, run)) in CHANGES.iter().enumerate() {
        let file = Changing {
            alloc,
            texts,
            read: 0,
            faults: 0,
        };
        run_session(&rt, alloc, run, file, place)?;
    }
    Ok(())
}
