// Requests, their refusals, and several dictionaries.
use super::{Ends, FIRST, FLAT, Session, check_sessions};
use std::test::Fail;

static REQUESTS: [Session; 6] = [
    // Refusals in their order.
    Session {
        file: FLAT,
        children: FIRST,
        moments: &[],
        input: b"\ndictGet\tno\tx\t1\ndictGet\td\tno\tq\ndictGet\td\tx\tq\ndictGetHierarchy\td\t1\ncall\tno\t1\n\
            many\t1\tdictGet\tno\tx\n1\ndictGet\td\tx\t1\n",
        out: b"ERR\t1\nERR\t2\nERR\t3\nERR\t4\t1\nERR\t6\nERR\t9\nERR\t2\nOK\tv1\ta\n",
    },
    Session {
        file: FLAT,
        children: FIRST,
        moments: &[],
        input: b"dictGetOrDefault\td\tx\tzz\t7\ndictGetOrDefault\td\tx\tzz\t1\ndictGetOrNull\td\tx\t7\n",
        out: b"OK\tv1\tzz\nOK\tv1\ta\nOK\tv1\t\\N\n",
    },
    // Blocks, the last of which the input cuts.
    Session {
        file: FLAT,
        children: FIRST,
        moments: &[],
        input: b"many\t2\tdictGet\td\tx\n2\n7\nmany\t2\tdictGet\td\tx\n2\nq\nmany\t0\tdictGet\td\tx\n\
            many\t2\tdictGet\td\tx\n2\n",
        out: b"OK\tv1\t2\nb\n\nERR\t4\t2\nOK\tv1\t0\nERR\t1\n",
    },
    Session {
        file: b"",
        children: &[],
        moments: &[],
        input: b"dictGet\td\tx\t1\nshow\td\nquit\nquit\n",
        out: b"ERR\t2\nERR\t2\nOK\tbye\n",
    },
    // Two dictionaries load in their order and answer apart.
    Session {
        file: b"CREATE DICTIONARY d (id UInt64, x String) PRIMARY KEY id SOURCE(EXECUTABLE(command 'c' format TSV)) \
            LAYOUT(FLAT());\nCREATE DICTIONARY db.e (id UInt64, y UInt8) PRIMARY KEY id \
            SOURCE(EXECUTABLE(command 'p w' format CSV execute_direct 1)) LAYOUT(FLAT(MAX_ARRAY_SIZE 5)) \
            SETTINGS(max_output_bytes = 8) COMMENT 'it''s';",
        children: &[
            (b"1\ta\n", Ends::With(0)),
            (b"1,2\n", Ends::With(0)),
            (b"1,3\n", Ends::With(0)),
            (b"1,2\n2,20\n", Ends::With(0)),
        ],
        moments: &[],
        input: b"dictGet\td\tx\t1\ndictGet\tdb.e\ty\t1\nreload\tdb.e\ndictGet\tdb.e\ty\t1\nreload\tdb.e\n\
            dictGet\td\ty\t1\nshow\tdb.e\nreloadConfig\n",
        out: b"OK\tv1\ta\nOK\tv1\t2\nOK\tv2\nOK\tv2\t3\nERR\t7\t6 longer 8\nERR\t3\nOK\tshow\tCREATE DICTIONARY `db.e` \
            (`id` UInt64, `y` UInt8 DEFAULT 0) PRIMARY KEY `id` SOURCE(EXECUTABLE(command \\'p w\\' format \\'CSV\\' \
            execute_direct 1 implicit_key 0 send_chunk_header 0 command_read_timeout 10000 command_write_timeout 10000 \
            command_termination_timeout 10)) LAYOUT(FLAT(INITIAL_ARRAY_SIZE 1024 MAX_ARRAY_SIZE 5)) \
            LIFETIME(MIN 0 MAX 0) SETTINGS(max_output_bytes = 8) COMMENT \\'it\\\\\\'s\\'\nOK\tconfig\t0\t0\n",
    },
    // The first load of one fails, and the other answers.
    Session {
        file: b"CREATE DICTIONARY d (id UInt64, x String) PRIMARY KEY id SOURCE(EXECUTABLE(command 'c' format TSV)) \
            LAYOUT(FLAT());\nCREATE DICTIONARY e (id UInt64, y UInt8) PRIMARY KEY id SOURCE(EXECUTABLE(command 'p' \
            format CSV)) LAYOUT(FLAT())",
        children: &[
            (b"1\ta\n", Ends::With(1)),
            (b"1,2\n", Ends::With(0)),
            (b"1\tb\n", Ends::With(0)),
        ],
        moments: &[],
        input: b"dictGet\td\tx\t1\ndictGet\te\ty\t1\nreload\td\ndictGet\td\tx\t1\n",
        out: b"ERR\t5\nOK\tv1\t2\nOK\tv1\nOK\tv1\tb\n",
    },
];

#[test]
fn requests_are_refused_in_order(rt: HostRuntime) -> Result<(), Fail> {
    check_sessions(&rt, rt.alloc(), &REQUESTS)
}
