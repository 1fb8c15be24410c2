// Values by the types of their columns.
use super::{Ends, FIRST, FLAT, Session, check_sessions};
use std::test::Fail;

static VALUES: [Session; 8] = [
    Session {
        file: FLAT,
        children: FIRST,
        moments: &[],
        input: b"dictGet\td\tx\t2\ndictGet\td\tx\t7\ndictHas\td\t7",
        out: b"OK\tv1\tb\nOK\tv1\t\nOK\tv1\t0\n",
    },
    Session {
        file: FLAT,
        children: &[(b"", Ends::With(0))],
        moments: &[],
        input: b"dictGet\td\tx\t7\ndictHas\td\t7\n",
        out: b"OK\tv1\t\nOK\tv1\t0\n",
    },
    // A default that isn't the type's.
    Session {
        file: b"CREATE DICTIONARY d (id UInt64, n UInt64 DEFAULT 9) PRIMARY KEY id \
            SOURCE(EXECUTABLE(command 'c' format 'TabSeparated')) LAYOUT(FLAT()) LIFETIME(0);",
        children: &[(b"", Ends::With(0))],
        moments: &[],
        input: b"dictGet\td\tn\t7\ndictGetOrDefault\td\tn\tzz\t7\n",
        out: b"OK\tv1\t9\nERR\t10\t0\n",
    },
    Session {
        file: b"CREATE DICTIONARY d (id UInt64, s String DEFAULT 'q', m Nullable(String)) PRIMARY KEY id \
            SOURCE(EXECUTABLE(command 'c' format 'TabSeparated')) LAYOUT(FLAT()) LIFETIME(0);",
        children: &[(b"1\ta\\tb\t\\N\n2\t\\N\t\\x41\n", Ends::With(0))],
        moments: &[],
        input: b"dictGet\td\ts\t1\ndictGet\td\tm\t1\ndictGet\td\ts\t2\ndictGet\td\tm\t2\n",
        out: b"OK\tv1\ta\\tb\nOK\tv1\t\\N\nOK\tv1\tq\nOK\tv1\tA\n",
    },
    Session {
        file: b"CREATE DICTIONARY d (id UInt64, x String) PRIMARY KEY id SOURCE(EXECUTABLE(command 'c' format CSV)) \
            LAYOUT(FLAT());",
        children: &[
            (b"1,\"a\nb\"\"c\"\r\n\r\n2,z\n", Ends::With(0)),
            (b"1,\"a\nb\"\"c\"\r\n\r\nz,z\n", Ends::With(0)),
        ],
        moments: &[],
        input: b"dictGet\td\tx\t1\ndictGet\td\tx\t2\nreload\td\n",
        out: b"OK\tv1\ta\\nb\"c\nOK\tv1\tz\nERR\t7\t8 row 3 1 number\n",
    },
    Session {
        file: b"CREATE DICTIONARY d (id UInt64, t Date, u DateTime, p Decimal(5, 2), g IPv6) PRIMARY KEY id \
            SOURCE(EXECUTABLE(command 'c' format 'TabSeparated')) LAYOUT(FLAT()) LIFETIME(0);",
        children: &[
            (
                b"1\t2149-06-06\t2106-02-07 06:28:15\t-1.50\t2001:DB8:0:0:0:0:0:1\n",
                Ends::With(0),
            ),
            (
                b"1\t2149-06-07\t2106-02-07 06:28:15\t-1.50\t2001:DB8:0:0:0:0:0:1\n",
                Ends::With(0),
            ),
        ],
        moments: &[],
        input: b"dictGet\td\tt\t1\ndictGet\td\tu\t1\ndictGet\td\tp\t1\ndictGet\td\tg\t1\nreload\td\n",
        out: b"OK\tv1\t2149-06-06\nOK\tv1\t2106-02-07 06:28:15\nOK\tv1\t-1.5\nOK\tv1\t2001:db8::1\n\
            ERR\t7\t8 row 1 2 range\n",
    },
    Session {
        file: FLAT,
        children: &[(b"7\tfirst\n7\tsecond\n499999\ta\n", Ends::With(0))],
        moments: &[],
        input: b"dictGet\td\tx\t7\ndictGet\td\tx\t499999\n",
        out: b"OK\tv1\tfirst\nOK\tv1\ta\n",
    },
    // A column before the key, and other types.
    Session {
        file: b"CREATE DICTIONARY d (a UInt8 DEFAULT 3, id UInt64, u UUID, i Int16, v IPv4) PRIMARY KEY id \
            SOURCE(EXECUTABLE(command 'c' format 'TSV')) LAYOUT(FLAT())",
        children: &[(
            b"1\t7\t550E8400-E29B-41D4-A716-446655440000\t-5\t1.2.3.4\n",
            Ends::With(0),
        )],
        moments: &[],
        input: b"dictGet\td\ta\t1\ndictGet\td\tu\t1\ndictGet\td\ti\t1\ndictGet\td\tv\t1\ndictGet\td\ta\t2\n",
        out: b"OK\tv1\t7\nOK\tv1\t550e8400-e29b-41d4-a716-446655440000\nOK\tv1\t-5\nOK\tv1\t1.2.3.4\nOK\tv1\t3\n",
    },
];

#[test]
fn values_are_printed_by_their_type(rt: HostRuntime) -> Result<(), Fail> {
    check_sessions(&rt, rt.alloc(), &VALUES)
}
