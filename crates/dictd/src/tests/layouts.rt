// Each layout that is fully loaded.
use super::{Ends, Session, check_sessions};
use std::test::Fail;

static LAYOUTS: [Session; 6] = [
    Session {
        file: b"CREATE DICTIONARY d (id UInt64, x String) PRIMARY KEY id SOURCE(EXECUTABLE(command 'c' format TSV)) \
            LAYOUT(HASHED());",
        children: &[(
            b"18446744073709551615\tz\n7\tfirst\n7\tsecond\n",
            Ends::With(0),
        )],
        moments: &[],
        input: b"dictGet\td\tx\t18446744073709551615\ndictGet\td\tx\t18446744073709551616\ndictGet\td\tx\t7\n",
        out: b"OK\tv1\tz\nERR\t4\t1\nOK\tv1\tfirst\n",
    },
    Session {
        file: b"CREATE DICTIONARY d (id UInt64, a Nullable(UInt32), b Nullable(UInt32), v String) PRIMARY KEY id \
            SOURCE(EXECUTABLE(command 'c' format TSV)) LAYOUT(RANGE_HASHED()) RANGE(MIN a MAX b);",
        children: &[(
            b"1\t10\t20\tp\n1\t10\t30\tq\n1\t15\t\\N\ts\n1\t40\t35\tt\n",
            Ends::With(0),
        )],
        moments: &[],
        input: b"dictGet\td\tv\t1\t10\ndictGet\td\tv\t1\t20\ndictGet\td\tv\t1\t21\ndictGet\td\tv\t1\t31\n\
            dictGet\td\tv\t1\t37\ndictGet\td\tv\t1\t9\n",
        out: b"OK\tv1\tp\nOK\tv1\tp\nOK\tv1\tq\nOK\tv1\ts\nOK\tv1\ts\nOK\tv1\t\n",
    },
    Session {
        file: b"CREATE DICTIONARY d (id UInt64, a Nullable(UInt32), b Nullable(UInt32), v String) PRIMARY KEY id \
            SOURCE(EXECUTABLE(command 'c' format TSV)) \
            LAYOUT(RANGE_HASHED(range_lookup_strategy 'max')) RANGE(MIN a MAX b);",
        children: &[(
            b"1\t10\t20\tp\n1\t10\t30\tq\n1\t15\t\\N\ts\n1\t40\t35\tt\n",
            Ends::With(0),
        )],
        moments: &[],
        input: b"dictGet\td\tv\t1\t20\ndictGet\td\tv\t1\t12\n",
        out: b"OK\tv1\ts\nOK\tv1\tq\n",
    },
    Session {
        file: b"CREATE DICTIONARY d (prefix String, v String) PRIMARY KEY prefix SOURCE(EXECUTABLE(command 'c' format \
            TSV)) LAYOUT(IP_TRIE());",
        children: &[
            (
                b"202.79.32.0/20\tNP\n202.79.32.2/32\tHOST\n0.0.0.0/0\tANY\n2001:db8::/32\tDOC\n",
                Ends::With(0),
            ),
            (b"1.2.3.4/33\tx\n", Ends::With(0)),
        ],
        moments: &[],
        input: b"dictGet\td\tv\t202.79.32.2\ndictGet\td\tv\t202.79.32.10\ndictGet\td\tv\t1.1.1.1\n\
            dictGet\td\tv\t2001:db8::1\ndictGet\td\tv\t2001:db9::1\ndictGet\td\tv\t1.1.1\nreload\td\n",
        out: b"OK\tv1\tHOST\nOK\tv1\tNP\nOK\tv1\tANY\nOK\tv1\tDOC\nOK\tv1\t\nERR\t4\t1\nERR\t7\t10 prefix 1\n",
    },
    Session {
        file: b"CREATE DICTIONARY d (a String, b UInt8, x String) PRIMARY KEY a, b SOURCE(EXECUTABLE(command 'c' \
            format TSV)) LAYOUT(COMPLEX_KEY_HASHED());",
        children: &[(b"\t5\te\n", Ends::With(0))],
        moments: &[],
        input: b"dictGet\td\tx\t\t5\ndictGet\td\tx\t5\ndictGet\td\tx\ta\t256\n",
        out: b"OK\tv1\te\nERR\t4\t1\nERR\t4\t1\n",
    },
    Session {
        file: b"CREATE DICTIONARY d (id UInt64, up UInt64 HIERARCHICAL) PRIMARY KEY id SOURCE(EXECUTABLE(command 'c' \
            format TSV)) LAYOUT(HASHED());",
        children: &[(b"1\t0\n2\t1\n3\t1\n4\t2\n5\t6\n6\t5\n", Ends::With(0))],
        moments: &[],
        input: b"dictGetHierarchy\td\t4\ndictGetHierarchy\td\t0\ndictGetHierarchy\td\t5\ndictGetChildren\td\t0\n\
            dictGetChildren\td\t1\ndictGetDescendants\td\t1\t0\ndictGetDescendants\td\t1\t2\n\
            dictGetDescendants\td\t5\t0\ndictIsIn\td\t4\t1\ndictIsIn\td\t1\t4\n",
        out: b"OK\tv1\t[4,2,1]\nOK\tv1\t[]\nOK\tv1\t[5,6]\nOK\tv1\t[1]\nOK\tv1\t[2,3]\nOK\tv1\t[2,3,4]\nOK\tv1\t[4]\n\
            OK\tv1\t[6]\nOK\tv1\t1\nOK\tv1\t0\n",
    },
];

#[test]
fn each_layout_is_served(rt: HostRuntime) -> Result<(), Fail> {
    check_sessions(&rt, rt.alloc(), &LAYOUTS)
}
