// The words of faults.
use crate::{DdlFault, fault_words};
use dict_schema::{DefFault, Which};
use std::test::Fail;

static WORDS: [(DdlFault, &[u8]); 29] = [
    (DdlFault::Unexpected(1), b"unexpected"),
    (DdlFault::UnknownSetting(1), b"unknown setting"),
    (DdlFault::Twice(1), b"given twice"),
    (DdlFault::Unsupported(1), b"unsupported"),
    (DdlFault::TooMany(1), b"too many"),
    (
        DdlFault::Def(0, DefFault::Limit(Which::Columns, 0)),
        b"limit columns",
    ),
    (
        DdlFault::Def(0, DefFault::Limit(Which::Keys, 0)),
        b"limit keys",
    ),
    (
        DdlFault::Def(0, DefFault::Limit(Which::Args, 0)),
        b"limit arguments",
    ),
    (
        DdlFault::Def(0, DefFault::Limit(Which::Name, 0)),
        b"limit name",
    ),
    (
        DdlFault::Def(0, DefFault::Limit(Which::Command, 0)),
        b"limit command",
    ),
    (
        DdlFault::Def(0, DefFault::Limit(Which::Output, 0)),
        b"limit output",
    ),
    (
        DdlFault::Def(0, DefFault::Limit(Which::ArraySize, 0)),
        b"limit array size",
    ),
    (
        DdlFault::Def(0, DefFault::Limit(Which::Cells, 0)),
        b"limit cells",
    ),
    (
        DdlFault::Def(0, DefFault::Limit(Which::PoolSize, 0)),
        b"limit pool size",
    ),
    (
        DdlFault::Def(0, DefFault::Limit(Which::LifetimeOrder, 0)),
        b"limit lifetime order",
    ),
    (DdlFault::Def(1, DefFault::NoKey), b"no key"),
    (DdlFault::Def(1, DefFault::NoArguments), b"no arguments"),
    (DdlFault::Def(1, DefFault::KeyMissing(1)), b"key missing"),
    (
        DdlFault::Def(1, DefFault::DuplicateName(1)),
        b"duplicate name",
    ),
    (
        DdlFault::Def(1, DefFault::SimpleKeyType),
        b"simple key type",
    ),
    (DdlFault::Def(1, DefFault::KeyType(1)), b"key type"),
    (DdlFault::Def(1, DefFault::RangeMissing), b"range missing"),
    (DdlFault::Def(1, DefFault::RangeUnused), b"range unused"),
    (DdlFault::Def(1, DefFault::RangeType), b"range type"),
    (
        DdlFault::Def(1, DefFault::HierarchyType(1)),
        b"hierarchy type",
    ),
    (DdlFault::Def(1, DefFault::BadDefault(1)), b"bad default"),
    (
        DdlFault::Def(1, DefFault::PoolNeedsKeys),
        b"pool needs keys",
    ),
    (DdlFault::Def(1, DefFault::Command), b"command"),
    (DdlFault::Def(1, DefFault::UpdateLayout), b"update layout"),
];

#[test]
fn words(rt: HostRuntime) -> Result<(), Fail> {
    for (fault, words) in &WORDS {
        assert_eq!(rt; fault_words(fault), *words);
    }
    Ok(())
}
