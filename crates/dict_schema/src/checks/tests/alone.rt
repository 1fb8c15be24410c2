// Definitions with each fault of the table alone.
use super::{BOTH, NULLABLE, judged};
use crate::sketch::{CELLS, Ends, PLAIN, Sketch, Text, Third};
use crate::{CacheSet, DefFault, Kind, Layout, Lifetime, RangeOf, Strategy, Which};
use dict_value::{AttrType, ColType};
use std::test::Fail;

/// Each fault of the table alone, in its order.
static ALONE: [(Sketch, DefFault); 32] = [
    (
        Sketch { more: 62, ..PLAIN },
        DefFault::Limit(Which::Columns, 65),
    ),
    (
        Sketch {
            layout: Layout::ComplexHashed,
            more: 17,
            keys: &[0, 3, 4, 5, 6, 7, 8, 9, 10, 11, 12, 13, 14, 15, 16, 17, 18],
            ..PLAIN
        },
        DefFault::Limit(Which::Keys, 17),
    ),
    (
        Sketch {
            name: Text::Long(0),
            ..PLAIN
        },
        DefFault::Limit(Which::Name, 0),
    ),
    (
        Sketch {
            third_name: Text::Long(256),
            ..PLAIN
        },
        DefFault::Limit(Which::Name, 256),
    ),
    (
        Sketch {
            command: Text::Long(4097),
            ..PLAIN
        },
        DefFault::Limit(Which::Command, 4097),
    ),
    (
        Sketch {
            max_output: 0,
            ..PLAIN
        },
        DefFault::Limit(Which::Output, 0),
    ),
    (
        Sketch {
            layout: Layout::Flat { initial: 0, max: 0 },
            ..PLAIN
        },
        DefFault::Limit(Which::ArraySize, 0),
    ),
    (
        Sketch {
            layout: Layout::Cache(CacheSet { cells: 0, ..CELLS }),
            ..PLAIN
        },
        DefFault::Limit(Which::Cells, 0),
    ),
    (
        Sketch {
            pool_size: 1025,
            ..PLAIN
        },
        DefFault::Limit(Which::PoolSize, 1025),
    ),
    (
        Sketch {
            lifetime: Lifetime { min: 5, max: 4 },
            ..PLAIN
        },
        DefFault::Limit(Which::LifetimeOrder, 5),
    ),
    (
        Sketch {
            layout: Layout::ComplexHashed,
            keys: &[],
            ..PLAIN
        },
        DefFault::NoKey,
    ),
    (
        Sketch {
            layout: Layout::ComplexHashed,
            keys: &[0, 9],
            ..PLAIN
        },
        DefFault::KeyMissing(2),
    ),
    (
        Sketch {
            third_name: Text::Of(b"id"),
            ..PLAIN
        },
        DefFault::DuplicateName(3),
    ),
    (
        Sketch {
            layout: Layout::ComplexHashed,
            keys: &[0, 0],
            ..PLAIN
        },
        DefFault::DuplicateName(1),
    ),
    (
        Sketch {
            key: AttrType {
                base: ColType::UInt32,
                nullable: false,
            },
            ..PLAIN
        },
        DefFault::SimpleKeyType,
    ),
    (
        Sketch {
            key: NULLABLE,
            ..PLAIN
        },
        DefFault::SimpleKeyType,
    ),
    (
        Sketch {
            layout: Layout::ComplexHashed,
            key: NULLABLE,
            ..PLAIN
        },
        DefFault::KeyType(1),
    ),
    (
        Sketch {
            layout: Layout::ComplexRangeHashed(Strategy::Min),
            ..PLAIN
        },
        DefFault::RangeMissing,
    ),
    (
        Sketch {
            layout: Layout::RangeHashed(Strategy::Min),
            range: RangeOf::Columns { start: 1, end: 9 },
            ..PLAIN
        },
        DefFault::RangeMissing,
    ),
    (
        Sketch {
            ends: Ends::Of(ColType::Date, ColType::Date),
            range: BOTH,
            ..PLAIN
        },
        DefFault::RangeUnused,
    ),
    (
        Sketch {
            ends: Ends::Of(ColType::Date, ColType::DateTime),
            range: BOTH,
            ..PLAIN
        },
        DefFault::RangeUnused,
    ),
    (
        Sketch {
            ends: Ends::Of(ColType::Date, ColType::DateTime),
            range: BOTH,
            layout: Layout::RangeHashed(Strategy::Max),
            ..PLAIN
        },
        DefFault::RangeType,
    ),
    (
        Sketch {
            ends: Ends::Of(ColType::UInt64, ColType::UInt64),
            range: RangeOf::Columns { start: 0, end: 4 },
            layout: Layout::RangeHashed(Strategy::Max),
            ..PLAIN
        },
        DefFault::RangeType,
    ),
    (
        Sketch {
            ends: Ends::Of(ColType::Int8, ColType::Int8),
            range: RangeOf::Columns { start: 3, end: 3 },
            layout: Layout::RangeHashed(Strategy::Max),
            ..PLAIN
        },
        DefFault::RangeType,
    ),
    (
        Sketch {
            ends: Ends::Of(ColType::Str, ColType::Str),
            range: BOTH,
            layout: Layout::RangeHashed(Strategy::Max),
            ..PLAIN
        },
        DefFault::RangeType,
    ),
    (
        Sketch {
            third: Third::TextParent,
            ..PLAIN
        },
        DefFault::HierarchyType(3),
    ),
    (
        Sketch {
            third: Third::SecondParent,
            ..PLAIN
        },
        DefFault::HierarchyType(3),
    ),
    (
        Sketch {
            third: Third::NumberAsDefault,
            ..PLAIN
        },
        DefFault::BadDefault(3),
    ),
    (
        Sketch {
            kind: Kind::Pool,
            ..PLAIN
        },
        DefFault::PoolNeedsKeys,
    ),
    (
        Sketch {
            command: Text::Of(b" \t"),
            ..PLAIN
        },
        DefFault::Command,
    ),
    (
        Sketch {
            direct: true,
            command: Text::Of(b" ../cat x"),
            ..PLAIN
        },
        DefFault::Command,
    ),
    (
        Sketch {
            layout: Layout::Direct,
            updates: true,
            ..PLAIN
        },
        DefFault::UpdateLayout,
    ),
];

#[test]
fn each_fault_alone(rt: HostRuntime) -> Result<(), Fail> {
    let alloc = rt.alloc();
    assert_eq!(rt; judged(alloc, &PLAIN)?, Ok(()));
    for (row, (sketch, fault)) in ALONE.iter().enumerate() {
        assert_eq!(rt; judged(alloc, sketch)?, Err(*fault), "row {row}");
    }
    Ok(())
}
