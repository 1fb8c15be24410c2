// Definitions with two faults that stand side by side in the table.
use super::{BOTH, NULLABLE, judged};
use crate::sketch::{CELLS, Ends, PLAIN, Sketch, Text, Third};
use crate::{CacheSet, DefFault, Kind, Layout, Lifetime, Strategy, Which};
use dict_value::{AttrType, ColType};
use std::test::Fail;

/// Two faults that stand side by side in the table and can stand together; the earlier one is told.
static BESIDE: [(Sketch, DefFault); 25] = [
    (
        Sketch {
            layout: Layout::ComplexHashed,
            more: 79,
            keys: &[0, 3, 4, 5, 6, 7, 8, 9, 10, 11, 12, 13, 14, 15, 16, 17, 18],
            ..PLAIN
        },
        DefFault::Limit(Which::Columns, 82),
    ),
    (
        Sketch {
            name: Text::Long(0),
            layout: Layout::ComplexHashed,
            more: 17,
            keys: &[0, 3, 4, 5, 6, 7, 8, 9, 10, 11, 12, 13, 14, 15, 16, 17, 18],
            ..PLAIN
        },
        DefFault::Limit(Which::Keys, 17),
    ),
    (
        Sketch {
            third_name: Text::Long(256),
            name: Text::Long(0),
            ..PLAIN
        },
        DefFault::Limit(Which::Name, 0),
    ),
    (
        Sketch {
            command: Text::Long(4097),
            third_name: Text::Long(256),
            ..PLAIN
        },
        DefFault::Limit(Which::Name, 256),
    ),
    (
        Sketch {
            max_output: 0,
            command: Text::Long(4097),
            ..PLAIN
        },
        DefFault::Limit(Which::Command, 4097),
    ),
    (
        Sketch {
            layout: Layout::Flat { initial: 0, max: 0 },
            max_output: 0,
            ..PLAIN
        },
        DefFault::Limit(Which::Output, 0),
    ),
    (
        Sketch {
            pool_size: 1025,
            layout: Layout::Flat { initial: 0, max: 0 },
            ..PLAIN
        },
        DefFault::Limit(Which::ArraySize, 0),
    ),
    (
        Sketch {
            pool_size: 1025,
            layout: Layout::Cache(CacheSet { cells: 0, ..CELLS }),
            ..PLAIN
        },
        DefFault::Limit(Which::Cells, 0),
    ),
    (
        Sketch {
            lifetime: Lifetime { min: 5, max: 4 },
            pool_size: 1025,
            ..PLAIN
        },
        DefFault::Limit(Which::PoolSize, 1025),
    ),
    (
        Sketch {
            layout: Layout::ComplexHashed,
            keys: &[],
            lifetime: Lifetime { min: 5, max: 4 },
            ..PLAIN
        },
        DefFault::Limit(Which::LifetimeOrder, 5),
    ),
    (
        Sketch {
            third_name: Text::Of(b"id"),
            layout: Layout::ComplexHashed,
            keys: &[],
            ..PLAIN
        },
        DefFault::NoKey,
    ),
    (
        Sketch {
            third_name: Text::Of(b"id"),
            layout: Layout::ComplexHashed,
            keys: &[0, 9],
            ..PLAIN
        },
        DefFault::KeyMissing(2),
    ),
    (
        Sketch {
            key: AttrType {
                base: ColType::UInt32,
                nullable: false,
            },
            third_name: Text::Of(b"id"),
            ..PLAIN
        },
        DefFault::DuplicateName(3),
    ),
    (
        Sketch {
            key: AttrType {
                base: ColType::UInt32,
                nullable: false,
            },
            layout: Layout::ComplexHashed,
            keys: &[0, 0],
            ..PLAIN
        },
        DefFault::DuplicateName(1),
    ),
    (
        Sketch {
            third_name: Text::Of(b"id"),
            layout: Layout::ComplexHashed,
            keys: &[0, 0],
            ..PLAIN
        },
        DefFault::DuplicateName(1),
    ),
    (
        Sketch {
            ends: Ends::Of(ColType::Date, ColType::Date),
            range: BOTH,
            key: AttrType {
                base: ColType::UInt32,
                nullable: false,
            },
            ..PLAIN
        },
        DefFault::SimpleKeyType,
    ),
    (
        Sketch {
            layout: Layout::ComplexRangeHashed(Strategy::Min),
            key: NULLABLE,
            ..PLAIN
        },
        DefFault::KeyType(1),
    ),
    (
        Sketch {
            third: Third::TextParent,
            layout: Layout::ComplexRangeHashed(Strategy::Min),
            ..PLAIN
        },
        DefFault::RangeMissing,
    ),
    (
        Sketch {
            third: Third::TextParent,
            ends: Ends::Of(ColType::Date, ColType::Date),
            range: BOTH,
            ..PLAIN
        },
        DefFault::RangeUnused,
    ),
    (
        Sketch {
            third: Third::TextParent,
            ends: Ends::Of(ColType::Date, ColType::DateTime),
            range: BOTH,
            ..PLAIN
        },
        DefFault::RangeUnused,
    ),
    (
        Sketch {
            third: Third::TextParent,
            ends: Ends::Of(ColType::Date, ColType::DateTime),
            range: BOTH,
            layout: Layout::RangeHashed(Strategy::Max),
            ..PLAIN
        },
        DefFault::RangeType,
    ),
    (
        Sketch {
            third: Third::NumberParent,
            ..PLAIN
        },
        DefFault::HierarchyType(3),
    ),
    (
        Sketch {
            kind: Kind::Pool,
            third: Third::NumberAsDefault,
            ..PLAIN
        },
        DefFault::BadDefault(3),
    ),
    (
        Sketch {
            command: Text::Of(b" \t"),
            kind: Kind::Pool,
            ..PLAIN
        },
        DefFault::PoolNeedsKeys,
    ),
    (
        Sketch {
            layout: Layout::Direct,
            updates: true,
            command: Text::Of(b" \t"),
            ..PLAIN
        },
        DefFault::Command,
    ),
];

#[test]
fn the_earlier_of_two_faults(rt: HostRuntime) -> Result<(), Fail> {
    let alloc = rt.alloc();
    for (row, (sketch, fault)) in BESIDE.iter().enumerate() {
        assert_eq!(rt; judged(alloc, sketch)?, Err(*fault), "row {row}");
    }
    Ok(())
}
