// Definitions in each layout.
use super::{BOTH, judged};
use crate::sketch::{CELLS, Ends, PLAIN, Sketch, TEXT};
use crate::{DefFault, Kind, Layout, Strategy};
use dict_value::{AttrType, ColType};
use std::test::Fail;

/// Each layout with an update, and with keys and ranges.
static LAYOUTS: [(Sketch, Result<(), DefFault>); 18] = [
    (
        Sketch {
            layout: Layout::Flat { initial: 0, max: 1 },
            updates: true,
            ..PLAIN
        },
        Ok(()),
    ),
    (
        Sketch {
            layout: Layout::Hashed,
            updates: true,
            ..PLAIN
        },
        Ok(()),
    ),
    (
        Sketch {
            layout: Layout::SparseHashed,
            updates: true,
            ..PLAIN
        },
        Ok(()),
    ),
    (
        Sketch {
            layout: Layout::HashedArray,
            updates: true,
            ..PLAIN
        },
        Ok(()),
    ),
    (
        Sketch {
            layout: Layout::ComplexHashed,
            updates: true,
            ..PLAIN
        },
        Ok(()),
    ),
    (
        Sketch {
            layout: Layout::ComplexSparseHashed,
            updates: true,
            ..PLAIN
        },
        Ok(()),
    ),
    (
        Sketch {
            layout: Layout::ComplexHashedArray,
            updates: true,
            ..PLAIN
        },
        Ok(()),
    ),
    (
        Sketch {
            layout: Layout::IpTrie,
            updates: true,
            ..PLAIN
        },
        Err(DefFault::SimpleKeyType),
    ),
    (
        Sketch {
            layout: Layout::Cache(CELLS),
            updates: true,
            ..PLAIN
        },
        Err(DefFault::UpdateLayout),
    ),
    (
        Sketch {
            layout: Layout::ComplexCache(CELLS),
            updates: true,
            ..PLAIN
        },
        Err(DefFault::UpdateLayout),
    ),
    (
        Sketch {
            layout: Layout::Direct,
            updates: true,
            ..PLAIN
        },
        Err(DefFault::UpdateLayout),
    ),
    (
        Sketch {
            layout: Layout::ComplexDirect,
            updates: true,
            ..PLAIN
        },
        Err(DefFault::UpdateLayout),
    ),
    (
        Sketch {
            layout: Layout::Direct,
            kind: Kind::Pool,
            ..PLAIN
        },
        Ok(()),
    ),
    (
        Sketch {
            layout: Layout::RangeHashed(Strategy::Min),
            ends: Ends::Of(ColType::Int64, ColType::Int64),
            range: BOTH,
            ..PLAIN
        },
        Ok(()),
    ),
    (
        Sketch {
            layout: Layout::IpTrie,
            ends: Ends::Of(ColType::Int64, ColType::Int64),
            range: BOTH,
            ..PLAIN
        },
        Err(DefFault::SimpleKeyType),
    ),
    (
        Sketch {
            layout: Layout::IpTrie,
            key: TEXT,
            ends: Ends::Of(ColType::Int64, ColType::Int64),
            range: BOTH,
            ..PLAIN
        },
        Err(DefFault::RangeUnused),
    ),
    (
        Sketch {
            layout: Layout::IpTrie,
            key: TEXT,
            ..PLAIN
        },
        Ok(()),
    ),
    (
        Sketch {
            layout: Layout::IpTrie,
            key: AttrType {
                base: ColType::Str,
                nullable: true,
            },
            ..PLAIN
        },
        Err(DefFault::SimpleKeyType),
    ),
];

#[test]
fn layouts_with_their_keys_and_updates(rt: HostRuntime) -> Result<(), Fail> {
    let alloc = rt.alloc();
    for (row, (sketch, answer)) in LAYOUTS.iter().enumerate() {
        assert_eq!(rt; judged(alloc, sketch)?, *answer, "row {row}");
    }
    Ok(())
}
