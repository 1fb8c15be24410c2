// Definitions whose quantities are at their bounds.
use super::judged;
use crate::sketch::{CELLS, PLAIN, Sketch, Text};
use crate::{CacheSet, DefFault, Layout, Lifetime, Which};
use std::test::Fail;

/// Quantities at their bounds and one past them, and commands.
static BOUNDS: [(Sketch, Result<(), DefFault>); 31] = [
    (Sketch { more: 61, ..PLAIN }, Ok(())),
    (
        Sketch { more: 62, ..PLAIN },
        Err(DefFault::Limit(Which::Columns, 65)),
    ),
    (
        Sketch {
            layout: Layout::ComplexHashed,
            more: 17,
            keys: &[0, 3, 4, 5, 6, 7, 8, 9, 10, 11, 12, 13, 14, 15, 16, 17],
            ..PLAIN
        },
        Ok(()),
    ),
    (
        Sketch {
            layout: Layout::ComplexHashed,
            more: 17,
            keys: &[0, 3, 4, 5, 6, 7, 8, 9, 10, 11, 12, 13, 14, 15, 16, 17, 18],
            ..PLAIN
        },
        Err(DefFault::Limit(Which::Keys, 17)),
    ),
    (
        Sketch {
            name: Text::Long(1),
            ..PLAIN
        },
        Ok(()),
    ),
    (
        Sketch {
            name: Text::Long(255),
            ..PLAIN
        },
        Ok(()),
    ),
    (
        Sketch {
            name: Text::Long(256),
            ..PLAIN
        },
        Err(DefFault::Limit(Which::Name, 256)),
    ),
    (
        Sketch {
            command: Text::Long(0),
            ..PLAIN
        },
        Err(DefFault::Limit(Which::Command, 0)),
    ),
    (
        Sketch {
            command: Text::Long(1),
            ..PLAIN
        },
        Ok(()),
    ),
    (
        Sketch {
            command: Text::Long(4096),
            ..PLAIN
        },
        Ok(()),
    ),
    (
        Sketch {
            max_output: 1,
            ..PLAIN
        },
        Ok(()),
    ),
    (
        Sketch {
            max_output: 134_217_728,
            ..PLAIN
        },
        Ok(()),
    ),
    (
        Sketch {
            max_output: 134_217_729,
            ..PLAIN
        },
        Err(DefFault::Limit(Which::Output, 134_217_729)),
    ),
    (
        Sketch {
            layout: Layout::Flat { initial: 0, max: 1 },
            ..PLAIN
        },
        Ok(()),
    ),
    (
        Sketch {
            layout: Layout::Flat {
                initial: 0,
                max: 16_777_216,
            },
            ..PLAIN
        },
        Ok(()),
    ),
    (
        Sketch {
            layout: Layout::Flat {
                initial: 0,
                max: 16_777_217,
            },
            ..PLAIN
        },
        Err(DefFault::Limit(Which::ArraySize, 16_777_217)),
    ),
    (
        Sketch {
            layout: Layout::Cache(CacheSet { cells: 1, ..CELLS }),
            ..PLAIN
        },
        Ok(()),
    ),
    (
        Sketch {
            layout: Layout::Cache(CacheSet {
                cells: u64::MAX,
                ..CELLS
            }),
            ..PLAIN
        },
        Ok(()),
    ),
    (
        Sketch {
            pool_size: 0,
            ..PLAIN
        },
        Ok(()),
    ),
    (
        Sketch {
            pool_size: 1024,
            ..PLAIN
        },
        Ok(()),
    ),
    (
        Sketch {
            lifetime: Lifetime { min: 4, max: 4 },
            ..PLAIN
        },
        Ok(()),
    ),
    (
        Sketch {
            lifetime: Lifetime {
                min: 0,
                max: u32::MAX,
            },
            ..PLAIN
        },
        Ok(()),
    ),
    (
        Sketch {
            lifetime: Lifetime {
                min: u32::MAX,
                max: 0,
            },
            ..PLAIN
        },
        Err(DefFault::Limit(Which::LifetimeOrder, 4_294_967_295)),
    ),
    (
        Sketch {
            command: Text::Of(b"\xff"),
            direct: false,
            ..PLAIN
        },
        Err(DefFault::Command),
    ),
    (
        Sketch {
            command: Text::Of(b" \t "),
            direct: false,
            ..PLAIN
        },
        Err(DefFault::Command),
    ),
    (
        Sketch {
            command: Text::Of(b"a/b c"),
            direct: false,
            ..PLAIN
        },
        Ok(()),
    ),
    (
        Sketch {
            command: Text::Of(b"a/b c"),
            direct: true,
            ..PLAIN
        },
        Err(DefFault::Command),
    ),
    (
        Sketch {
            command: Text::Of(b"  . c"),
            direct: true,
            ..PLAIN
        },
        Err(DefFault::Command),
    ),
    (
        Sketch {
            command: Text::Of(b".."),
            direct: true,
            ..PLAIN
        },
        Err(DefFault::Command),
    ),
    (
        Sketch {
            command: Text::Of(b"... c/d"),
            direct: true,
            ..PLAIN
        },
        Ok(()),
    ),
    (
        Sketch {
            command: Text::Of(b"\ta.b"),
            direct: true,
            ..PLAIN
        },
        Ok(()),
    ),
];

#[test]
fn quantities_at_their_bounds(rt: HostRuntime) -> Result<(), Fail> {
    let alloc = rt.alloc();
    for (row, (sketch, answer)) in BOUNDS.iter().enumerate() {
        assert_eq!(rt; judged(alloc, sketch)?, *answer, "row {row}");
    }
    Ok(())
}
