// A definition, its copy, and others.
use crate::{copy_definition, same_definition};
use dict_schema::{Column, Definition, Kind, Layout, Lifetime, RangeOf, SourceOf, Update};
use dict_value::{AttrType, Bytes, ColType, Format, ListOf, NoMemory, Value};
use std::alloc::Global;
use std::test::Fail;

/// What differs between the definitions: a name, a lag, a default, a lifetime and a comment.
#[derive(Clone, Copy)]
struct Sketch {
    name: &'static [u8],
    lag: u32,
    default: u64,
    lifetime: u32,
    comment: &'static [u8],
}

const SKETCH: Sketch = Sketch {
    name: b"d",
    lag: 5,
    default: 9,
    lifetime: 10,
    comment: b"",
};

static OTHERS: [Sketch; 5] = [
    Sketch {
        name: b"e",
        ..SKETCH
    },
    Sketch { lag: 6, ..SKETCH },
    Sketch {
        default: 8,
        ..SKETCH
    },
    Sketch {
        lifetime: 11,
        ..SKETCH
    },
    Sketch {
        comment: b"c",
        ..SKETCH
    },
];

fn definition_of(alloc: Global, sketch: &Sketch) -> Result<Definition, NoMemory> {
    let mut columns = ListOf::new(alloc);
    columns.push(Column {
        name: Bytes::copy_of(alloc, b"id")?,
        ty: AttrType {
            base: ColType::UInt64,
            nullable: false,
        },
        default: Value::U(sketch.default),
        hierarchical: false,
        object_id: false,
        injective: false,
    })?;
    let mut keys = ListOf::new(alloc);
    keys.push(0)?;
    Ok(Definition {
        name: Bytes::copy_of(alloc, sketch.name)?,
        columns,
        keys,
        source: SourceOf {
            kind: Kind::Executable,
            command: Bytes::copy_of(alloc, b"c")?,
            format: Format::Tab,
            direct: false,
            implicit: false,
            header: false,
            read_ms: 10_000,
            write_ms: 10_000,
            end_s: 10,
            pool_size: 16,
            execution_s: 10,
            update: Update::Field {
                name: Bytes::copy_of(alloc, b"ts")?,
                lag: sketch.lag,
            },
        },
        layout: Layout::Hashed,
        lifetime: Lifetime {
            min: sketch.lifetime,
            max: sketch.lifetime,
        },
        range: RangeOf::None,
        max_output: 100,
        comment: Bytes::copy_of(alloc, sketch.comment)?,
    })
}

#[test]
fn a_copy_is_the_same_and_others_differ(rt: HostRuntime) -> Result<(), Fail> {
    let alloc = rt.alloc();
    let d = definition_of(alloc, &SKETCH)?;
    let copy = copy_definition(alloc, &d)?;
    assert!(rt; same_definition(&copy, &d));
    for other in &OTHERS {
        let other = definition_of(alloc, other)?;
        assert!(rt; !same_definition(&copy, &other));
    }
    Ok(())
}
