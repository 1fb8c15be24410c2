// Definitions for tests.
use crate::{
    Arg, CacheSet, Column, Definition, FunctionDef, Kind, Layout, Lifetime, RangeOf, SourceOf,
    Update,
};
use dict_value::{AttrType, Bytes, ColType, Format, ListOf, NoMemory, Value, default_of};
use std::alloc::Global;

pub(crate) const NUMBER: AttrType = AttrType {
    base: ColType::UInt64,
    nullable: false,
};

pub(crate) const TEXT: AttrType = AttrType {
    base: ColType::Str,
    nullable: false,
};

pub(crate) const CELLS: CacheSet = CacheSet {
    cells: 1,
    expired: false,
    queue: 100_000,
};

/// A text of a definition.
#[derive(Clone, Copy)]
pub(crate) enum Text {
    /// So many letters.
    Long(usize),
    Of(&'static [u8]),
}

/// The last of the three columns.
#[derive(Clone, Copy)]
pub(crate) enum Third {
    Text,
    /// A text that names a parent.
    TextParent,
    /// A number that names a parent, as `up` does.
    SecondParent,
    /// A text with a number as its default.
    NumberAsDefault,
    /// A text that names a parent, with a number as its default.
    NumberParent,
}

/// Two more columns.
#[derive(Clone, Copy)]
pub(crate) enum Ends {
    None,
    Of(ColType, ColType),
}

/// What differs between the definitions of tests. As it is plain data, a table of sketches is a constant,
/// which is far cheaper to prove than as many definitions changed step by step.
#[derive(Clone, Copy)]
pub(crate) struct Sketch {
    pub name: Text,
    pub key: AttrType,
    pub third: Third,
    pub third_name: Text,
    /// How many more text columns there are.
    pub more: u8,
    pub ends: Ends,
    pub keys: &'static [u8],
    pub layout: Layout,
    pub range: RangeOf,
    pub kind: Kind,
    pub command: Text,
    pub direct: bool,
    pub pool_size: u32,
    pub updates: bool,
    pub lifetime: Lifetime,
    pub max_output: u32,
}

/// The sketch of [`hashed`].
pub(crate) const PLAIN: Sketch = Sketch {
    name: Text::Of(b"d"),
    key: NUMBER,
    third: Third::Text,
    third_name: Text::Of(b"x"),
    more: 0,
    ends: Ends::None,
    keys: &[0],
    layout: Layout::Hashed,
    range: RangeOf::None,
    kind: Kind::Executable,
    command: Text::Of(b"cat x"),
    direct: false,
    pool_size: 16,
    updates: false,
    lifetime: Lifetime { min: 0, max: 0 },
    max_output: 67_108_864,
};

/// The bytes of a text.
pub(crate) fn bytes_of(alloc: Global, text: Text) -> Result<Bytes, NoMemory> {
    match text {
        Text::Of(bytes) => Bytes::copy_of(alloc, bytes),
        Text::Long(length) => match Vec::from_elem(alloc, b'a', length) {
            Ok(items) => Ok(Bytes::from_vec(items)),
            Err(_) => Err(NoMemory),
        },
    }
}

fn third_of(alloc: Global, sketch: &Sketch) -> Result<Column, NoMemory> {
    let (ty, hierarchical) = match sketch.third {
        Third::Text | Third::NumberAsDefault => (TEXT, false),
        Third::TextParent | Third::NumberParent => (TEXT, true),
        Third::SecondParent => (NUMBER, true),
    };
    let default = match sketch.third {
        Third::NumberAsDefault | Third::NumberParent => Value::U(1),
        _ => default_of(alloc, &ty),
    };
    Ok(Column {
        name: bytes_of(alloc, sketch.third_name)?,
        ty,
        default,
        hierarchical,
        object_id: false,
        injective: false,
    })
}

/// Appends the columns behind the third: texts `c00`, `c01`, .., then `from` and `to`.
fn push_more(alloc: Global, columns: &mut ListOf<Column>, sketch: &Sketch) -> Result<(), NoMemory> {
    for number in 0..sketch.more {
        let name = [b'c', b'0' + number / 10 % 10, b'0' + number % 10];
        columns.push(column(alloc, &name, TEXT, false)?)?;
    }
    if let Ends::Of(first, last) = sketch.ends {
        let first = AttrType {
            base: first,
            nullable: false,
        };
        let last = AttrType {
            base: last,
            nullable: true,
        };
        columns.push(column(alloc, b"from", first, false)?)?;
        columns.push(column(alloc, b"to", last, false)?)?;
    }
    Ok(())
}

fn source_of(alloc: Global, sketch: &Sketch) -> Result<SourceOf, NoMemory> {
    let update = if sketch.updates {
        Update::Field {
            name: Bytes::copy_of(alloc, b"since")?,
            lag: 1,
        }
    } else {
        Update::None
    };
    Ok(SourceOf {
        kind: sketch.kind,
        command: bytes_of(alloc, sketch.command)?,
        direct: sketch.direct,
        pool_size: sketch.pool_size,
        update,
        ..source(alloc)?
    })
}

/// The definition of a sketch.
pub(crate) fn definition_of(alloc: Global, sketch: &Sketch) -> Result<Definition, NoMemory> {
    let mut columns = ListOf::new(alloc);
    columns.push(column(alloc, b"id", sketch.key, false)?)?;
    columns.push(column(alloc, b"up", NUMBER, true)?)?;
    columns.push(third_of(alloc, sketch)?)?;
    push_more(alloc, &mut columns, sketch)?;
    let mut keys = ListOf::new(alloc);
    for key in sketch.keys {
        keys.push(*key)?;
    }
    Ok(Definition {
        name: bytes_of(alloc, sketch.name)?,
        columns,
        keys,
        source: source_of(alloc, sketch)?,
        layout: sketch.layout,
        lifetime: sketch.lifetime,
        range: sketch.range,
        max_output: sketch.max_output,
        comment: Bytes::new(alloc),
    })
}

/// A column with its type's default.
pub(crate) fn column(
    alloc: Global,
    name: &[u8],
    ty: AttrType,
    hierarchical: bool,
) -> Result<Column, NoMemory> {
    Ok(Column {
        name: Bytes::copy_of(alloc, name)?,
        ty,
        default: default_of(alloc, &ty),
        hierarchical,
        object_id: false,
        injective: false,
    })
}

/// An executable source.
pub(crate) fn source(alloc: Global) -> Result<SourceOf, NoMemory> {
    Ok(SourceOf {
        kind: Kind::Executable,
        command: Bytes::copy_of(alloc, b"cat x")?,
        format: Format::Tab,
        direct: false,
        implicit: false,
        header: false,
        read_ms: 10_000,
        write_ms: 10_000,
        end_s: 10,
        pool_size: 16,
        execution_s: 10,
        update: Update::None,
    })
}

/// Columns `id`, `up` and `x`, of which `id` is the key and `up` names a parent, in the layout HASHED.
pub(crate) fn hashed(alloc: Global) -> Result<Definition, NoMemory> {
    definition_of(alloc, &PLAIN)
}

/// A function of one number.
pub(crate) fn function(alloc: Global) -> Result<FunctionDef, NoMemory> {
    let mut args = ListOf::new(alloc);
    args.push(Arg {
        name: Bytes::copy_of(alloc, b"a")?,
        ty: NUMBER,
    })?;
    Ok(FunctionDef {
        name: Bytes::copy_of(alloc, b"f")?,
        args,
        returns: TEXT,
        source: source(alloc)?,
        max_output: 67_108_864,
    })
}
