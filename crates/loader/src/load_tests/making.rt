// Definitions and children of tests, from plain data.
ghost use Rattle.std.specs.Prelude.{◌≡◌, ◌<◌, All, IfOk, IsTrue, Some, false, slice_get};
ghost use Rattle.dict_schema.specs.Parts.{is_keyed_layout};
ghost use Rattle.dict_schema.specs.Sound.{IsSound, IsSoundBase, IsSoundType};

use child_io::{MemorySpawner, Script};
use dict_schema::{
    Column, Definition, Kind, Layout, Lifetime, RangeOf, SourceOf, Update, check, is_keyed,
};
use dict_value::{AttrType, Bytes, ColType, Exit, Format, ListOf, NoMemory, default_of};
use std::alloc::Global;
use std::test::Fail;

/// What differs between the definitions of tests: the type of the key `id`, the layout, the format, the lifetime, the
/// lag of an update field `ts` where there is one, whether the command is run without a shell, and the limit of the
/// output. Each has a second column `x` of Strings, and the command `c`.
#[derive(Clone, Copy)]
pub(super) struct Sketch {
    pub key: ColType,
    pub layout: Layout,
    pub format: Format,
    pub lifetime: Lifetime,
    pub lag: Option<u32>,
    pub direct: bool,
    pub max_output: u32,
}

/// FLAT, and loaded once.
pub(super) const FLAT: Sketch = Sketch {
    key: ColType::UInt64,
    layout: Layout::Flat {
        initial: 1024,
        max: 500_000,
    },
    format: Format::Tab,
    lifetime: Lifetime { min: 0, max: 0 },
    lag: None,
    direct: false,
    max_output: 67_108_864,
};

/// How a child ends that has printed its output.
#[derive(Clone, Copy)]
pub(super) enum Ends {
    /// None was started.
    NotStarted,
    /// The read of this number fails, from 0.
    Cut(u64),
    /// Nothing comes in time at the read of this number.
    TimedOut(u64),
    WaitFails,
    Killed,
    With(i32),
}

fn column_of(alloc: Global, name: &'static [u8], base: ColType) -> Result<Column, NoMemory> {
    let ty = AttrType {
        base,
        nullable: false,
    };
    Ok(Column {
        name: Bytes::copy_of(alloc, name)?,
        ty,
        default: default_of(alloc, &ty),
        hierarchical: false,
        object_id: false,
        injective: false,
    })
}

fn update_of(alloc: Global, lag: Option<u32>) -> Result<Update, NoMemory> {
    match lag {
        Some(lag) => Ok(Update::Field {
            name: Bytes::copy_of(alloc, b"ts")?,
            lag,
        }),
        None => Ok(Update::None),
    }
}

fn source_of(alloc: Global, sketch: &Sketch) -> Result<SourceOf, NoMemory> {
    Ok(SourceOf {
        kind: Kind::Executable,
        command: Bytes::copy_of(alloc, b"c")?,
        format: sketch.format,
        direct: sketch.direct,
        implicit: false,
        header: false,
        read_ms: 10_000,
        write_ms: 10_000,
        end_s: 10,
        pool_size: 16,
        execution_s: 10,
        update: update_of(alloc, sketch.lag)?,
    })
}

fn made_of(alloc: Global, sketch: &Sketch) -> Result<Definition, NoMemory> {
    let mut columns = ListOf::new(alloc);
    columns.push(column_of(alloc, b"id", sketch.key)?)?;
    columns.push(column_of(alloc, b"x", ColType::Str)?)?;
    let mut keys = ListOf::new(alloc);
    keys.push(0)?;
    Ok(Definition {
        name: Bytes::copy_of(alloc, b"d")?,
        columns,
        keys,
        source: source_of(alloc, sketch)?,
        layout: sketch.layout,
        lifetime: sketch.lifetime,
        range: RangeOf::None,
        max_output: sketch.max_output,
        comment: Bytes::new(alloc),
    })
}

fn is_sound_base(base: ColType) -> bool
    ensures { IsTrue result → IsSoundBase base }
{
    match base {
        ColType::Decimal(_, _) => false,
        _ => true,
    }
}

fn has_sound_types(columns: &[Column]) -> bool
    ensures { IsTrue result → All (λ column. IsSoundType column.ty) columns.now }
{
    for place in 0..columns.len() {
        if !is_sound_base(columns[place].ty.base) {
            return false;
        }
    }
    true
}

/// The definition of a sketch; one that can't be loaded is none.
pub(super) fn definition_of(alloc: Global, sketch: &Sketch) -> Result<Definition, Fail>
    ensures sound { IfOk result IsSound }
    ensures kept { IfOk result (λ d. is_keyed_layout d.layout ≡ false) }
{
    let d = made_of(alloc, sketch)?;
    if is_keyed(&d) || !has_sound_types(d.columns.as_slice()) {
        return Err("no definition of a version".into());
    }
    match check(&d) {
        Ok(()) => Ok(d),
        Err(_) => Err("no definition".into()),
    }
}

fn calls_of(alloc: Global, call: Option<u64>) -> Result<ListOf<u64>, NoMemory> {
    let mut calls = ListOf::new(alloc);
    if let Some(call) = call {
        calls.push(call)?;
    }
    Ok(calls)
}

/// A child that prints this in a piece of three bytes and the rest, and ends so.
pub(super) fn script_of(alloc: Global, prints: Bytes, ends: Ends) -> Result<Script, Fail> {
    let (failing, late) = match ends {
        Ends::Cut(read) => (Some(read), None),
        Ends::TimedOut(read) => (None, Some(read)),
        _ => (None, None),
    };
    Ok(Script {
        start_fails: matches!(ends, Ends::NotStarted),
        output: prints,
        sizes: ListOf::from_vec(Vec::from_slice(alloc, &[3])?),
        failing_reads: calls_of(alloc, failing)?,
        timed_out_reads: calls_of(alloc, late)?,
        failing_writes: ListOf::new(alloc),
        wait_fails: matches!(ends, Ends::WaitFails),
        after_close: true,
        exit: match ends {
            Ends::With(status) => Exit::Code(status),
            _ => Exit::Killed,
        },
        room: 0,
        accepted: ListOf::new(alloc),
    })
}

/// What starts these children, in turn.
pub(super) fn spawner_of(
    alloc: Global,
    children: &[(&'static [u8], Ends)],
) -> Result<MemorySpawner, Fail> {
    let mut scripts = ListOf::new(alloc);
    for (prints, ends) in children {
        scripts.push(script_of(alloc, Bytes::copy_of(alloc, prints)?, *ends)?)?;
    }
    Ok(MemorySpawner::new(alloc, scripts))
}
