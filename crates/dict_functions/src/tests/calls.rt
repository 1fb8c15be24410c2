// Replies of functions.
ghost use Rattle.std.specs.Prelude.{◌≡◌, All, IfOk, IsTrue};
ghost use Rattle.dict_schema.specs.Sound.{IsSoundFunction, IsSoundType};
ghost use Rattle.dict_value.specs.Values.{FitsColumn};
ghost use Rattle.dict_functions.specs.Calls.{IsCall};

use crate::tests::keyed::repeated;
use crate::tests::making::{Asking, asked_of, is_sound_base, is_text, source_of};
use crate::{answer_function, rows_of};
use dict_schema::{Arg, FunctionDef, check_function};
use dict_value::{AttrType, Bytes, ColType, Format, ListOf, NoMemory, Value, fits_column};
use packed_rows::{Cell, value_of};
use std::alloc::Global;
use std::test::Fail;
use wire_text::{Asked, Reply, Verb};

/// What differs between the functions of tests.
struct FunctionSketch {
    arguments: &'static [AttrType],
    returns: AttrType,
    format: Format,
}

/// A function, and what it is asked, with the values that it gave.
struct Calling {
    sketch: FunctionSketch,
    asked: &'static [(Asking, &'static [Cell<'static>])],
}

const SMALL: AttrType = AttrType {
    base: ColType::UInt8,
    nullable: false,
};

const TEXT: AttrType = AttrType {
    base: ColType::Str,
    nullable: false,
};

const MAYBE_TEXT: AttrType = AttrType {
    base: ColType::Str,
    nullable: true,
};

const DECIMAL: AttrType = AttrType {
    base: ColType::Decimal(5, 2),
    nullable: false,
};

const MAYBE_DECIMAL: AttrType = AttrType {
    base: ColType::Decimal(5, 2),
    nullable: true,
};

fn arguments_of(alloc: Global, types: &[AttrType]) -> Result<ListOf<Arg>, NoMemory> {
    let mut arguments = ListOf::new(alloc);
    for (place, ty) in types.iter().enumerate() {
        arguments.push(Arg {
            name: Bytes::copy_of(alloc, &[b'a' + (place % 26) as u8])?,
            ty: *ty,
        })?;
    }
    Ok(arguments)
}

fn has_sound_types(arguments: &[Arg]) -> bool
    ensures { IsTrue result → All (λ argument. IsSoundType argument.ty) arguments.now }
{
    for place in 0..arguments.len() {
        if !is_sound_base(arguments[place].ty.base) {
            return false;
        }
    }
    true
}

/// Whether no fault stands in a function.
fn is_sound_function(f: &FunctionDef) -> bool
    ensures { IsTrue result → IsSoundFunction f.now }
{
    match check_function(f) {
        Ok(()) => has_sound_types(f.args.as_slice()) && is_sound_base(f.returns.base),
        Err(_) => false,
    }
}

/// The function of a sketch.
fn function_of(alloc: Global, sketch: &FunctionSketch) -> Result<FunctionDef, Fail>
    ensures { IfOk result IsSoundFunction }
{
    let f = FunctionDef {
        name: Bytes::copy_of(alloc, b"f")?,
        args: arguments_of(alloc, sketch.arguments)?,
        returns: sketch.returns,
        source: source_of(alloc, sketch.format, false)?,
        max_output: 67_108_864,
    };
    if !is_sound_function(&f) {
        return Err("no function".into());
    }
    Ok(f)
}

/// What the lines of a call ask.
fn call_of(alloc: Global, first: &[u8], more: &[&[u8]]) -> Result<Asked, Fail>
    ensures { IfOk result IsCall }
{
    let asked = asked_of(alloc, first, more)?;
    match asked.verb {
        Verb::Call => Ok(asked),
        _ => Err("no call".into()),
    }
}

/// Values that a function may have given.
fn given_values(
    alloc: Global,
    ty: &AttrType,
    cells: &[Cell<'static>],
) -> Result<ListOf<Value>, NoMemory>
    ensures { IfOk result (All (FitsColumn ty.now)) }
{
    let mut values = ListOf::new(alloc);
    for cell in cells {
        let value = value_of(alloc, cell)?;
        if !fits_column(ty, &value) {
            return Err(NoMemory);
        }
        values.push(value)?;
    }
    Ok(values)
}

/// The reply to a call, if its function gives just this for its arguments.
fn call_reply(
    alloc: Global,
    f: &FunctionDef,
    q: &Asked,
    cells: &[Cell<'static>],
) -> Result<Reply, Fail>
    requires call { IsCall q.now }
    requires sound { IsSoundFunction f.now }
{
    let rows = match rows_of(alloc, f, q) {
        Ok(rows) => rows,
        Err(fault) => return Ok(Reply::Refused(fault)),
    };
    let values = given_values(alloc, &f.returns, cells)?;
    if values.len() != rows.len() {
        return Err("another number of values than of rows".into());
    }
    Ok(answer_function(alloc, f, q, &values))
}

/// The place of the first call that is answered otherwise.
fn first_wrong(alloc: Global, calling: &Calling) -> Result<Option<usize>, Fail> {
    let f = function_of(alloc, &calling.sketch)?;
    for (place, ((first, more, wanted), cells)) in calling.asked.iter().enumerate() {
        let asked = call_of(alloc, first, more)?;
        let reply = call_reply(alloc, &f, &asked, cells)?;
        if !is_text(alloc, &reply, wanted)? {
            return Ok(Some(place));
        }
    }
    Ok(None)
}

static ONE_NUMBER: Calling = Calling {
    sketch: FunctionSketch {
        arguments: &[SMALL],
        returns: TEXT,
        format: Format::Tab,
    },
    asked: &[
        ((b"call\tf\t5", &[], b"OK\tf\tfive"), &[Cell::S(b"five")]),
        ((b"call\tf\t+5", &[], b"OK\tf\ta\\nb"), &[Cell::S(b"a\nb")]),
        ((b"call\tf\t256", &[], b"ERR\t10\t1"), &[]),
        ((b"call\tf\t5\t5", &[], b"ERR\t10\t1"), &[]),
        ((b"call\tf\t\\N", &[], b"ERR\t10\t1"), &[]),
        ((b"call\tf\tq", &[], b"ERR\t10\t1"), &[]),
        (
            (b"many\t2\tcall\tf", &[b"5", b"6"], b"OK\tf\t2\nfive\n"),
            &[Cell::S(b"five"), Cell::S(b"")],
        ),
        (
            (b"many\t3\tcall\tf", &[b"5", b"", b"q"], b"ERR\t10\t2"),
            &[],
        ),
        ((b"many\t0\tcall\tf", &[], b"OK\tf\t0"), &[]),
    ],
};

static SOME_NULL: Calling = Calling {
    sketch: FunctionSketch {
        arguments: &[MAYBE_TEXT, DECIMAL],
        returns: MAYBE_DECIMAL,
        format: Format::Csv,
    },
    asked: &[
        ((b"call\tf\t\\N\t1.5", &[], b"OK\tf\t\\N"), &[Cell::Null]),
        (
            (b"call\tf\t\t-1.509", &[], b"OK\tf\t-1.5"),
            &[Cell::Dec(-150)],
        ),
        ((b"call\tf\t\t\\N", &[], b"ERR\t10\t1"), &[]),
        ((b"call\tf\t1.5", &[], b"ERR\t10\t1"), &[]),
    ],
};

static ONE_TEXT: FunctionSketch = FunctionSketch {
    arguments: &[TEXT],
    returns: TEXT,
    format: Format::Tab,
};

#[test]
fn one_number(rt: HostRuntime) -> Result<(), Fail> {
    assert_eq!(rt; first_wrong(rt.alloc(), &ONE_NUMBER)?, None);
    Ok(())
}

#[test]
fn null_arguments(rt: HostRuntime) -> Result<(), Fail> {
    assert_eq!(rt; first_wrong(rt.alloc(), &SOME_NULL)?, None);
    Ok(())
}

/// With its line feed a row of arguments has at most 32,768 bytes.
#[test]
fn long_arguments(rt: HostRuntime) -> Result<(), Fail> {
    let alloc = rt.alloc();
    let f = function_of(alloc, &ONE_TEXT)?;
    let most = repeated(alloc, b"call\tf\t", b"a", 32_767)?;
    let asked = call_of(alloc, most.as_slice(), &[])?;
    let reply = call_reply(alloc, &f, &asked, &[Cell::S(b"b")])?;
    assert!(rt; is_text(alloc, &reply, b"OK\tf\tb")?);
    let long = repeated(alloc, b"call\tf\t", b"a", 32_768)?;
    let asked = call_of(alloc, long.as_slice(), &[])?;
    let reply = call_reply(alloc, &f, &asked, &[])?;
    assert!(rt; is_text(alloc, &reply, b"ERR\t14")?);
    Ok(())
}
