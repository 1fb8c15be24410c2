// Functions with each fault, and at their bounds.
use crate::sketch::{Text, bytes_of, function};
use crate::{Arg, DefFault, FunctionDef, Update, Which, check_function};
use dict_value::{AttrType, Bytes, ColType, ListOf, NoMemory};
use std::alloc::Global;
use std::test::Fail;

/// What is made wrong of a function, in the order of the table.
#[derive(Clone, Copy, Debug)]
enum WrongFunction {
    Arguments,
    OwnName,
    ArgumentName,
    LongCommand,
    Output,
    PoolSize,
    NoArguments,
    DuplicateName,
    Command,
    Update,
}

fn make_function(alloc: Global, f: &mut FunctionDef, wrong: WrongFunction) -> Result<(), NoMemory> {
    match wrong {
        WrongFunction::Arguments => {
            for name in b'b'..=b'q' {
                push_argument(alloc, f, &[name])?;
            }
        }
        WrongFunction::OwnName => f.name = bytes_of(alloc, Text::Long(256))?,
        WrongFunction::ArgumentName => push_argument(alloc, f, b"")?,
        WrongFunction::LongCommand => f.source.command = bytes_of(alloc, Text::Long(4097))?,
        WrongFunction::Output => f.max_output = 134_217_729,
        WrongFunction::PoolSize => f.source.pool_size = 1025,
        WrongFunction::NoArguments => f.args = ListOf::new(alloc),
        WrongFunction::DuplicateName => push_argument(alloc, f, b"a")?,
        WrongFunction::Command => {
            f.source.direct = true;
            f.source.command = Bytes::copy_of(alloc, b". x")?;
        }
        WrongFunction::Update => {
            f.source.update = Update::Field {
                name: Bytes::new(alloc),
                lag: 0,
            };
        }
    }
    Ok(())
}

#[test]
fn functions_with_each_fault(rt: HostRuntime) -> Result<(), Fail> {
    let alloc = rt.alloc();
    assert_eq!(rt; check_function(&function(alloc)?), Ok(()));
    let table = [
        (WrongFunction::Arguments, DefFault::Limit(Which::Args, 17)),
        (WrongFunction::OwnName, DefFault::Limit(Which::Name, 256)),
        (WrongFunction::ArgumentName, DefFault::Limit(Which::Name, 0)),
        (
            WrongFunction::LongCommand,
            DefFault::Limit(Which::Command, 4097),
        ),
        (
            WrongFunction::Output,
            DefFault::Limit(Which::Output, 134_217_729),
        ),
        (
            WrongFunction::PoolSize,
            DefFault::Limit(Which::PoolSize, 1025),
        ),
        (WrongFunction::NoArguments, DefFault::NoArguments),
        (WrongFunction::DuplicateName, DefFault::DuplicateName(2)),
        (WrongFunction::Command, DefFault::Command),
        (WrongFunction::Update, DefFault::UpdateLayout),
    ];
    for (wrong, fault) in table {
        let mut f = function(alloc)?;
        make_function(alloc, &mut f, wrong)?;
        assert_eq!(rt; check_function(&f), Err(fault), "{wrong:?}");
    }
    // Each stands beside the next one that can, and is told first.
    for ((wrong, fault), (next, _)) in table.into_iter().zip(table.into_iter().skip(1)) {
        let mut f = function(alloc)?;
        make_function(alloc, &mut f, next)?;
        make_function(alloc, &mut f, wrong)?;
        assert_eq!(rt; check_function(&f), Err(fault), "{wrong:?} and {next:?}");
    }
    Ok(())
}

#[test]
fn functions_at_their_bounds(rt: HostRuntime) -> Result<(), Fail> {
    let alloc = rt.alloc();
    let mut f = function(alloc)?;
    for name in b'b'..=b'p' {
        push_argument(alloc, &mut f, &[name])?;
    }
    f.name = bytes_of(alloc, Text::Long(255))?;
    f.source.command = bytes_of(alloc, Text::Long(4096))?;
    f.source.pool_size = 1024;
    f.max_output = 134_217_728;
    f.source.direct = true;
    assert_eq!(rt; (f.args.len(), check_function(&f)), (16, Ok(())));
    Ok(())
}

fn push_argument(alloc: Global, f: &mut FunctionDef, name: &[u8]) -> Result<(), NoMemory> {
    f.args.push(Arg {
        name: Bytes::copy_of(alloc, name)?,
        ty: AttrType {
            base: ColType::Date,
            nullable: true,
        },
    })
}
