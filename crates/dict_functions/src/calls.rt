// Calls of functions.
ghost use Rattle.std.specs.Prelude.{◌≡◌, Err, IfOk, List, Ok, ⊤};
ghost use Rattle.dict_schema.specs.Sound.{IsSoundFunction};
ghost use Rattle.dict_value.specs.Memory.{UnlessNoMemory};
ghost use Rattle.dict_value.specs.Values.{FitsColumn};
ghost use Rattle.dict_value.specs.declared.value.Value.{Value as ValueOf};
ghost use Rattle.dict_functions.specs.Calls.{AnswersCall, AreCallArguments, AreGiven, IsCall, IsCallLine};
ghost use Rattle.dict_functions.specs.Calls.{argument_types};
ghost use Rattle.dict_functions.specs.steps.Lines.{rows_fault};
ghost use Rattle.wire_text.specs.declared.reply.Reply.TheVariants.{Refused};
ghost use Rattle.wire_text.specs.declared.reply.ReplyFault.TheVariants as fault;

use crate::lines::{LineFault, OfLine, each_line};
use crate::replies::{print_value, reply_of};
use crate::sending::{RowsFault, rows_from};
use dict_schema::FunctionDef;
use dict_value::{AttrType, Bytes, ListOf, NoMemory, Row, Value};
use std::alloc::Global;
use wire_text::{Asked, Line, Mark, Reply, ReplyFault};

/// The types of the arguments, in their order.
fn argument_types(alloc: Global, f: &FunctionDef) -> Result<ListOf<AttrType>, NoMemory>
    ensures { IfOk result (λ types. types ≡ argument_types f.now) }
{
    let mut types = ListOf::with_room(alloc, f.args.len())?;
    for argument in f.args.as_slice() {
        types.push(argument.ty)?;
    }
    Ok(types)
}

/// Why a call is refused whose lines write no arguments that can be sent.
fn arguments_fault(unsent: RowsFault) -> ReplyFault
    ensures { result ≡ rows_fault fault.BadArgument unsent }
{
    match unsent {
        RowsFault::Unread(line) => ReplyFault::BadArgument(line),
        RowsFault::TooLong => ReplyFault::TooLarge,
        RowsFault::NoMemory => ReplyFault::NoMemory,
    }
}

/// The rows of arguments of a call. It is refused for the first line that doesn't write one value of each argument's
/// type, and then where a row is too long to be sent.
pub fn rows_of(alloc: Global, f: &FunctionDef, q: &Asked) -> Result<ListOf<Row>, ReplyFault>
    requires call { IsCall q.now }
    requires sound { IsSoundFunction f.now }
    // Only want of memory may stand in place of the rows, or of the first refusal.
    ensures { UnlessNoMemory (Err fault.NoMemory) result (AreCallArguments f.now q.now result) }
{
    let Ok(types) = argument_types(alloc, f) else {
        return Err(ReplyFault::NoMemory);
    };
    match rows_from(alloc, f.source.format, types.as_slice(), &q.lines) {
        Ok(rows) => Ok(rows),
        Err(fault) => Err(arguments_fault(fault)),
    }
}

/// What a call makes of each value that its function gave.
#[derive(Clone, Copy)]
struct GivenOf<'a> {
    f: &'a FunctionDef,
}

impl OfLine for GivenOf<'_> {
    type Item = Value;

    type Made = Line;

    ghost takes = { λ of v. FitsColumn of.f.now.returns v };

    ghost reads = { λ of v. ⊤ };

    ghost makes = { λ of v line. IsCallLine of.f.now v line };

    fn make(&self, alloc: Global, value: &Value) -> Result<Line, LineFault> {
        let mut text = Bytes::new(alloc);
        match print_value(&self.f.returns, value, &mut text) {
            Ok(()) => Ok(Line { moment: 0, text }),
            Err(_) => Err(LineFault::NoMemory),
        }
    }
}

/// The answer to a call, from the values that its function gave for its arguments.
pub fn answer_function(alloc: Global, f: &FunctionDef, q: &Asked, values: &ListOf<Value>) -> Reply
    requires call { IsCall q.now }
    requires sound { IsSoundFunction f.now }
    // There is one value for each row of arguments.
    requires given { (rows : List (List ValueOf)) × AreCallArguments f.now q.now (Ok rows)
        × AreGiven f.now rows values.now }
    // Only want of memory may stand in place of the answer.
    ensures { UnlessNoMemory (Refused fault.NoMemory) result (AnswersCall f.now q.now values.now result) }
{
    match each_line(alloc, &GivenOf { f }, values) {
        Ok(lines) => reply_of(q.block, Mark::Function, lines),
        Err(_) => Reply::Refused(ReplyFault::NoMemory),
    }
}
