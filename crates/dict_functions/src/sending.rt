// Rows of values for a program, read from the lines of a request.
ghost use Rattle.std.specs.Prelude.{◌≡◌, ◌≢◌, ◌++◌, ◌<◌, ◌^◌, [], ℕ, All, Any, IfErr, IfOk, Ok, OnErr, OnOk, false};
ghost use Rattle.std.specs.Prelude.{length, true, ⊤};
ghost use Rattle.std.specs.List.{AllZip};
ghost use Rattle.cache_layout.specs.Fetching.{CanBeSent};
ghost use Rattle.dict_value.specs.Values.{FitsColumn};
ghost use Rattle.row_text.specs.Written.{written_field, written_fields, written_row};
ghost use Rattle.dict_functions.specs.Keys.{ReadsAs};
ghost use Rattle.dict_functions.specs.Sending.{AreUnsent, HasValues, IsTooLong, WriteRows};
ghost use Rattle.dict_functions.specs.steps.Lines.{rows_fault, unread_rows};
ghost use Rattle.wire_text.specs.declared.reply.ReplyFault.{ReplyFault as ReplyFaultOf};

use crate::keys::read_values;
use crate::lines::{LineFault, LinesFault, OfLine, each_line};
use cache_layout::MOST_KEY_BYTES;
use dict_value::{
    AttrType, Bytes, Field, Fields, Format, ListOf, NoMemory, Row, Value, write_value,
};
use row_text::{write_csv_row, write_row};
use std::alloc::Global;

/// Why the lines of a request write no rows that a program can be sent.
#[derive(Clone, Copy, Debug, PartialEq, Eq)]
pub(crate) enum RowsFault {
    /// The first line that writes no values, from 1.
    Unread(u32),
    TooLong,
    NoMemory,
}

/// What reads the values of each line.
#[derive(Clone, Copy)]
struct ValuesOf<'a> {
    types: &'a [AttrType],
}

impl OfLine for ValuesOf<'_> {
    type Item = Fields;

    type Made = Row;

    ghost takes = { λ of fields. ⊤ };

    ghost reads = { λ of fields. HasValues of.types.now fields };

    ghost makes = { λ of fields row. ReadsAs of.types.now fields row × AllZip FitsColumn of.types.now row };

    fn make(&self, alloc: Global, fields: &Fields) -> Result<Row, LineFault> {
        match read_values(alloc, self.types, fields.as_slice()) {
            Ok(values) => Ok(values),
            Err(fault) => Err(fault),
        }
    }
}

/// The field that a value is written as.
fn written_field(alloc: Global, ty: &AttrType, value: &Value) -> Result<Field, NoMemory>
    requires { FitsColumn ty.now value.now }
    ensures { IfOk result (λ field. field ≡ written_field ty.now.base value.now) }
{
    match value {
        Value::Null => Ok(Field::Null),
        _ => {
            let mut text = Bytes::new(alloc);
            write_value(ty, value, &mut text)?;
            Ok(Field::Text(text))
        }
    }
}

/// The fields that values are written as.
fn written_fields(alloc: Global, types: &[AttrType], values: &[Value]) -> Result<Fields, NoMemory>
    requires { AllZip FitsColumn types.now values.now }
    ensures { IfOk result (λ fields. fields ≡ written_fields types.now values.now) }
{
    let mut fields = ListOf::with_room(alloc, values.len())?;
    for place in 0..values.len() {
        fields.push(written_field(alloc, &types[place], &values[place])?)?;
    }
    Ok(fields)
}

/// Appends the row that a program is sent for some values; after `NoMemory` nothing has changed.
fn write_values(
    alloc: Global,
    format: Format,
    types: &[AttrType],
    values: &[Value],
    out: &mut Bytes,
) -> Result<(), NoMemory>
    requires some { types.now ≢ [] }
    requires fits { AllZip FitsColumn types.now values.now }
    ensures ok { OnOk result (out.new ≡ out.old ++ written_row format types.now values.now) }
    ensures err { OnErr result (out.new ≡ out.old) }
{
    let fields = written_fields(alloc, types, values)?;
    let row = fields.as_slice();
    match format {
        Format::Tab => write_row(row, out),
        Format::Csv => write_csv_row(alloc, row, out),
    }
}

/// Whether none of the rows is too long to be sent.
fn can_be_sent(
    alloc: Global,
    format: Format,
    types: &[AttrType],
    rows: &[Row],
) -> Result<bool, NoMemory>
    requires some { types.now ≢ [] }
    requires fits { All (AllZip FitsColumn types.now) rows.now }
    ensures yes { result ≡ Ok true → All (CanBeSent format types.now) rows.now }
    ensures no { result ≡ Ok false → Any (IsTooLong format types.now) rows.now }
{
    let mut room = Bytes::new(alloc);
    for place in 0..rows.len() {
        room.clear();
        write_values(alloc, format, types, rows[place].as_slice(), &mut room)?;
        if room.len() > MOST_KEY_BYTES {
            return Ok(false);
        }
    }
    Ok(true)
}

/// Why lines that aren't all read write no rows.
fn unread_rows(fault: LinesFault) -> RowsFault
    ensures { result ≡ unread_rows fault }
{
    match fault {
        LinesFault::Unread(line) => RowsFault::Unread(line),
        LinesFault::NoMemory => RowsFault::NoMemory,
    }
}

/// The rows of values that lines write for a program.
pub(crate) fn rows_from(
    alloc: Global,
    format: Format,
    types: &[AttrType],
    lines: &ListOf<Fields>,
) -> Result<ListOf<Row>, RowsFault>
    requires some { types.now ≢ [] }
    requires few { length lines.now < 2 ^ 32 }
    ensures ok { IfOk result (WriteRows format types.now lines.now) }
    ensures err { IfErr result (λ fault. fault ≢ RowsFault.NoMemory → (unread : ℕ → ReplyFaultOf)
        → AreUnsent format types.now lines.now unread (rows_fault unread fault)) }
{
    let rows = match each_line(alloc, &ValuesOf { types }, lines) {
        Ok(rows) => rows,
        Err(fault) => return Err(unread_rows(fault)),
    };
    match can_be_sent(alloc, format, types, rows.as_slice()) {
        Ok(true) => Ok(rows),
        Ok(false) => Err(RowsFault::TooLong),
        Err(_) => Err(RowsFault::NoMemory),
    }
}
