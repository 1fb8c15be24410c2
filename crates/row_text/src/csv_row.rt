// Rows of CSV.
ghost use Rattle.std.specs.Prelude.{◌≡◌, ◌≢◌, ◌≤◌, ◌++◌, [], ℕ, List, Result, Err, length, map, option_map, take};
ghost use Rattle.std.specs.Prelude.{IfErr, IfOk, IfSome, OnErr, OnOk};
ghost use Rattle.csv.specs.Reading.{error_kind};
ghost use Rattle.csv.specs.Records.{fields_of};
ghost use Rattle.dict_value.specs.declared.value.Field.{Field};
ghost use Rattle.dict_value.specs.declared.value.Field.TheVariants as field;
ghost use Rattle.dict_value.specs.declared.fault.LineFault.{LineFault};
ghost use Rattle.row_text.specs.Cutting.{IsWhole, ended};
ghost use Rattle.row_text.specs.CsvRow.{BeginsWithMark, CsvAnswers, IsCsvRow, csv_field, csv_fields, csv_line};
ghost use Rattle.row_text.specs.CsvRow.{csv_text, is_blank_line};
ghost use Rattle.row_text.specs.steps.CsvSteps.{IsPlainText, IsWantOfMemory, RecordOf};
ghost use Rattle.dict_value.specs.Memory.{UnlessNoMemory};
ghost use Rattle.row_text.specs.declared.cutter.CutRule.TheVariants as rule;

use csv::{ByteRecord, Error, ErrorKind, ReaderBuilder, WriterBuilder};
use dict_value::letters::{CARRIAGE_RETURN, COMMA, DOUBLE_QUOTE, LINE_FEED};
use dict_value::{Bytes, Field, Fields, LineFault, ListOf, NoMemory};
use std::alloc::Global;

/// The first byte of a byte order mark.
pub(crate) const MARK: u8 = 0xEF;

/// The fields of one row, which comes without its line feed.
pub fn read_csv_row(alloc: Global, line: &[u8]) -> Result<Fields, LineFault>
    // The fields where the line is one record, and else that it is not.
    ensures exact { UnlessNoMemory (Err LineFault.NoMemory) result (CsvAnswers line.now result) }
    // There is no other answer to it.
    ensures only { (answer : Result (List Field) LineFault) → CsvAnswers line.now answer
        → UnlessNoMemory (Err LineFault.NoMemory) result (result ≡ answer) }
{
    read_line(alloc, line)
}

fn read_line(alloc: Global, line: &[u8]) -> Result<Fields, LineFault>
    ensures { UnlessNoMemory (Err LineFault.NoMemory) result (CsvAnswers line.now result) }
{
    match split_plain(alloc, line) {
        Ok(Some(fields)) => Ok(fields),
        Ok(None) => read_apart(alloc, line),
        Err(NoMemory) => Err(LineFault::NoMemory),
    }
}

/// The fields of a row that needs no machine; nothing where it may need one.
fn split_plain(alloc: Global, line: &[u8]) -> Result<Option<Fields>, NoMemory>
    ensures { IfOk result (λ found. IfSome found (IsCsvRow line.now)) }
{
    if line.is_empty() || line[0] == MARK || line[0] == CARRIAGE_RETURN || line[0] == LINE_FEED {
        return Ok(None);
    }
    let mut fields = ListOf::new(alloc);
    let mut at = 0;
    'fields: loop {
        let left = &line[at..];
        let run = plain_len(left);
        if run < left.len() && left[run] != COMMA {
            return Ok(None);
        }
        let text = Bytes::copy_of(alloc, &left[..run])?;
        fields.push(Field::Text(text))?;
        if run == left.len() {
            return Ok(Some(fields));
        }
        at = at + run + 1;
    }
}

/// How many bytes stand before the first comma, quote or line end.
#[inline]
pub(crate) fn plain_len(left: &[u8]) -> usize
    ensures within { result ≤ length left.now }
    ensures plain { IsPlainText (take result left.now) }
{
    for (place, b) in left.iter().enumerate() {
        if matches!(*b, COMMA | DOUBLE_QUOTE | CARRIAGE_RETURN | LINE_FEED) {
            return place;
        }
    }
    left.len()
}

/// The fields of any row, by the reader of `csv`, which takes much longer to make than a short row to split.
fn read_apart(alloc: Global, line: &[u8]) -> Result<Fields, LineFault>
    ensures { UnlessNoMemory (Err LineFault.NoMemory) result (CsvAnswers line.now result) }
{
    let found = match one_record(alloc, line) {
        Ok(found) => found,
        Err(error) => return Err(want_of_memory(error)),
    };
    let Some(record) = found else {
        return Err(LineFault::NotOneRecord);
    };
    match fields_from(alloc, &record) {
        Ok(fields) => Ok(fields),
        Err(NoMemory) => Err(LineFault::NoMemory),
    }
}

/// The fault of an error over bytes in memory, where `csv` has want of memory and no other.
fn want_of_memory(error: Error) -> LineFault
    requires { IsWantOfMemory (error_kind error) }
    ensures { result ≡ LineFault.NoMemory }
{
    match error.into_kind() {
        ErrorKind::OutOfMemory | ErrorKind::Io(_) => LineFault::NoMemory,
        _ => unreachable!(),
    }
}

/// The only record of a line. An error is want of memory: records may have any number of fields.
fn one_record(alloc: Global, line: &[u8]) -> Result<Option<ByteRecord>, Error>
    ensures ok { IfOk result (λ found. RecordOf line.now (option_map fields_of found)) }
    ensures err { IfErr result (λ error. IsWantOfMemory (error_kind error)) }
{
    let mut reader = ReaderBuilder::new()
        .has_headers(false)
        .flexible(true)
        .from_reader(alloc, line);
    let mut record = ByteRecord::new(alloc);
    if !reader.read_byte_record(&mut record)? {
        return Ok(None);
    }
    let mut next = ByteRecord::new(alloc);
    if reader.read_byte_record(&mut next)? {
        return Ok(None);
    }
    Ok(Some(record))
}

fn fields_from(alloc: Global, row: &ByteRecord) -> Result<Fields, NoMemory>
    ensures { IfOk result (λ fields. fields ≡ map field.Text (fields_of row.now)) }
{
    let mut fields = ListOf::new(alloc);
    let mut at = 0;
    while let Some(text) = row.get(at) {
        let text = Bytes::copy_of(alloc, text)?;
        fields.push(Field::Text(text))?;
        at += 1;
    }
    Ok(fields)
}

/// Appends the row of the fields with its line feed.
pub fn write_csv_row(alloc: Global, fields: &[Field], out: &mut Bytes) -> Result<(), NoMemory>
    requires { fields.now ≢ [] }
    ensures ok { OnOk result (out.new ≡ out.old ++ csv_text fields.now) }
    ensures err { OnErr result (out.new ≡ out.old) }
    // What is written is one whole row, which is read as the texts of these fields again.
    ensures line { csv_text fields.now ≡ ended (csv_line fields.now) }
    ensures whole { IsWhole rule.Csv (csv_line fields.now) }
    ensures again { ¬ BeginsWithMark fields.now → IsCsvRow (csv_line fields.now) (csv_fields fields.now) }
{
    let text = row_bytes(alloc, fields)?;
    out.extend(text.as_slice())
}

/// The text of a row. Each error is taken as want of memory: a `Vec` refuses a write for nothing else, and one record
/// differs from no other in length; but the contracts of `csv` tie no error of a write to its cause.
fn row_bytes(alloc: Global, fields: &[Field]) -> Result<Vec<u8>, NoMemory>
    ensures { IfOk result (λ text. text.items ≡ csv_text fields.now) }
{
    let texts = texts_of(alloc, fields)?;
    let mut writer = WriterBuilder::new().from_writer(Vec::new(alloc));
    let Ok(()) = writer.write_fields(texts.as_slice()) else {
        return Err(NoMemory);
    };
    match writer.into_inner() {
        Ok(text) => Ok(text),
        Err(_) => Err(NoMemory),
    }
}

/// The texts of the fields, where they lie.
fn texts_of(alloc: Global, fields: &[Field]) -> Result<Vec<&[u8]>, NoMemory>
    ensures { IfOk result (λ texts. map (λ t. t.now) texts.items ≡ map csv_field fields.now) }
{
    let mut texts = Vec::new(alloc);
    for field in fields {
        let text = match field {
            Field::Null => b"\\N".as_slice(),
            Field::Text(text) => text.as_slice(),
        };
        if texts.push(text).is_err() {
            return Err(NoMemory);
        }
    }
    Ok(texts)
}

/// Whether a line has nothing but carriage returns, and so is no row.
pub fn is_blank_line(line: &[u8]) -> bool
    ensures { result ≡ is_blank_line line.now }
{
    line.iter().all(|b| *b == CARRIAGE_RETURN)
}

#[cfg(test)]
mod tests;
