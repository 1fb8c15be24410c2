// Rows as tests print them.
use dict_value::{Bytes, Field, Fields, LineFault, ListOf, NoMemory};
use std::alloc::Global;

/// A bar before each field, and a question mark for NULL; or the fault.
pub fn show(answer: Result<Fields, LineFault>, out: &mut Bytes) -> Result<(), NoMemory> {
    match answer {
        Ok(fields) => show_fields(fields.as_slice(), out),
        Err(LineFault::BadEscape(place)) => {
            out.extend(b"escape ")?;
            out.push(b'0' + (place % 10) as u8)
        }
        Err(LineFault::CarriageReturn) => out.extend(b"cr"),
        Err(LineFault::NotOneRecord) => out.extend(b"csv"),
        Err(LineFault::NoMemory) => out.extend(b"memory"),
    }
}

/// The fields, a bar before each, and a question mark for NULL.
fn show_fields(fields: &[Field], out: &mut Bytes) -> Result<(), NoMemory> {
    for field in fields {
        out.push(b'|')?;
        match field {
            Field::Null => out.push(b'?')?,
            Field::Text(text) => out.extend(text.as_slice())?,
        }
    }
    Ok(())
}

/// The fields of these texts, NULL where there is none.
pub fn fields_of(alloc: Global, texts: &[Option<&[u8]>]) -> Result<Fields, NoMemory> {
    let mut fields = ListOf::new(alloc);
    for text in texts {
        let field = match text {
            Some(text) => Field::Text(Bytes::copy_of(alloc, text)?),
            None => Field::Null,
        };
        fields.push(field)?;
    }
    Ok(fields)
}

/// How many bytes each field of a large row has, and how many fields it has. The longest text has 16 MiB.
pub const LARGE_ROWS: [(usize, usize); 4] = [(1_001, 2), (65_537, 2), (16_777_216, 2), (1, 65_537)];

/// A text of so many times this byte.
pub fn long_text(alloc: Global, byte: u8, count: usize) -> Result<Bytes, NoMemory> {
    match Vec::from_elem(alloc, byte, count) {
        Ok(items) => Ok(Bytes::from_vec(items)),
        Err(_) => Err(NoMemory),
    }
}

/// The row of this text so many times.
pub fn row_of(alloc: Global, text: &[u8], fields: usize) -> Result<Fields, NoMemory> {
    let mut row = ListOf::new(alloc);
    for _ in 0..fields {
        row.push(Field::Text(Bytes::copy_of(alloc, text)?))?;
    }
    Ok(row)
}
