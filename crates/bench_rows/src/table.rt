// All rows of a text, up to the first that can't be read.
use dict_value::{Field, Fields, ListOf};
use row_text::{Cut, CutRule, Cutter, read_csv_row, read_fields};
use std::alloc::Global;

/// The rows that the text has before its last row end and before the first that has no reading.
pub fn read(alloc: Global, is_csv: bool, text: &[u8]) -> ListOf<Fields> {
    let mut table = ListOf::new(alloc);
    let rule = if is_csv { CutRule::Csv } else { CutRule::Tab };
    let mut cutter = Cutter::new(rule);
    let mut left = text;
    while let Cut::Row(count) = cutter.feed(left) {
        let Some(fields) = row(alloc, is_csv, &left[..count - 1]) else {
            break;
        };
        if table.push(fields).is_err() {
            break;
        }
        left = &left[count..];
    }
    table
}

fn row(alloc: Global, is_csv: bool, line: &[u8]) -> Option<Fields> {
    if line.len() > 65536 {
        return None;
    }
    if is_csv {
        read_csv_row(alloc, line).ok()
    } else {
        read_fields(alloc, line).ok()
    }
}

pub fn fields(table: &ListOf<Fields>) -> usize {
    let mut count: usize = 0;
    for row in table.as_slice() {
        count = count.saturating_add(row.len());
    }
    count
}

pub fn bytes(table: &ListOf<Fields>) -> usize {
    let mut count: usize = 0;
    for row in table.as_slice() {
        count = count.saturating_add(row_bytes(row));
    }
    count
}

fn row_bytes(row: &Fields) -> usize {
    let mut count: usize = 0;
    for field in row.as_slice() {
        if let Field::Text(text) = field {
            count = count.saturating_add(text.len());
        }
    }
    count
}
