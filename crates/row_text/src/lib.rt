//! Row texts: TabSeparated and CSV rows, read, written and cut out of a text in any pieces.
//!
//! It promises that a row is read as its fields exactly where it has them, and else as its first
//! fault; that each line has one such answer; that a written TabSeparated row is read as its fields
//! again, and a written CSV row as their texts, where a NULL is the text `\N`, unless its first field
//! begins with the bytes of a byte order mark; and that the rows which a [`Cutter`] cuts are those of
//! the whole text before its last row end, in whatever pieces the text comes. A whole text decodes to
//! its typed rows, to its first bad row, or to too many, by any [`Columns`]; and so it does part by part,
//! where each part but the last ends with a row. Only want of memory may
//! stand in place of an answer, and a [`Cutter`] takes none.
#![tactic(auto)]

pub mod columns;
pub mod csv_row;
pub mod cutter;
pub mod decode;
mod direct;
pub mod laws;
pub mod tab_row;

pub use columns::Columns;
pub use csv_row::{is_blank_line, read_csv_row, write_csv_row};
pub use cutter::{Cut, CutRule, CutText, Cutter, rows_of_pieces};
pub use decode::{DecodeFault, decode_more, decode_rows, decode_whole};
pub use laws::{
    decoding_goes_on, one_decoding, one_list_of_lines, one_reading, one_table, written_tables,
};
pub use tab_row::{read_fields, write_row, write_text};

#[cfg(test)]
mod shown;
