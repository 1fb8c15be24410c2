// Rows cut out of a text that comes in pieces.
ghost use Rattle.std.specs.Prelude.{◌≡◌, ◌↔◌, ◌∷◌, ◌++◌, [], ℕ, List, IfNone, IfOk, IfSome, IsTrue, OnOk};
ghost use Rattle.std.specs.List.{concat};
ghost use Rattle.row_text.specs.Cutting.{AreRows, Cuts, IsOpen, keeps_open};
ghost use Rattle.row_text.specs.Tables.{AreLines, last_line};
ghost use Rattle.row_text.specs.steps.CutSteps.{BeginsWithLine, CutsPiece, FindsEnd, IsWithin};
ghost use Rattle.row_text.specs.Held.{IsBehindRow};
ghost use Rattle.row_text.specs.declared.cutter.CutRule.{CutRule};

use dict_value::letters::{BACKSLASH, DOUBLE_QUOTE, LINE_FEED};
use dict_value::{Bytes, ListOf, NoMemory};
use std::alloc::Global;

/// Which line feeds end a row.
#[derive(Clone, Copy, Debug, PartialEq, Eq)]
pub enum CutRule {
    /// Each one.
    Plain,
    /// Each that no backslash took.
    Tab,
    /// Each with an even number of double quotes before it in its row.
    Csv,
}

/// What a piece brought.
#[derive(Clone, Copy, Debug, PartialEq, Eq)]
pub enum Cut {
    /// So many bytes of the piece end a row, line feed included; what follows them was not taken.
    Row(usize),
    /// The whole piece was taken, and no row ended.
    More,
}

/// Where in a row the bytes so far end.
#[derive(Clone, Copy, Debug, PartialEq, Eq)]
pub struct Cutter {
    rule: CutRule,
    started: bool,
    inside: bool,
}

impl Cutter {
    ghost use Rattle.row_text.specs.declared.cutter.CutRule.{CutRule};
    ghost use Rattle.row_text.specs.Held.{Feeds, IsBehindRow, IsCutOf};

    /// At the start of a text.
    pub fn new(rule: CutRule) -> Cutter
        ensures { IsBehindRow rule result [] }
    {
        Cutter {
            rule,
            started: false,
            inside: false,
        }
    }

    /// Reads the bytes of a piece up to the first row end in it, or all of them.
    pub fn feed(&mut self, piece: &[u8]) -> Cut
        ensures within { IsCutOf piece.now result }
        ensures feeds { (rule : CutRule) (row : List ℕ) → IsBehindRow rule self.old row
            → Feeds rule row piece.now result self.new }
    {
        match row_end(self.rule, self.inside, piece) {
            Found::Row(place) => {
                self.started = false;
                self.inside = false;
                Cut::Row(place + 1)
            }
            Found::Inside(inside) => {
                self.started = self.started || !piece.is_empty();
                self.inside = inside;
                Cut::More
            }
        }
    }

    /// Whether no byte of a row was taken since the last row end.
    pub fn at_start(&self) -> bool
        ensures { (rule : CutRule) (row : List ℕ) → IsBehindRow rule self.now row → (IsTrue result ↔ (row ≡ [])) }
    {
        !self.started
    }
}

/// Where the first row end of a piece is, or whether a line feed behind the piece would be kept.
enum Found {
    Row(usize),
    Inside(bool),
}

/// Whether a line feed behind this byte is kept, given whether one before it was.
#[inline(always)]
fn inside_after(rule: CutRule, inside: bool, byte: u8) -> bool
    ensures { (row : List ℕ) → inside ≡ keeps_open rule row → result ≡ keeps_open rule (row ++ byte ∷ []) }
{
    match rule {
        CutRule::Plain => false,
        CutRule::Tab => byte == BACKSLASH && !inside,
        CutRule::Csv => if byte == DOUBLE_QUOTE {
            !inside
        } else {
            inside
        },
    }
}

#[inline(always)]
fn row_end(rule: CutRule, before: bool, piece: &[u8]) -> Found
    ensures within { IsWithin piece.now result }
    ensures finds { (row : List ℕ) → IsOpen rule row → before ≡ keeps_open rule row
        → FindsEnd rule row piece.now result }
{
    let mut inside = before;
    for (place, b) in piece.iter().enumerate() {
        if *b == LINE_FEED && !inside {
            return Found::Row(place);
        }
        inside = inside_after(rule, inside, *b);
    }
    Found::Inside(inside)
}

/// The first line of a text, where it has its line feed: the line without it, and how many bytes it has with it.
pub(crate) fn whole_line(rule: CutRule, text: &[u8]) -> Option<(&[u8], usize)>
    ensures none { IfNone result (IsOpen rule text.now) }
    ensures line { IfSome result (λ found. BeginsWithLine rule text.now found.0.now found.1) }
{
    match Cutter::new(rule).feed(text) {
        Cut::Row(size) => Some((&text[..size - 1], size)),
        Cut::More => None,
    }
}

/// What a text is cut into.
#[derive(Debug, Drop)]
pub struct CutText {
    /// Its rows, without their line feeds.
    pub rows: ListOf<Bytes>,
    /// The bytes behind its last row end: a row that lacks its line feed, where there are any.
    pub rest: Bytes,
}

/// The rows of a text that comes in these pieces, and what stands behind its last row end.
pub fn rows_of_pieces(alloc: Global, rule: CutRule, pieces: &[Bytes]) -> Result<CutText, NoMemory>
    ensures rows { IfOk result (λ found. Cuts rule (concat pieces.now) found.rows found.rest) }
    // The rows are all lines of the text only together with the rest: a last row may lack its line feed.
    ensures lines { IfOk result (λ found. AreLines rule (concat pieces.now) (found.rows ++ last_line found.rest)) }
    // No other rows are the text's, so it doesn't matter how it was cut into pieces.
    ensures only { IfOk result (λ found. (others : List (List ℕ)) → AreRows rule (concat pieces.now) others
        → found.rows ≡ others) }
{
    let mut rows = ListOf::new(alloc);
    let mut rest = Bytes::new(alloc);
    let mut cutter = Cutter::new(rule);
    for piece in pieces {
        cut_piece(alloc, &mut cutter, piece.as_slice(), &mut rest, &mut rows)?;
    }
    Ok(CutText { rows, rest })
}

/// Adds the rows that end in a piece, and keeps what follows them.
fn cut_piece(
    alloc: Global,
    cutter: &mut Cutter,
    piece: &[u8],
    row: &mut Bytes,
    rows: &mut ListOf<Bytes>,
) -> Result<(), NoMemory>
    ensures { OnOk result ((rule : CutRule) → IsBehindRow rule cutter.old row.old
        → IsBehindRow rule cutter.new row.new × CutsPiece rule row.old rows.old piece.now row.new rows.new) }
{
    let mut left = piece;
    while let Cut::Row(count) = cutter.feed(left) {
        row.extend(&left[..count - 1])?;
        let whole = Bytes::copy_of(alloc, row.as_slice())?;
        row.clear();
        rows.push(whole)?;
        left = &left[count..];
    }
    row.extend(left)
}

#[cfg(test)]
mod tests;
