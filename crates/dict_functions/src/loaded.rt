// Answers from one version.
ghost use Rattle.std.specs.Prelude.{◌≡◌, ◌<◌, ◌^◌, ℕ, All, Err, IfOk, IfSome, IsTrue, false, length, true, ⊤};
ghost use Rattle.std.specs.List.{AllZip};
ghost use Rattle.cache_layout.specs.Fetching.{key_types};
ghost use Rattle.dict_schema.specs.Shapes.{shape_of};
ghost use Rattle.dict_schema.specs.Sound.{IsSound};
ghost use Rattle.dict_value.specs.Memory.{UnlessNoMemory};
ghost use Rattle.dict_version.specs.Keys.{attribute_place};
ghost use Rattle.dict_version.specs.Lookups.{lookup_by};
ghost use Rattle.dict_version.specs.declared.key.Key.TheVariants as key;
ghost use Rattle.dict_functions.specs.Answers.{AnswersSeen};
ghost use Rattle.dict_functions.specs.Asking.{IsLookup, asks_attribute};
ghost use Rattle.dict_functions.specs.Keys.{IsFirstWithout, ReadsKey};
ghost use Rattle.dict_functions.specs.Refusals.{HasKey};
ghost use Rattle.dict_functions.specs.Values.{IsAttributeText, IsHasText};
ghost use Rattle.wire_text.specs.declared.reply.Reply.TheVariants.{Refused};
ghost use Rattle.wire_text.specs.declared.reply.ReplyFault.TheVariants as fault;
ghost use Rattle.wire_text.specs.declared.request.Verb.TheVariants as verb;
ghost use Rattle.dict_functions.specs.steps.Lines.{IsAnsweredBy, HasCell, HasCellText, HasLine, HasTextOf};
ghost use Rattle.dict_functions.specs.steps.Lines.{IsAttributeOf, IsRowFor};
ghost use Rattle.dict_functions.specs.steps.Lines.{MayStand, is_by_number};

use crate::asking::{Attribute, asks_hierarchy, attribute_of, key_fault};
use crate::hierarchies::hierarchy_lines;
use crate::keys::{is_by_number, key_types, only_number, read_key};
use crate::lines::{LineFault, LinesFault, OfLine, each_line};
use crate::replies::{flag, reply_of};
use dict_value::{AttrType, Bytes, Fields, ListOf, NoMemory, Uncounted};
use dict_version::{Key, Version, attribute_place, lookup_by};
use packed_rows::Cell;
use std::alloc::Global;
use version_slot::Seen;
use wire_text::{Asked, Line, Mark, Reply, ReplyFault, Verb};

/// What a lookup of an attribute makes of each line.
#[derive(Clone, Copy)]
struct AttributeOf<'a> {
    version: &'a Version<Uncounted>,
    q: &'a Asked,
    attribute: &'a Attribute,
    /// The attribute's place in a row.
    cell: u32,
    types: &'a [AttrType],
}

impl AttributeOf<'_> {
    /// The text of the attribute in a row that was found, or of what stands in for it.
    fn text_of(&self, alloc: Global, found: Option<u32>) -> Result<Bytes, NoMemory>
        requires row { IfSome found (λ row. row < length self.now.version.now.rows) }
        requires of { IsAttributeOf self.now.version.now.definition self.now.q.now self.now.attribute.now }
        requires cell { self.now.cell ≡ attribute_place self.now.version.now.definition self.now.attribute.now.place }
        requires sound { IsSound self.now.version.now.definition }
        ensures { IfOk result (HasCellText self.now.version.now self.now.q.now self.now.attribute.now found) }
    {
        let Some(row) = found else {
            return Bytes::copy_of(alloc, self.attribute.missing.as_slice());
        };
        let mut text = Bytes::new(alloc);
        match self.version.write_cell(row, self.cell, &mut text) {
            Ok(()) => Ok(text),
            Err(_) => Err(NoMemory),
        }
    }

    /// The same by the cell of the row that was found.
    fn text_in(&self, alloc: Global, found: &Option<Cell<'_>>) -> Result<Bytes, NoMemory>
        requires stands { MayStand self.now.version.now self.now.cell found.now }
        requires of { IsAttributeOf self.now.version.now.definition self.now.q.now self.now.attribute.now }
        requires cell { self.now.cell ≡ attribute_place self.now.version.now.definition self.now.attribute.now.place }
        requires sound { IsSound self.now.version.now.definition }
        ensures { IfOk result
            (HasTextOf self.now.version.now self.now.q.now self.now.attribute.now self.now.cell found.now) }
    {
        match found {
            Some(cell) => {
                let mut text = Bytes::new(alloc);
                self.version.write_found(cell, self.cell, &mut text)?;
                Ok(text)
            }
            None => Bytes::copy_of(alloc, self.attribute.missing.as_slice()),
        }
    }
}

impl OfLine for AttributeOf<'_> {
    type Item = Fields;

    type Made = Line;

    ghost takes = { λ of fields. IsAttributeOf of.version.now.definition of.q.now of.attribute.now
        × (of.cell ≡ attribute_place of.version.now.definition of.attribute.now.place)
        × (of.types.now ≡ key_types of.version.now.definition) };

    ghost reads = { λ of fields. HasKey of.version.now.definition false fields };

    ghost makes = { λ of fields line. HasLine of.version.now of.q.now fields line };

    fn make(&self, alloc: Global, fields: &Fields) -> Result<Line, LineFault> {
        let key = match read_key(
            alloc,
            self.version.definition(),
            self.types,
            fields.as_slice(),
        ) {
            Ok(key) => key,
            Err(fault) => return Err(fault),
        };
        match self.text_of(alloc, self.version.find(&key, &mut Uncounted)) {
            Ok(text) => Ok(Line { moment: 0, text }),
            Err(_) => Err(LineFault::NoMemory),
        }
    }
}

/// What the question whether a row has a key makes of each line.
#[derive(Clone, Copy)]
struct HasOf<'a> {
    version: &'a Version<Uncounted>,
    types: &'a [AttrType],
}

impl OfLine for HasOf<'_> {
    type Item = Fields;

    type Made = Line;

    ghost takes = { λ of fields. of.types.now ≡ key_types of.version.now.definition };

    ghost reads = { λ of fields. HasKey of.version.now.definition false fields };

    ghost makes = { λ of fields line. (line.moment ≡ 0) × IsHasText of.version.now fields line.text };

    fn make(&self, alloc: Global, fields: &Fields) -> Result<Line, LineFault> {
        let key = match read_key(
            alloc,
            self.version.definition(),
            self.types,
            fields.as_slice(),
        ) {
            Ok(key) => key,
            Err(fault) => return Err(fault),
        };
        let found = self.version.find(&key, &mut Uncounted);
        match Bytes::copy_of(alloc, flag(found.is_some())) {
            Ok(text) => Ok(Line { moment: 0, text }),
            Err(_) => Err(LineFault::NoMemory),
        }
    }
}

/// What reads the number that each line is.
#[derive(Clone, Copy)]
struct NumberOf<'a> {
    version: &'a Version<Uncounted>,
}

impl OfLine for NumberOf<'_> {
    type Item = Fields;

    type Made = u64;

    ghost takes = { λ of fields. is_by_number (lookup_by of.version.now.definition.layout) ≡ true };

    ghost reads = { λ of fields. HasKey of.version.now.definition false fields };

    ghost makes = { λ of fields number. ReadsKey of.version.now.definition fields (key.Simple number) };

    fn make(&self, alloc: Global, fields: &Fields) -> Result<u64, LineFault> {
        only_number(alloc, fields.as_slice())
    }
}

/// What finds the row of each number.
#[derive(Clone, Copy)]
struct RowOf<'a> {
    version: &'a Version<Uncounted>,
}

impl OfLine for RowOf<'_> {
    type Item = u64;

    type Made = Option<u32>;

    ghost takes = { λ of number. ⊤ };

    ghost reads = { λ of number. ⊤ };

    ghost makes = { λ of number found. IsRowFor of.version.now number found };

    fn make(&self, _alloc: Global, number: &u64) -> Result<Option<u32>, LineFault> {
        Ok(self.version.find(&Key::Simple(*number), &mut Uncounted))
    }
}

/// What reads the cell in each row that was found.
#[derive(Clone, Copy)]
struct CellOf<'a> {
    version: &'a Version<Uncounted>,
    cell: u32,
}

impl<'a> OfLine for CellOf<'a> {
    type Item = Option<u32>;

    type Made = Option<Cell<'a>>;

    ghost takes = { λ of found. (of.cell < length (shape_of of.version.now.definition))
        × IfSome found (λ row. row < length of.version.now.rows) };

    ghost reads = { λ of found. ⊤ };

    ghost makes = { λ of found cell. HasCell of.version.now of.cell found cell };

    fn make(&self, _alloc: Global, found: &Option<u32>) -> Result<Option<Cell<'a>>, LineFault> {
        match *found {
            Some(row) => Ok(Some(self.version.cell(row, self.cell))),
            None => Ok(None),
        }
    }
}

/// What writes the text of each cell.
#[derive(Clone, Copy)]
struct TextOf<'a> {
    of: AttributeOf<'a>,
}

impl<'a> OfLine for TextOf<'a> {
    type Item = Option<Cell<'a>>;

    type Made = Line;

    ghost takes = { λ it cell. IsAttributeOf it.of.version.now.definition it.of.q.now it.of.attribute.now
        × (it.of.cell ≡ attribute_place it.of.version.now.definition it.of.attribute.now.place)
        × IsSound it.of.version.now.definition × MayStand it.of.version.now it.of.cell cell };

    ghost reads = { λ it cell. ⊤ };

    ghost makes = { λ it cell line. (line.moment ≡ 0)
        × HasTextOf it.of.version.now it.of.q.now it.of.attribute.now it.of.cell cell line.text };

    fn make(&self, alloc: Global, cell: &Option<Cell<'a>>) -> Result<Line, LineFault> {
        match self.of.text_in(alloc, cell) {
            Ok(text) => Ok(Line { moment: 0, text }),
            Err(_) => Err(LineFault::NoMemory),
        }
    }
}

/// The lines of a block of numbers, in four passes: the numbers of all lines, the rows that they find, the cells in
/// these, and their texts. So the processor waits for the rows and the cells of several keys at once.
fn numbered_lines<'a>(
    alloc: Global,
    of: &AttributeOf<'a>,
    lines: &ListOf<Fields>,
) -> Result<ListOf<Line>, LinesFault>
    requires numbered { is_by_number (lookup_by of.now.version.now.definition.layout) ≡ true }
    requires of { IsAttributeOf of.now.version.now.definition of.now.q.now of.now.attribute.now }
    requires cell { of.now.cell ≡ attribute_place of.now.version.now.definition of.now.attribute.now.place }
    requires sound { IsSound of.now.version.now.definition }
    requires few { length lines.now < 2 ^ 32 }
    ensures read { IfOk result (λ _. All (HasKey of.now.version.now.definition false) lines.now) }
    ensures made { IfOk result (AllZip (HasLine of.now.version.now of.now.q.now) lines.now) }
    ensures unread { (n : ℕ) → result ≡ Err (LinesFault.Unread n)
        → IsFirstWithout (HasKey of.now.version.now.definition false) lines.now n }
{
    let number_of = NumberOf {
        version: of.version,
    };
    let numbers = match each_line(alloc, &number_of, lines) {
        Ok(numbers) => numbers,
        Err(fault) => return Err(fault),
    };
    let row_of = RowOf {
        version: of.version,
    };
    let Ok(rows) = each_line(alloc, &row_of, &numbers) else {
        return Err(LinesFault::NoMemory);
    };
    let cell_of = CellOf {
        version: of.version,
        cell: of.cell,
    };
    let Ok(cells) = each_line(alloc, &cell_of, &rows) else {
        return Err(LinesFault::NoMemory);
    };
    match each_line(alloc, &TextOf { of: *of }, &cells) {
        Ok(made) => Ok(made),
        Err(_) => Err(LinesFault::NoMemory),
    }
}

/// The lines that an attribute is asked for by: those of a block of numbers in passes, and others one by one.
fn lines_by(
    alloc: Global,
    of: &AttributeOf<'_>,
    lines: &ListOf<Fields>,
) -> Result<ListOf<Line>, LinesFault>
    requires of { IsAttributeOf of.now.version.now.definition of.now.q.now of.now.attribute.now }
    requires cell { of.now.cell ≡ attribute_place of.now.version.now.definition of.now.attribute.now.place }
    requires types { of.now.types.now ≡ key_types of.now.version.now.definition }
    requires few { length lines.now < 2 ^ 32 }
    ensures read { IfOk result (λ _. All (HasKey of.now.version.now.definition false) lines.now) }
    ensures made { IfOk result (AllZip (HasLine of.now.version.now of.now.q.now) lines.now) }
    ensures unread { (n : ℕ) → result ≡ Err (LinesFault.Unread n)
        → IsFirstWithout (HasKey of.now.version.now.definition false) lines.now n }
{
    if lines.len() > 1 && is_by_number(lookup_by(&of.version.definition().layout)) {
        return numbered_lines(alloc, of, lines);
    }
    each_line(alloc, of, lines)
}

/// The lines of a lookup of an attribute.
fn attribute_lines(
    alloc: Global,
    version: &Version<Uncounted>,
    q: &Asked,
) -> Result<ListOf<Line>, ReplyFault>
    requires verb { IsTrue (asks_attribute q.now.verb) }
    requires few { length q.now.lines < 2 ^ 32 }
    ensures { UnlessNoMemory (Err fault.NoMemory) result (IsAnsweredBy version.now q.now result) }
{
    let d = version.definition();
    let attribute = match attribute_of(alloc, d, q) {
        Ok(attribute) => attribute,
        Err(fault) => return Err(fault),
    };
    let Ok(types) = key_types(alloc, d) else {
        return Err(ReplyFault::NoMemory);
    };
    let of = AttributeOf {
        version,
        q,
        attribute: &attribute,
        cell: attribute_place(d, attribute.place),
        types: types.as_slice(),
    };
    match lines_by(alloc, &of, &q.lines) {
        Ok(lines) => Ok(lines),
        Err(fault) => Err(key_fault(fault)),
    }
}

/// The lines of the question whether rows have keys.
fn has_lines(
    alloc: Global,
    version: &Version<Uncounted>,
    q: &Asked,
) -> Result<ListOf<Line>, ReplyFault>
    requires verb { q.now.verb ≡ verb.Has }
    requires few { length q.now.lines < 2 ^ 32 }
    ensures { UnlessNoMemory (Err fault.NoMemory) result (IsAnsweredBy version.now q.now result) }
{
    let Ok(types) = key_types(alloc, version.definition()) else {
        return Err(ReplyFault::NoMemory);
    };
    let of = HasOf {
        version,
        types: types.as_slice(),
    };
    match each_line(alloc, &of, &q.lines) {
        Ok(lines) => Ok(lines),
        Err(fault) => Err(key_fault(fault)),
    }
}

/// The lines of a lookup, or the first reason why it is refused.
fn lines_of(
    alloc: Global,
    version: &Version<Uncounted>,
    q: &Asked,
) -> Result<ListOf<Line>, ReplyFault>
    requires { IsLookup q.now }
    ensures { UnlessNoMemory (Err fault.NoMemory) result (IsAnsweredBy version.now q.now result) }
{
    if asks_hierarchy(q.verb) {
        return hierarchy_lines(alloc, version, q);
    }
    match q.verb {
        Verb::Has => has_lines(alloc, version, q),
        _ => attribute_lines(alloc, version, q),
    }
}

/// The answer to a lookup from one version that was entered, and from nothing else. Before the first version it is
/// refused; then, where there is no such hierarchy, attribute or default, and then for the first line that writes no
/// key, in this order.
pub fn answer_loaded(alloc: Global, seen: &Seen<Version<Uncounted>>, q: &Asked) -> Reply
    requires { IsLookup q.now }
    // Only want of memory may stand in place of the answer.
    ensures { UnlessNoMemory (Refused fault.NoMemory) result (AnswersSeen seen.now q.now result) }
{
    let Some(version) = seen.version() else {
        return Reply::Refused(ReplyFault::NotLoaded);
    };
    match lines_of(alloc, version, q) {
        Ok(lines) => reply_of(q.block, Mark::Version(seen.number()), lines),
        Err(fault) => Reply::Refused(fault),
    }
}
