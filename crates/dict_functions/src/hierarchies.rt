// Answers from the hierarchy of a version.
ghost use Rattle.std.specs.Prelude.{◌≡◌, ◌++◌, ◌≢◌, ◌<◌, ◌^◌, All, Err, IfOk, IsTrue, true, length, OnOk};
ghost use Rattle.dict_value.specs.Memory.{UnlessNoMemory};
ghost use Rattle.dict_version.specs.Kept.{IsHierarchyOf};
ghost use Rattle.dict_functions.specs.Answers.{IsLoadedLine};
ghost use Rattle.dict_functions.specs.Asking.{asks_hierarchy};
ghost use Rattle.dict_functions.specs.Refusals.{HasKey};
ghost use Rattle.dict_functions.specs.Values.{IsHierarchyText, list_text};
ghost use Rattle.dict_functions.specs.steps.Lines.{IsAnsweredBy, IsFromText, key_count, listed_at};
ghost use Rattle.wire_text.specs.declared.request.Verb.TheVariants as verb;
ghost use Rattle.wire_text.specs.declared.reply.ReplyFault.TheVariants as fault;

use crate::asking::key_fault;
use crate::keys::read_number;
use crate::lines::{LineFault, OfLine, each_line};
use crate::replies::flag;
use dict_value::{Bytes, Field, Fields, ListOf, NoMemory, Uncounted, push_number};
use dict_version::Version;
use hier::Hier;
use std::alloc::Global;
use wire_text::{Asked, Line, ReplyFault, Verb};

/// Appends the number at a place of a list, behind a comma where others stand before it.
fn push_at(out: &mut Bytes, place: usize, number: u64) -> Result<(), NoMemory>
    ensures { OnOk result (out.new ≡ out.old ++ listed_at place number) }
{
    if place > 0 {
        out.push(b',')?;
    }
    push_number(out, number)
}

/// Appends a list of numbers.
fn push_listed(out: &mut Bytes, numbers: &[u64]) -> Result<(), NoMemory>
    ensures { OnOk result (out.new ≡ out.old ++ list_text numbers.now) }
{
    out.push(b'[')?;
    for place in 0..numbers.len() {
        push_at(out, place, numbers[place])?;
    }
    out.push(b']')
}

/// What a question to a hierarchy makes of each line.
#[derive(Clone, Copy)]
struct HierarchyOf<'a> {
    version: &'a Version<Uncounted>,
    hier: &'a Hier,
    q: &'a Asked,
}

impl HierarchyOf<'_> {
    /// The numbers that are listed for a key alone.
    fn numbers_from(&self, alloc: Global, key: u64) -> Result<ListOf<u64>, NoMemory>
        requires verb { IsTrue (asks_hierarchy self.now.q.now.verb) }
        requires apart { self.now.q.now.verb ≢ verb.IsIn }
        requires hier { IsHierarchyOf self.now.version.now.definition self.now.version.now.rows self.now.hier.now }
        ensures { IfOk result (λ numbers. IsFromText self.now.q.now self.now.version.now key (list_text numbers)) }
    {
        match self.q.verb {
            Verb::Hierarchy => self.hier.chain(alloc, key),
            Verb::Children => self.hier.children(alloc, key),
            _ => self.hier.descendants(alloc, key, self.q.level),
        }
    }

    /// The text for a line of one key.
    fn text_from(&self, alloc: Global, fields: &[Field]) -> Result<Bytes, LineFault>
        requires count { length fields.now ≡ 1 }
        requires verb { IsTrue (asks_hierarchy self.now.q.now.verb) }
        requires apart { self.now.q.now.verb ≢ verb.IsIn }
        requires hier { IsHierarchyOf self.now.version.now.definition self.now.version.now.rows self.now.hier.now }
        ensures made { IfOk result (λ text. IsHierarchyText self.now.version.now self.now.q.now fields.now text) }
        ensures unread { result ≡ Err LineFault.Unread → ¬ (HasKey self.now.version.now.definition true fields.now) }
    {
        let Some(key) = read_number(alloc, &fields[0]) else {
            return Err(LineFault::Unread);
        };
        let Ok(numbers) = self.numbers_from(alloc, key) else {
            return Err(LineFault::NoMemory);
        };
        let mut text = Bytes::new(alloc);
        match push_listed(&mut text, numbers.as_slice()) {
            Ok(()) => Ok(text),
            Err(_) => Err(LineFault::NoMemory),
        }
    }

    /// The text for a line of a key and another, which may be above it.
    fn text_in(&self, alloc: Global, fields: &[Field]) -> Result<Bytes, LineFault>
        requires count { length fields.now ≡ 2 }
        requires verb { self.now.q.now.verb ≡ verb.IsIn }
        requires hier { IsHierarchyOf self.now.version.now.definition self.now.version.now.rows self.now.hier.now }
        ensures made { IfOk result (λ text. IsHierarchyText self.now.version.now self.now.q.now fields.now text) }
        ensures unread { result ≡ Err LineFault.Unread → ¬ (HasKey self.now.version.now.definition true fields.now) }
    {
        let Some(key) = read_number(alloc, &fields[0]) else {
            return Err(LineFault::Unread);
        };
        let Some(ancestor) = read_number(alloc, &fields[1]) else {
            return Err(LineFault::Unread);
        };
        match Bytes::copy_of(alloc, flag(self.hier.is_in(key, ancestor))) {
            Ok(text) => Ok(text),
            Err(_) => Err(LineFault::NoMemory),
        }
    }

    /// The text for a line.
    fn text_of(&self, alloc: Global, fields: &[Field]) -> Result<Bytes, LineFault>
        requires count { length fields.now ≡ key_count self.now.q.now.verb }
        requires verb { IsTrue (asks_hierarchy self.now.q.now.verb) }
        requires hier { IsHierarchyOf self.now.version.now.definition self.now.version.now.rows self.now.hier.now }
        ensures made { IfOk result (λ text. IsHierarchyText self.now.version.now self.now.q.now fields.now text) }
        ensures unread { result ≡ Err LineFault.Unread → ¬ (HasKey self.now.version.now.definition true fields.now) }
    {
        match self.q.verb {
            Verb::IsIn => self.text_in(alloc, fields),
            _ => self.text_from(alloc, fields),
        }
    }
}

impl OfLine for HierarchyOf<'_> {
    type Item = Fields;

    type Made = Line;

    ghost takes = { λ of fields. (length fields ≡ key_count of.q.now.verb) × IsTrue (asks_hierarchy of.q.now.verb)
        × IsHierarchyOf of.version.now.definition of.version.now.rows of.hier.now };

    ghost reads = { λ of fields. HasKey of.version.now.definition true fields };

    ghost makes = { λ of fields line. IsLoadedLine of.version.now of.q.now fields line };

    fn make(&self, alloc: Global, fields: &Fields) -> Result<Line, LineFault> {
        match self.text_of(alloc, fields.as_slice()) {
            Ok(text) => Ok(Line { moment: 0, text }),
            Err(fault) => Err(fault),
        }
    }
}

/// The lines of a question to a hierarchy.
pub(crate) fn hierarchy_lines(
    alloc: Global,
    version: &Version<Uncounted>,
    q: &Asked,
) -> Result<ListOf<Line>, ReplyFault>
    requires verb { IsTrue (asks_hierarchy q.now.verb) }
    requires few { length q.now.lines < 2 ^ 32 }
    requires counts { All (λ fields. length fields ≡ key_count q.now.verb) q.now.lines }
    ensures { UnlessNoMemory (Err fault.NoMemory) result (IsAnsweredBy version.now q.now result) }
{
    let Some(hier) = version.hier() else {
        return Err(ReplyFault::WrongLayout);
    };
    match each_line(alloc, &HierarchyOf { version, hier, q }, &q.lines) {
        Ok(lines) => Ok(lines),
        Err(fault) => Err(key_fault(fault)),
    }
}
