// Names, of columns and of arguments.
ghost use Rattle.std.specs.Prelude.{◌≡◌, ◌<◌, ◌≤◌, ◌↔◌, List, ℕ, IsTrue, length, map};
ghost use Rattle.dict_schema.specs.Judging.{IsJudged};
ghost use Rattle.dict_schema.specs.Parts.{argument_names, column_names};
ghost use Rattle.dict_schema.specs.Table.{IsNamedBefore, NameWithin, NamesWithin};

use crate::definition::{Arg, Column, Definition, FunctionDef};
use crate::fault::{DefFault, Which};
use crate::judging::{Rules, judge_each, within};
use dict_value::Bytes;

/// What has a name.
trait Named {
    ghost name_of: { Self → List ℕ };

    fn name(&self) -> &Bytes
        ensures { result.now ≡ name_of self.now };
}

impl Named for Column {
    ghost name_of = { λ column. column.name };

    fn name(&self) -> &Bytes {
        &self.name
    }
}

impl Named for Arg {
    ghost name_of = { λ argument. argument.name };

    fn name(&self) -> &Bytes {
        &self.name
    }
}

/// The bounds of the names of a list.
#[derive(Clone, Copy)]
struct NamesOf<'a, N: Named> {
    items: &'a [N],
}

impl<N: Named> Rules for NamesOf<'_, N> {
    ghost count_of = { λ rules. length (map N.name_of rules.items.now) };

    ghost rule_at = { λ rules place. NameWithin (map N.name_of rules.items.now) place };

    fn count(&self) -> usize {
        self.items.len()
    }

    fn judge(&self, place: usize) -> Result<(), DefFault> {
        within(Which::Name, 1, 255, self.items[place].name().len() as u64)
    }
}

/// Each name has to have 1 to 255 bytes.
fn judge_names<N: Named>(items: &[N]) -> Result<(), DefFault>
    requires { length items.now ≤ 64 }
    ensures { IsJudged (NamesWithin (map N.name_of items.now)) result }
{
    judge_each(&NamesOf { items })
}

/// Judges the names of the columns.
pub(crate) fn judge_column_names(d: &Definition) -> Result<(), DefFault>
    requires { length d.now.columns ≤ 64 }
    ensures { IsJudged (NamesWithin (column_names d.now)) result }
{
    judge_names(d.columns.as_slice())
}

/// Judges the names of the arguments.
pub(crate) fn judge_argument_names(f: &FunctionDef) -> Result<(), DefFault>
    requires { length f.now.args ≤ 64 }
    ensures { IsJudged (NamesWithin (argument_names f.now)) result }
{
    judge_names(f.args.as_slice())
}

/// Whether the column at a place has the name of an earlier one.
pub(crate) fn is_column_named_before(d: &Definition, place: usize) -> bool
    requires { place < length d.now.columns }
    ensures { IsTrue result ↔ IsNamedBefore (column_names d.now) place }
{
    is_named_before(d.columns.as_slice(), place)
}

/// Whether the argument at a place has the name of an earlier one.
pub(crate) fn is_argument_named_before(f: &FunctionDef, place: usize) -> bool
    requires { place < length f.now.args }
    ensures { IsTrue result ↔ IsNamedBefore (argument_names f.now) place }
{
    is_named_before(f.args.as_slice(), place)
}

/// Whether the name at a place stands at an earlier one, too.
fn is_named_before<N: Named>(items: &[N], place: usize) -> bool
    requires { place < length items.now }
    ensures { IsTrue result ↔ IsNamedBefore (map N.name_of items.now) place }
{
    let name = items[place].name();
    for earlier in 0..place {
        if items[earlier].name().is_same(name) {
            return true;
        }
    }
    false
}
