// The keys of a definition, and the names of its columns.
ghost use Rattle.std.specs.Prelude.{◌≡◌, ◌<◌, ◌≤◌, ◌+◌, ◌↔◌, [], ◌∷◌, ℕ, List, IsTrue, false, length};
ghost use Rattle.dict_schema.specs.declared.fault.DefFault.TheVariants as fault;
ghost use Rattle.dict_schema.specs.Judging.{IsJudged, IsTold, Where};
ghost use Rattle.dict_schema.specs.Parts.{HasOneKey, argument_names};
ghost use Rattle.dict_schema.specs.Table.{IsDuplicate, IsKeyTwice, IsMissingKey, IsNamedBefore, IsNullableKey};
ghost use Rattle.dict_schema.specs.Table.{LacksOneKey, arguments, keys};

use crate::definition::{Definition, FunctionDef};
use crate::fault::DefFault;
use crate::judging::{Rules, judge_each};
use crate::layout::key_wanted;
use crate::names::{is_argument_named_before, is_column_named_before};
use crate::parts::{column_at, is_key};
use dict_value::{AttrType, ColType};

/// Judges the keys, and the names of the columns.
pub(crate) fn judge_keys(d: &Definition) -> Result<(), DefFault>
    requires columns { length d.now.columns ≤ 64 }
    requires count { length d.now.keys ≤ 16 }
    ensures { IsJudged (keys d.now) result }
{
    if d.keys.is_empty() {
        return Err(DefFault::NoKey);
    }
    judge_each(&MissingKeys { d })?;
    judge_each(&Duplicates { d })?;
    if lacks_one_key(d) {
        return Err(DefFault::SimpleKeyType);
    }
    judge_each(&NullableKeys { d })
}

#[derive(Clone, Copy)]
struct MissingKeys<'a> {
    d: &'a Definition,
}

impl Rules for MissingKeys<'_> {
    ghost count_of = { λ rules. length rules.d.now.keys };

    ghost rule_at = { λ rules place. Where (fault.KeyMissing (place + 1)) (IsMissingKey rules.d.now place) };

    fn count(&self) -> usize {
        self.d.keys.len()
    }

    fn judge(&self, place: usize) -> Result<(), DefFault> {
        if usize::from(self.d.keys.as_slice()[place]) < self.d.columns.len() {
            return Ok(());
        }
        Err(DefFault::KeyMissing(place as u32 + 1))
    }
}

#[derive(Clone, Copy)]
struct Duplicates<'a> {
    d: &'a Definition,
}

impl Rules for Duplicates<'_> {
    ghost count_of = { λ rules. length rules.d.now.columns };

    ghost rule_at = { λ rules place. Where (fault.DuplicateName (place + 1)) (IsDuplicate rules.d.now place) };

    fn count(&self) -> usize {
        self.d.columns.len()
    }

    fn judge(&self, place: usize) -> Result<(), DefFault> {
        if is_column_named_before(self.d, place) || is_key_twice(self.d.keys.as_slice(), place) {
            return Err(DefFault::DuplicateName(place as u32 + 1));
        }
        Ok(())
    }
}

/// Whether two keys name the column at a place.
fn is_key_twice(keys: &[u8], place: usize) -> bool
    ensures { IsTrue result ↔ IsKeyTwice keys.now place }
{
    let mut seen = false;
    for key in keys {
        if usize::from(*key) == place {
            if seen {
                return true;
            }
            seen = true;
        }
    }
    false
}

/// Whether the layout wants one key of a type, and the definition hasn't that.
fn lacks_one_key(d: &Definition) -> bool
    ensures { IsTrue result ↔ LacksOneKey d.now }
{
    match key_wanted(&d.layout) {
        None => false,
        Some(base) => !has_one_key(d, base),
    }
}

/// Whether the one key has this type and is never NULL.
fn has_one_key(d: &Definition, base: ColType) -> bool
    ensures { IsTrue result ↔ HasOneKey d.now base }
{
    let [key] = d.keys.as_slice() else {
        return false;
    };
    match column_at(d, usize::from(*key)) {
        None => false,
        Some(column) => is_of(&column.ty, base),
    }
}

/// Whether a type is this one, without NULL.
fn is_of(t: &AttrType, base: ColType) -> bool
    ensures { IsTrue result ↔ ((t.now.base ≡ base) × (t.now.nullable ≡ false)) }
{
    t.base == base && !t.nullable
}

#[derive(Clone, Copy)]
struct NullableKeys<'a> {
    d: &'a Definition,
}

impl Rules for NullableKeys<'_> {
    ghost count_of = { λ rules. length rules.d.now.columns };

    ghost rule_at = { λ rules place. Where (fault.KeyType (place + 1)) (IsNullableKey rules.d.now place) };

    fn count(&self) -> usize {
        self.d.columns.len()
    }

    fn judge(&self, place: usize) -> Result<(), DefFault> {
        match column_at(self.d, place) {
            Some(column) if column.ty.nullable && is_key(self.d, place) => {
                Err(DefFault::KeyType(place as u32 + 1))
            }
            _ => Ok(()),
        }
    }
}

/// Judges the arguments of a function: there is one, and their names are different.
pub(crate) fn judge_arguments(f: &FunctionDef) -> Result<(), DefFault>
    requires { length f.now.args ≤ 16 }
    ensures { IsJudged (arguments f.now) result }
{
    if f.args.is_empty() {
        return Err(DefFault::NoArguments);
    }
    judge_each(&RepeatedArguments { f })
}

#[derive(Clone, Copy)]
struct RepeatedArguments<'a> {
    f: &'a FunctionDef,
}

impl Rules for RepeatedArguments<'_> {
    ghost count_of = { λ rules. length rules.f.now.args };

    ghost rule_at = { λ rules place.
        Where (fault.DuplicateName (place + 1)) (IsNamedBefore (argument_names rules.f.now) place) };

    fn count(&self) -> usize {
        self.f.args.len()
    }

    fn judge(&self, place: usize) -> Result<(), DefFault> {
        if is_argument_named_before(self.f, place) {
            return Err(DefFault::DuplicateName(place as u32 + 1));
        }
        Ok(())
    }
}
