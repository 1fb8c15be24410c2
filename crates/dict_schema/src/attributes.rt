// The columns that name a parent, and the defaults.
ghost use Rattle.std.specs.Prelude.{◌≡◌, ◌≢◌, ◌<◌, ◌≤◌, ◌+◌, ◌↔◌, ◌⊎◌, IsTrue, true, false, length};
ghost use Rattle.dict_schema.specs.declared.fault.DefFault.TheVariants as fault;
ghost use Rattle.dict_value.specs.declared.value.ColType.TheVariants.{UInt64};
ghost use Rattle.dict_schema.specs.Parts.{is_attribute};
ghost use Rattle.dict_schema.specs.Judging.{IsJudged, Where};
ghost use Rattle.dict_schema.specs.Table.{IsBadDefault, IsBadParent, IsParentBefore, attributes};

use crate::definition::Definition;
use crate::fault::DefFault;
use crate::judging::{Rules, judge_each};
use crate::parts::{column_at, is_attribute};
use dict_value::{ColType, fits_column};

/// Judges the columns that name a parent, and the defaults.
pub(crate) fn judge_attributes(d: &Definition) -> Result<(), DefFault>
    requires { length d.now.columns ≤ 64 }
    ensures { IsJudged (attributes d.now) result }
{
    judge_each(&Parents { d })?;
    judge_each(&Defaults { d })
}

#[derive(Clone, Copy)]
struct Parents<'a> {
    d: &'a Definition,
}

impl Rules for Parents<'_> {
    ghost count_of = { λ rules. length rules.d.now.columns };

    ghost rule_at = { λ rules place. Where (fault.HierarchyType (place + 1)) (IsBadParent rules.d.now place) };

    fn count(&self) -> usize {
        self.d.columns.len()
    }

    fn judge(&self, place: usize) -> Result<(), DefFault> {
        let Some(column) = column_at(self.d, place) else {
            return Ok(());
        };
        if column.hierarchical && !may_be_parent(self.d, place, column.ty.base) {
            return Err(DefFault::HierarchyType(place as u32 + 1));
        }
        Ok(())
    }
}

/// Whether a column of this type is an attribute of type UInt64, and the first that names a parent.
fn may_be_parent(d: &Definition, place: usize, base: ColType) -> bool
    requires { place < length d.now.columns }
    ensures can { IsTrue result
        → (is_attribute d.now place ≡ true) × (base ≡ UInt64) × (IsParentBefore d.now place → ⊥) }
    ensures cannot { (result ≡ false)
        → (is_attribute d.now place ≡ false) ⊎ ((base ≢ UInt64) ⊎ IsParentBefore d.now place) }
{
    base == ColType::UInt64 && is_attribute(d, place) && !is_parent_before(d, place)
}

/// Whether a column before a place names a parent.
fn is_parent_before(d: &Definition, place: usize) -> bool
    requires { place < length d.now.columns }
    ensures { IsTrue result ↔ IsParentBefore d.now place }
{
    for earlier in 0..place {
        if d.columns.as_slice()[earlier].hierarchical {
            return true;
        }
    }
    false
}

#[derive(Clone, Copy)]
struct Defaults<'a> {
    d: &'a Definition,
}

impl Rules for Defaults<'_> {
    ghost count_of = { λ rules. length rules.d.now.columns };

    ghost rule_at = { λ rules place. Where (fault.BadDefault (place + 1)) (IsBadDefault rules.d.now place) };

    fn count(&self) -> usize {
        self.d.columns.len()
    }

    fn judge(&self, place: usize) -> Result<(), DefFault> {
        match column_at(self.d, place) {
            Some(column) if !fits_column(&column.ty, &column.default) => {
                Err(DefFault::BadDefault(place as u32 + 1))
            }
            _ => Ok(()),
        }
    }
}
