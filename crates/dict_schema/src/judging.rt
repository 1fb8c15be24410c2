// Judging by the rules of a table, one after another.
ghost use Rattle.std.specs.Prelude.{◌≡◌, ◌<◌, ◌≤◌, ℕ};
ghost use Rattle.dict_schema.specs.Judging.{EachOf, IsJudged, IsTold};
ghost use Rattle.dict_schema.specs.Table.{Within};

use crate::fault::{DefFault, Which};

/// Rules of a table, one for each place of a list.
pub(crate) trait Rules {
    ghost use Rattle.dict_schema.specs.declared.fault.DefFault.{DefFault};

    /// How many there are.
    ghost count_of: { Self → ℕ };

    /// The rule of a place.
    ghost rule_at: { Self → ℕ → DefFault → Type 0 };

    fn count(&self) -> usize
        ensures { result ≡ count_of self.now };

    /// Judges by the rule of a place.
    fn judge(&self, place: usize) -> Result<(), DefFault>
        requires place { place < count_of self.now }
        requires few { count_of self.now ≤ 64 }
        ensures { IsTold (rule_at self.now place) result };
}

/// Judges by each rule in turn.
pub(crate) fn judge_each<R: Rules>(rules: &R) -> Result<(), DefFault>
    requires { R.count_of rules.now ≤ 64 }
    ensures { IsJudged (EachOf (R.count_of rules.now) (R.rule_at rules.now)) result }
{
    for place in 0..rules.count() {
        if let Err(fault) = rules.judge(place) {
            return Err(fault);
        }
    }
    Ok(())
}

/// A quantity has to be within its bounds.
pub(crate) fn within(kind: Which, least: u64, most: u64, quantity: u64) -> Result<(), DefFault>
    ensures { IsTold (Within kind least most quantity) result }
{
    if quantity < least || most < quantity {
        return Err(DefFault::Limit(kind, quantity));
    }
    Ok(())
}
