// The members of a hierarchy: the keys of rows and their parents, rising.
ghost use Rattle.std.specs.Prelude.{◌≡◌, ◌↔◌, ◌^◌, ◌<◌, ◌≤◌, ℕ, Some, Contains, IfOk, IfNone, IfSome, length};
ghost use Rattle.std.specs.Prelude.{slice_get, slice_index};
ghost use Rattle.std.specs.List.Sorted.{IsStrictlyIncreasing};
ghost use Rattle.dict_value.specs.FindByKey.{HasKeyAt};
ghost use Rattle.dict_value.specs.declared.value.TheConstants.{MOST_ROWS};
ghost use Rattle.hier.specs.Hierarchy.{IsRisingListOf};
ghost use Rattle.hier.specs.declared.hier.Parent.TheVariants.{Of};

use crate::hier::Parent;
use dict_value::NoMemory;
use std::alloc::{AllocError, Global};

/// The same numbers, rising and without repeats.
pub(crate) fn risen(mut numbers: Vec<u64>) -> Vec<u64>
    ensures rising { IsRisingListOf (Contains numbers.items) result.items }
    ensures len { length result.items ≤ length numbers.items }
{
    numbers.sort_unstable();
    numbers.dedup();
    numbers
}

/// The keys and the parents in one list.
fn all_of(alloc: Global, keys: &[u64], parents: &[Parent]) -> Result<Vec<u64>, AllocError>
    requires rows { length keys.now ≤ MOST_ROWS }
    requires same { length parents.now ≡ length keys.now }
    ensures keys { IfOk result (λ all. (place key : ℕ) → HasKeyAt keys.now key place → Contains all.items key) }
    ensures parents { IfOk result (λ all. (place parent : ℕ)
        → slice_get parents.now place ≡ Some (Of parent) → Contains all.items parent) }
    ensures len { IfOk result (λ all. length all.items < 2 ^ 24) }
{
    let mut all = Vec::with_capacity(alloc, 2 * keys.len())?;
    all.extend_from_slice(keys)?;
    for parent in parents {
        if let Parent::Of(parent) = parent {
            all.push(*parent)?;
        }
    }
    Ok(all)
}

/// The members of a list of keys and their parents.
pub(crate) fn members_of(
    alloc: Global,
    keys: &[u64],
    parents: &[Parent],
) -> Result<Vec<u64>, NoMemory>
    requires rows { length keys.now ≤ MOST_ROWS }
    requires same { length parents.now ≡ length keys.now }
    ensures rises { IfOk result (λ members. IsStrictlyIncreasing members.items) }
    ensures keys { IfOk result (λ members. (place key : ℕ)
        → HasKeyAt keys.now key place → Contains members.items key) }
    ensures parents { IfOk result (λ members. (place parent : ℕ)
        → slice_get parents.now place ≡ Some (Of parent) → Contains members.items parent) }
    ensures len { IfOk result (λ members. length members.items < 2 ^ 24) }
{
    match all_of(alloc, keys, parents) {
        Ok(all) => Ok(risen(all)),
        Err(_) => Err(NoMemory),
    }
}

/// The number of a member.
pub(crate) fn member_of(members: &[u64], key: u64) -> Option<usize>
    ensures found { IfSome result (λ member. (member < length members.now) × (slice_index members.now member ≡ key)) }
    ensures none { IfNone result (IsStrictlyIncreasing members.now → ¬ (Contains members.now key)) }
{
    match members.binary_search(&key) {
        Ok(member) => Some(member),
        Err(_) => None,
    }
}
