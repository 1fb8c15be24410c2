// The first row of each member, and its parent.
ghost use Rattle.std.specs.Prelude.{◌≡◌, ◌+◌, ◌^◌, ◌<◌, ◌≤◌, ℕ, Some, Contains, IfOk, length, slice_get, slice_index};
ghost use Rattle.std.specs.List.Sorted.{IsStrictlyIncreasing};
ghost use Rattle.dict_value.specs.FindByKey.{HasKeyAt};
ghost use Rattle.dict_value.specs.declared.value.TheConstants.{MOST_ROWS};
ghost use Rattle.hier.specs.declared.hier.Parent.TheVariants.{Of};
ghost use Rattle.hier.specs.steps.Linking.{IsUp, TellsRow};

use crate::hier::Parent;
use crate::members::member_of;
use dict_value::NoMemory;
use std::alloc::Global;

/// For each member one more than its first row, or 0; and one more than the number of its parent, or 0.
#[derive(Drop)]
pub(crate) struct Links {
    pub(crate) rows: Vec<u32>,
    pub(crate) ups: Vec<u32>,
}

/// The cell of a parent.
fn up_of(members: &[u64], parent: Parent) -> u32
    requires small { length members.now < 2 ^ 24 }
    requires rises { IsStrictlyIncreasing members.now }
    requires there { (key : ℕ) → parent ≡ Of key → Contains members.now key }
    ensures is { IsUp members.now parent result }
    ensures within { result ≤ length members.now }
{
    match parent {
        Parent::Top => 0,
        Parent::Of(key) => match member_of(members, key) {
            Some(number) => (number + 1) as u32,
            None => unreachable!(),
        },
    }
}

/// The links of the members of a list of keys and their parents.
pub(crate) fn links_of(
    alloc: Global,
    keys: &[u64],
    parents: &[Parent],
    members: &[u64],
) -> Result<Links, NoMemory>
    requires rows { length keys.now ≤ MOST_ROWS }
    requires same { length parents.now ≡ length keys.now }
    requires small { length members.now < 2 ^ 24 }
    requires rises { IsStrictlyIncreasing members.now }
    requires keys { (place key : ℕ) → HasKeyAt keys.now key place → Contains members.now key }
    requires parents { (place parent : ℕ)
        → slice_get parents.now place ≡ Some (Of parent) → Contains members.now parent }
    ensures len { IfOk result (λ links. (length links.rows.items ≡ length members.now)
        × (length links.ups.items ≡ length members.now)) }
    ensures within { IfOk result (λ links. (member : ℕ) → slice_index links.ups.items member ≤ length members.now) }
    ensures told { IfOk result (λ links. (member : ℕ) → member < length members.now
        → TellsRow keys.now parents.now members.now (length keys.now) (slice_index members.now member)
        (slice_index links.rows.items member) (slice_index links.ups.items member)) }
{
    let Ok(mut rows) = Vec::from_elem(alloc, 0u32, members.len()) else {
        return Err(NoMemory);
    };
    let Ok(mut ups) = Vec::from_elem(alloc, 0u32, members.len()) else {
        return Err(NoMemory);
    };
    for row in 0..keys.len() {
        let Some(member) = member_of(members, keys[row]) else {
            unreachable!()
        };
        if rows[member] == 0 {
            rows[member] = (row + 1) as u32;
            ups[member] = up_of(members, parents[row]);
        }
    }
    Ok(Links { rows, ups })
}
