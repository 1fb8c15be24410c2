// The members below each member, as lists that lead from one to the next.
ghost use Rattle.std.specs.Prelude.{◌≡◌, ◌+◌, ◌^◌, ◌<◌, ◌≤◌, ℕ, IfOk, length, slice_index};
ghost use Rattle.hier.specs.Members.{TellsNext};

use dict_value::NoMemory;
use std::alloc::Global;

/// For each member one more than the least member below it, or 0; and one more than the next member below its
/// own parent, or 0.
#[derive(Drop)]
pub(crate) struct Below {
    pub(crate) firsts: Vec<u32>,
    pub(crate) nexts: Vec<u32>,
}

/// The members below each member, where a cell of `ups` is 0 for no parent and else one more than its number.
pub(crate) fn below_of(alloc: Global, ups: &[u32]) -> Result<Below, NoMemory>
    requires small { length ups.now < 2 ^ 24 }
    requires up { (member : ℕ) → slice_index ups.now member ≤ length ups.now }
    ensures len { IfOk result (λ below. (length below.firsts.items ≡ length ups.now)
        × (length below.nexts.items ≡ length ups.now)) }
    ensures first { IfOk result (λ below. (member : ℕ) → member < length ups.now
        → TellsNext ups.now 0 (member + 1) (slice_index below.firsts.items member)) }
    ensures next { IfOk result (λ below. (member : ℕ) → member < length ups.now
        → 0 < slice_index ups.now member
        → TellsNext ups.now (member + 1) (slice_index ups.now member) (slice_index below.nexts.items member)) }
{
    let Ok(mut firsts) = Vec::from_elem(alloc, 0u32, ups.len()) else {
        return Err(NoMemory);
    };
    let Ok(mut nexts) = Vec::from_elem(alloc, 0u32, ups.len()) else {
        return Err(NoMemory);
    };
    let mut left = ups.len();
    while left > 0 {
        left -= 1;
        if ups[left] != 0 {
            let up = (ups[left] - 1) as usize;
            nexts[left] = firsts[up];
            firsts[up] = (left + 1) as u32;
        }
    }
    Ok(Below { firsts, nexts })
}
