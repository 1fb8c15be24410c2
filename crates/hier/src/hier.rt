// The hierarchy of a row list, and what is asked of it.
ghost use Rattle.std.specs.Prelude.{◌≡◌, ◌≢◌, ◌↔◌, [], ◌∷◌, ◌++◌, ◌^◌, ◌<◌, ◌≤◌, ℕ, List, All, IfOk, IsTrue, OnOk};
ghost use Rattle.std.specs.Prelude.{length, map};
ghost use Rattle.std.specs.Prelude.{slice_index};
ghost use Rattle.dict_value.specs.declared.value.TheConstants.{MOST_ROWS};
ghost use Rattle.hier.specs.Hierarchy.{IsChain, IsDescendant, IsIn, IsRisingListOf};
ghost use Rattle.hier.specs.Members.{IsFoundAt, AreSoundMembers};
ghost use Rattle.hier.specs.steps.Finding.{AddsBelow, AddsLevel, IsSearched, StandsFrom};

use crate::below::below_of;
use crate::lengths::lengths_of;
use crate::links::links_of;
use crate::members::{member_of, members_of, risen};
use dict_value::{ListOf, NoMemory};
use std::alloc::Global;

/// The parent of a row's key.
#[derive(Clone, Copy, Debug, PartialEq, Eq)]
pub enum Parent {
    /// None.
    Top,
    Of(u64),
}

/// The keys of rows and their parents, each with the number of its parent, the length of its chain, and the
/// keys below it. A chain that comes round again is counted once, when the rows are put in.
#[derive(Drop)]
pub struct Hier {
    members: Vec<u64>,
    ups: Vec<u32>,
    lengths: Vec<u32>,
    firsts: Vec<u32>,
    nexts: Vec<u32>,
    ghost sound: { AreSoundMembers members.items ups.items lengths.items firsts.items nexts.items },
}

impl Hier {
    ghost use Rattle.hier.specs.Kept.{IsHierOf};

    /// The hierarchy of a list of keys, each with its parent.
    pub fn build(alloc: Global, keys: &[u64], parents: &[Parent]) -> Result<Hier, NoMemory>
        requires rows { length keys.now ≤ MOST_ROWS }
        requires same { length parents.now ≡ length keys.now }
        ensures { IfOk result (IsHierOf keys.now parents.now) }
    {
        let members = members_of(alloc, keys, parents)?;
        let links = links_of(alloc, keys, parents, members.as_slice())?;
        let lengths = lengths_of(alloc, links.ups.as_slice(), links.rows.as_slice())?;
        let below = below_of(alloc, links.ups.as_slice())?;
        Ok(Hier {
            members,
            ups: links.ups,
            lengths,
            firsts: below.firsts,
            nexts: below.nexts,
        })
    }

    /// The chain of a key: the key, its parent, and so on.
    pub fn chain(&self, alloc: Global, key: u64) -> Result<ListOf<u64>, NoMemory>
        ensures { (keys : List ℕ) (parents : List Parent)
            → IsHierOf keys parents self.now → IfOk result (IsChain keys parents key) }
    {
        let Some(start) = member_of(self.members.as_slice(), key) else {
            return Ok(ListOf::new(alloc));
        };
        let length = self.lengths[start];
        let mut chain = ListOf::with_room(alloc, length as usize)?;
        let mut at = start;
        for place in 0..length {
            chain.push(self.members[at])?;
            if place + 1 < length {
                at = (self.ups[at] - 1) as usize;
            }
        }
        Ok(chain)
    }

    /// Whether another key is in the chain of a key, without taking memory.
    pub fn is_in(&self, key: u64, ancestor: u64) -> bool
        ensures { (keys : List ℕ) (parents : List Parent)
            → IsHierOf keys parents self.now → (IsTrue result ↔ IsIn keys parents key ancestor) }
    {
        let Some(start) = member_of(self.members.as_slice(), key) else {
            return false;
        };
        let length = self.lengths[start];
        let mut at = start;
        for place in 0..length {
            if self.members[at] == ancestor {
                return true;
            }
            if place + 1 < length {
                at = (self.ups[at] - 1) as usize;
            }
        }
        false
    }

    /// The children of a key, rising.
    pub fn children(&self, alloc: Global, key: u64) -> Result<ListOf<u64>, NoMemory>
        ensures { (keys : List ℕ) (parents : List Parent) → IsHierOf keys parents self.now
            → IfOk result (IsRisingListOf (IsDescendant keys parents key 1)) }
    {
        self.descendants(alloc, key, 1)
    }

    /// The descendants of a key at a level, from 1, or at all levels, by level 0; rising.
    pub fn descendants(&self, alloc: Global, key: u64, level: u32) -> Result<ListOf<u64>, NoMemory>
        ensures { (keys : List ℕ) (parents : List Parent) → IsHierOf keys parents self.now
            → IfOk result (IsRisingListOf (IsDescendant keys parents key level)) }
    {
        let Some(of) = member_of(self.members.as_slice(), key) else {
            return Ok(ListOf::new(alloc));
        };
        let mut found = ListOf::new(alloc);
        let from = self.find_below(&mut found, of, level)?;
        let keys = self.keys_of(alloc, &found.as_slice()[from..])?;
        Ok(ListOf::from_vec(risen(keys)))
    }

    /// The keys of members.
    fn keys_of(&self, alloc: Global, numbers: &[u32]) -> Result<Vec<u64>, NoMemory>
        requires { All (λ number. number < length self.now.members.items) numbers.now }
        ensures { IfOk result (λ keys. keys.items
            ≡ map (λ number. slice_index self.now.members.items number) numbers.now) }
    {
        let Ok(mut keys) = Vec::with_capacity(alloc, numbers.len()) else {
            return Err(NoMemory);
        };
        for number in numbers {
            if keys.push(self.members[*number as usize]).is_err() {
                return Err(NoMemory);
            }
        }
        Ok(keys)
    }

    /// Finds the members below one at a level, or at all levels, by level 0, and answers the place from which on
    /// they stand.
    fn find_below(&self, found: &mut ListOf<u32>, of: usize, level: u32) -> Result<usize, NoMemory>
        requires of { of < length self.now.members.items }
        requires none { found.old ≡ [] }
        ensures { IfOk result (λ from. (from ≤ length found.new)
            × ((other : ℕ) → StandsFrom found.new from other ↔ IsFoundAt self.now.ups.items of level other)) }
    {
        if level == 0 {
            self.find_levels(found, of, u32::MAX)?;
            return Ok(0);
        }
        self.find_levels(found, of, level)
    }

    /// Finds the members below one at so many levels, and answers the place from which on those of the last
    /// level stand.
    fn find_levels(
        &self,
        found: &mut ListOf<u32>,
        of: usize,
        levels: u32,
    ) -> Result<usize, NoMemory>
        requires of { of < length self.now.members.items }
        requires none { found.old ≡ [] }
        requires some { 0 < levels }
        ensures { IfOk result (IsSearched self.now.ups.items of levels found.new) }
    {
        self.push_below(found, of, of)?;
        let mut from = 0;
        for level in 1..levels {
            let to = found.len();
            if from == to {
                return Ok(from);
            }
            self.push_level(found, from, of)?;
            from = to;
        }
        Ok(from)
    }

    /// Appends the members below those that stand from a place on, but for one.
    fn push_level(&self, found: &mut ListOf<u32>, from: usize, but: usize) -> Result<(), NoMemory>
        requires within { (place : ℕ) → place < length found.old
            → slice_index found.old place < length self.now.members.items }
        requires from { from ≤ length found.old }
        ensures { OnOk result (AddsLevel self.now.ups.items from (length found.old) but found.old found.new) }
    {
        for place in from..found.len() {
            let of = found.as_slice()[place] as usize;
            self.push_below(found, of, but)?;
        }
        Ok(())
    }

    /// Appends the members below one, but for one.
    fn push_below(&self, found: &mut ListOf<u32>, of: usize, but: usize) -> Result<(), NoMemory>
        requires { of < length self.now.members.items }
        ensures { OnOk result (AddsBelow self.now.ups.items of but found.old found.new) }
    {
        let mut cell = self.firsts[of];
        while cell != 0 {
            let member = (cell - 1) as usize;
            push_other(found, member, but)?;
            cell = self.nexts[member];
        }
        Ok(())
    }
}

/// Appends a member other than one.
fn push_other(found: &mut ListOf<u32>, member: usize, but: usize) -> Result<(), NoMemory>
    requires { member < 2 ^ 24 }
    ensures same { member ≡ but → OnOk result (found.new ≡ found.old) }
    ensures other { member ≢ but → OnOk result (found.new ≡ found.old ++ member ∷ []) }
{
    if member == but {
        return Ok(());
    }
    found.push(member as u32)
}
