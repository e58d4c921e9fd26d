//! Masks in groups. Masks that stand next to one another in a list are often alike in most bits, and one look at these bits
//! tells that a term holds none of the group. The lists of a boundary are of that kind: the masks of a region stand side by
//! side. In any other list the same places are found, at the cost of a look at each mask.
ghost use Rattle.std.specs.Prelude.{◌≡◌, ◌≤◌, ◌<◌, ℕ, true, IsTrue, All, IfOk, OnOk, length};
ghost use Rattle.bc_cover.specs.Masks.{agrees, admits};
ghost use Rattle.bc_cover.specs.Groups.{AreGroups, AreGroupsTo, IsGroup, held_below, held_places};

use crate::words::is_admitted;
use bc_num::Memory;
use std::alloc::Global;

// So many masks are in a group, fewer in the last one. With fewer of them more groups are to be looked at, with more of them
// more masks of the groups that a look does not rule out.
const SIZE: usize = 128;

/// Some masks that stand next to one another.
#[derive(Drop)]
pub struct Group {
    /// The place behind the last of them.
    pub end: usize,
    /// One of them.
    pub mask: u64,
    /// Bits in which all of them are alike.
    pub alike: u64,
}

/// A list of masks, and its groups from first to last.
#[derive(Drop)]
pub struct Grouped<'a> {
    pub masks: &'a [u64],
    pub groups: Vec<Group>,
}

// Those of the bits in which the other mask is like the mask, too.
fn still_alike(alike: u64, mask: u64, other: u64) -> u64
    ensures fewer { (any : ℕ) → IsTrue (agrees alike mask any) → IsTrue (agrees result mask any) }
    ensures both { IsTrue (agrees result mask other) }
{
    alike ^ (alike & (mask ^ other))
}

// The group of the masks from `start` to before `end`.
fn group_of(masks: &[u64], start: usize, end: usize) -> Group
    requires some { start < end }
    requires within { end ≤ length masks.now }
    ensures group { IsGroup masks.now start result }
    ensures end { result.end ≡ end }
{
    let mask = masks[start];
    let mut alike = u64::MAX;
    for i in start..end {
        alike = still_alike(alike, mask, masks[i]);
    }
    Group { end, mask, alike }
}

/// The masks in groups. `Memory` where there is no room.
pub fn groups_of(alloc: Global, masks: &[u64]) -> Result<Grouped<'_>, Memory>
    ensures masks { IfOk result (λ g. g.masks.now ≡ masks.now) }
    ensures groups { IfOk result (λ g. AreGroups masks.now g.groups.items) }
{
    let mut groups = Vec::new(alloc);
    let mut start = 0;
    while start < masks.len() {
        let end = start + SIZE.min(masks.len() - start);
        groups.push(group_of(masks, start, end))?;
        start = end;
    }
    Ok(Grouped { masks, groups })
}

impl Group {
    // Whether there may be masks in the group that have all bits of `pos` and none of `neg`.
    fn may_hold(&self, pos: u64, neg: u64) -> bool
        ensures { (mask : ℕ) → IsTrue (agrees self.now.alike self.now.mask mask) → IsTrue (admits pos neg mask) → result ≡ true }
    {
        is_admitted(pos & self.alike, neg & self.alike, self.mask)
    }

    /// The least number of bits in which `mask` may differ from one of the group.
    pub fn distance(&self, mask: u64) -> u32 {
        ((self.mask ^ mask) & self.alike).count_ones()
    }
}

// Puts behind the places those from `start` to before `end` whose masks have all bits of `pos` and none of `neg`.
fn add_places(
    places: &mut Vec<usize>,
    masks: &[u64],
    start: usize,
    end: usize,
    pos: u64,
    neg: u64,
) -> Result<(), Memory>
    requires order { start ≤ end }
    requires within { end ≤ length masks.now }
    requires before { places.old.items ≡ held_below masks.now pos neg start }
    ensures { OnOk result (places.new.items ≡ held_below masks.now pos neg end) }
{
    for i in start..end {
        if is_admitted(pos, neg, masks[i]) {
            places.push(i)?;
        }
    }
    Ok(())
}

impl Grouped<'_> {
    /// The places of the masks that have all bits of `pos` and none of `neg`, in ascending order. `Memory` where there is no
    /// room.
    pub fn places(&self, alloc: Global, pos: u64, neg: u64) -> Result<Vec<usize>, Memory>
        requires { AreGroups self.now.masks.now self.now.groups.items }
        ensures within { IfOk result (λ places. All (λ p. p < length self.now.masks.now) places.items) }
        ensures held { IfOk result (λ places. places.items ≡ held_places self.now.masks.now pos neg) }
    {
        let mut places = Vec::new(alloc);
        let mut start = 0;
        for group in &self.groups {
            if group.may_hold(pos, neg) {
                add_places(&mut places, self.masks, start, group.end, pos, neg)?;
            }
            start = group.end;
        }
        Ok(places)
    }
}
