//! The sets of discs that stay with a region: a disc at a time, and a set is left as soon as a rule takes it out.
ghost use Rattle.std.specs.Prelude.{◌≡◌, ◌↔◌, ◌+◌, ◌*◌, ◌/◌, ◌^◌, ◌<◌, ◌≤◌, ◌++◌, ◌∷◌, false, length, IsTrue, IfOk, OnOk, All};
ghost use Rattle.std.specs.Prelude.{List as Listed, ℕ};
ghost use Rattle.bc_num.specs.Sizes.{IsSmallPoint};
ghost use Rattle.bc_space.specs.Discs.{IsSizedDisc};
ghost use Rattle.bc_space.specs.Lines.{IsSizedLine};
ghost use Rattle.bc_discs.specs.Corners.{IsSmallCorner};
ghost use Rattle.bc_discs.specs.Rules.{choices_of};
ghost use Rattle.bc_discs.specs.Sieves.{Fires, FiresFirst, AreListed, AreSets};

use crate::choice::choices_of;
use crate::sets::{drops_first, thins_first};
use crate::{Choice, Wall};
use bc_num::{Disc2, List, Memory, P2};
use std::alloc::Global;

/// Which rules take out a region with a set of discs.
#[derive(Clone, Copy, Debug)]
pub(crate) enum Sieve {
    /// The dropping rules.
    Coarse,
    /// The dropping rules and the two exact ones.
    Fine,
}

/// The sets of discs that stay with the region of these corners and walls, as ascending numbers. `Memory` where there is
/// no room for them.
///
/// The last disc is decided first, and each further one for each set of those behind it that stays. So the time is that of
/// the sets that stay, of the discs behind each first one too, times the discs, the walls and the square of the corners.
pub(crate) fn kept_sets(
    alloc: Global,
    sieve: Sieve,
    corners: &[P2],
    walls: &[Wall],
    discs: &[Disc2],
) -> Result<List<usize>, Memory>
    requires few { length discs.now ≤ 10 }
    requires points { All IsSmallPoint corners.now }
    requires tight { All IsSmallCorner corners.now }
    requires lines { All (λ wall. IsSizedLine wall.line) walls.now }
    requires discs_sized { All IsSizedDisc discs.now }
    ensures { IfOk result (AreSets (Fires sieve corners.now walls.now) discs.now) }
{
    let mut sets = List::new(alloc);
    sets.push(0)?;
    for i in 0..discs.len() {
        let k = discs.len() - 1 - i;
        sets = with_one_more(
            alloc,
            sieve,
            corners,
            walls,
            &discs[k],
            &discs[k + 1..],
            &sets,
        )?;
    }
    Ok(sets)
}

// Of the sets of `rest`, each without the disc and with it, where no rule takes it out.
fn with_one_more(
    alloc: Global,
    sieve: Sieve,
    corners: &[P2],
    walls: &[Wall],
    disc: &Disc2,
    rest: &[Disc2],
    sets: &List<usize>,
) -> Result<List<usize>, Memory>
    requires few { length rest.now < 10 }
    requires points { All IsSmallPoint corners.now }
    requires tight { All IsSmallCorner corners.now }
    requires lines { All (λ wall. IsSizedLine wall.line) walls.now }
    requires disc_sized { IsSizedDisc disc.now }
    requires rest_sized { All IsSizedDisc rest.now }
    requires sets { AreSets (Fires sieve corners.now walls.now) rest.now sets.now }
    ensures { IfOk result (AreSets (Fires sieve corners.now walls.now) (disc.now ∷ rest.now)) }
{
    let mut more = List::new(alloc);
    for set in sets.as_slice() {
        add_both(alloc, sieve, corners, walls, disc, rest, *set, &mut more)?;
    }
    Ok(more)
}

// Adds the set without the disc and with it, where no rule takes it out.
fn add_both(
    alloc: Global,
    sieve: Sieve,
    corners: &[P2],
    walls: &[Wall],
    disc: &Disc2,
    rest: &[Disc2],
    set: usize,
    sets: &mut List<usize>,
) -> Result<(), Memory>
    requires few { set < 2 ^ 10 }
    requires points { All IsSmallPoint corners.now }
    requires tight { All IsSmallCorner corners.now }
    requires lines { All (λ wall. IsSizedLine wall.line) walls.now }
    requires disc_sized { IsSizedDisc disc.now }
    requires rest_sized { All IsSizedDisc rest.now }
    ensures { OnOk result ((more : Listed ℕ) × (sets.new ≡ sets.old ++ more) × ((Fires sieve corners.now walls.now (choices_of set rest.now) → ⊥) → AreListed (λ n. Fires sieve corners.now walls.now (choices_of n (disc.now ∷ rest.now)) → ⊥) (λ n. n / 2 ≡ set) more)) }
{
    let choices = choices_of(alloc, set, rest)?;
    let left = Choice {
        disc: *disc,
        is_in: false,
    };
    let taken = Choice {
        disc: *disc,
        is_in: true,
    };
    add_set(
        sieve,
        corners,
        walls,
        &left,
        choices.as_slice(),
        2 * set,
        sets,
    )?;
    add_set(
        sieve,
        corners,
        walls,
        &taken,
        choices.as_slice(),
        2 * set + 1,
        sets,
    )?;
    Ok(())
}

// Adds the set, where no rule takes it out because of its first choice.
fn add_set(
    sieve: Sieve,
    corners: &[P2],
    walls: &[Wall],
    first: &Choice,
    rest: &[Choice],
    set: usize,
    sets: &mut List<usize>,
) -> Result<(), Memory>
    requires points { All IsSmallPoint corners.now }
    requires tight { All IsSmallCorner corners.now }
    requires lines { All (λ wall. IsSizedLine wall.line) walls.now }
    requires disc { IsSizedDisc first.now.disc }
    requires discs { All (λ e. IsSizedDisc e.disc) rest.now }
    ensures { OnOk result ((more : Listed ℕ) × (sets.new ≡ sets.old ++ more) × AreListed (λ _. FiresFirst sieve corners.now walls.now first.now rest.now → ⊥) (λ n. n ≡ set) more) }
{
    if fires_first(sieve, corners, walls, first, rest) {
        return Ok(());
    }
    sets.push(set)?;
    Ok(())
}

// Whether a rule takes out the region with the choices because of the first one.
fn fires_first(
    sieve: Sieve,
    corners: &[P2],
    walls: &[Wall],
    first: &Choice,
    rest: &[Choice],
) -> bool
    requires points { All IsSmallPoint corners.now }
    requires tight { All IsSmallCorner corners.now }
    requires lines { All (λ wall. IsSizedLine wall.line) walls.now }
    requires disc { IsSizedDisc first.now.disc }
    requires discs { All (λ e. IsSizedDisc e.disc) rest.now }
    ensures { IsTrue result ↔ FiresFirst sieve corners.now walls.now first.now rest.now }
{
    match sieve {
        Sieve::Coarse => drops_first(corners, walls, first, rest),
        Sieve::Fine => fires_fine(corners, walls, first, rest),
    }
}

fn fires_fine(corners: &[P2], walls: &[Wall], first: &Choice, rest: &[Choice]) -> bool
    requires points { All IsSmallPoint corners.now }
    requires tight { All IsSmallCorner corners.now }
    requires lines { All (λ wall. IsSizedLine wall.line) walls.now }
    requires disc { IsSizedDisc first.now.disc }
    requires discs { All (λ e. IsSizedDisc e.disc) rest.now }
    ensures { IsTrue result ↔ FiresFirst Sieve.Fine corners.now walls.now first.now rest.now }
{
    drops_first(corners, walls, first, rest) || thins_first(corners, first, rest)
}
