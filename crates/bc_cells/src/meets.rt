//! The common points of half-spaces, over all choices of as many as there are dimensions.
ghost use Rattle.std.specs.Prelude.{◌≡◌, ◌↔◌, ◌+◌, ◌*◌, ◌<◌, ◌≤◌, ◌++◌, [], ◌∷◌, length, take, IfOk, OnOk, Some};
ghost use Rattle.std.specs.Prelude.{List as Listed};
ghost use Rattle.std.specs.List.{All, Contains};
ghost use Rattle.bc_hull.specs.Choices.{IsPart};
ghost use Rattle.bc_cells.specs.Constraints.{IsMeetOn};
ghost use Rattle.bc_cells.specs.Gathers.{Gathers};

use bc_num::{List, Memory};
use bc_space::Space;
use std::alloc::Global;

/// The walls of the box, and then the first `k` half-spaces.
pub(crate) fn earlier_of<S: Space>(
    alloc: Global,
    bounds: &S::Bounds,
    halves: &[S::Half],
    k: usize,
) -> Result<List<S::Half>, Memory>
    requires { k ≤ length halves.now }
    ensures { IfOk result (λ hs. hs ≡ S.walls bounds.now ++ take k halves.now) }
{
    let mut all = walls_of::<S>(alloc, bounds)?;
    for i in 0..k {
        all.push(halves[i])?;
    }
    Ok(all)
}

/// The walls of the box.
pub(crate) fn walls_of<S: Space>(alloc: Global, bounds: &S::Bounds) -> Result<List<S::Half>, Memory>
    ensures { IfOk result (λ ws. ws ≡ S.walls bounds.now) }
{
    let mut walls = List::new(alloc);
    for i in 0..wall_count::<S>() {
        walls.push(S::wall(bounds, i))?;
    }
    Ok(walls)
}

fn wall_count<S: Space>() -> usize
    ensures { result ≡ 2 * S.dimension }
{
    2 * S::dim()
}

/// The common points of `h` and one half-space fewer than there are dimensions of the earlier ones.
pub(crate) fn meets_on<S: Space>(
    alloc: Global,
    earlier: &[S::Half],
    h: &S::Half,
) -> Result<List<S::Point>, Memory>
    requires sized { All S.half_fits earlier.now }
    requires half { S.half_fits h.now }
    ensures { IfOk result (λ points. (c : S.Point) → Contains points c ↔ IsMeetOn S.met S.dimension earlier.now h.now c) }
{
    let mut found = List::new(alloc);
    add_meets_on::<S>(alloc, earlier, h, &mut found)?;
    Ok(found)
}

/// Adds the common points of `h` and one half-space fewer than there are dimensions of the list.
pub(crate) fn add_meets_on<S: Space>(
    alloc: Global,
    from: &[S::Half],
    h: &S::Half,
    found: &mut List<S::Point>,
) -> Result<(), Memory>
    requires sized { All S.half_fits from.now }
    requires half { S.half_fits h.now }
    ensures { OnOk result (Gathers found.old found.new (λ c. IsMeetOn S.met S.dimension from.now h.now c)) }
{
    let chosen = List::new(alloc);
    add_meets::<S>(alloc, others::<S>(), from, chosen.as_slice(), h, found)
}

fn others<S: Space>() -> usize
    ensures { result + 1 ≡ S.dimension }
{
    S::dim() - 1
}

fn add_meets<S: Space>(
    alloc: Global,
    want: usize,
    rest: &[S::Half],
    chosen: &[S::Half],
    h: &S::Half,
    found: &mut List<S::Point>,
) -> Result<(), Memory>
    requires many { length chosen.now + want + 1 ≡ S.dimension }
    requires rest { All S.half_fits rest.now }
    requires chosen { All S.half_fits chosen.now }
    requires half { S.half_fits h.now }
    ensures { OnOk result (Gathers found.old found.new (λ c. (hs : Listed S.Half) × IsPart hs rest.now × (length hs ≡ want) × (S.met ((chosen.now ++ hs) ++ h.now ∷ []) ≡ Some c))) }
{
    if want == 0 {
        return add_meet::<S>(alloc, chosen, h, found);
    }
    if rest.is_empty() {
        return Ok(());
    }
    add_meets::<S>(alloc, want, &rest[1..], chosen, h, found)?;
    let more = with_last::<S>(alloc, chosen, &rest[0])?;
    add_meets::<S>(alloc, want - 1, &rest[1..], more.as_slice(), h, found)
}

fn add_meet<S: Space>(
    alloc: Global,
    chosen: &[S::Half],
    h: &S::Half,
    found: &mut List<S::Point>,
) -> Result<(), Memory>
    requires many { length chosen.now + 1 ≡ S.dimension }
    requires chosen { All S.half_fits chosen.now }
    requires half { S.half_fits h.now }
    ensures { OnOk result (Gathers found.old found.new (λ c. S.met (chosen.now ++ h.now ∷ []) ≡ Some c)) }
{
    let all = with_last::<S>(alloc, chosen, h)?;
    match S::meet(all.as_slice()) {
        None => Ok(()),
        Some(c) => found.push(c),
    }
}

fn with_last<S: Space>(
    alloc: Global,
    halves: &[S::Half],
    last: &S::Half,
) -> Result<List<S::Half>, Memory>
    ensures { IfOk result (λ hs. hs ≡ halves.now ++ last.now ∷ []) }
{
    let mut all = List::new(alloc);
    for h in halves {
        all.push(*h)?;
    }
    all.push(*last)?;
    Ok(all)
}
