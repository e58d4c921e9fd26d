//! The vertices of a region that is told by constraints, and a point strictly within.
ghost use Rattle.std.specs.Prelude.{◌≡◌, ◌≢◌, ◌↔◌, ◌*◌, ◌<◌, ◌≤◌, length, map, IsTrue, IfOk, OnOk, MatchOption, Some};
ghost use Rattle.std.specs.List.{All, Contains};
ghost use Rattle.bc_space.specs.declared.side.Side.TheVariants.{On};
ghost use Rattle.bc_cells.specs.Constraints.{Toward, IsInClosure, IsStrict, IsOnce, IsShut, HasVertices, IsCellOf, facing, inward};
ghost use Rattle.bc_cells.specs.Gathers.{Gathers, Selects};

use crate::{Cell, Constraint};
use bc_num::{List, Memory};
use bc_space::{HalfSpace, Side, Space};
use std::alloc::Global;

/// The constraints of the open region of `q`.
pub(crate) fn constraints_at<S: Space>(
    alloc: Global,
    halves: &[S::Half],
    q: &S::Point,
) -> Result<List<Constraint<S>>, Memory>
    requires sized { All S.half_fits halves.now }
    requires fits { S.point_fits q.now }
    ensures { IfOk result (λ fs. fs ≡ map (facing S.Half.side_of q.now) halves.now) }
{
    let mut constraints = List::new(alloc);
    for h in halves {
        constraints.push(Constraint {
            half: *h,
            side: h.side(q),
        })?;
    }
    Ok(constraints)
}

/// The constraints of the box.
pub(crate) fn inward_constraints<S: Space>(
    alloc: Global,
    walls: &[S::Half],
) -> Result<List<Constraint<S>>, Memory>
    ensures { IfOk result (λ fs. fs ≡ map inward walls.now) }
{
    let mut constraints = List::new(alloc);
    for h in walls {
        constraints.push(Constraint {
            half: *h,
            side: Side::Above,
        })?;
    }
    Ok(constraints)
}

/// Those of the points that are not strictly on the other side of `h`.
pub(crate) fn points_toward<S: Space>(
    alloc: Global,
    h: &S::Half,
    side: Side,
    points: &[S::Point],
) -> Result<List<S::Point>, Memory>
    requires half { S.half_fits h.now }
    requires fits { All S.point_fits points.now }
    ensures { IfOk result (λ kept. Selects points.now kept (λ c. Toward side (S.Half.side_of h.now c))) }
{
    let mut kept = List::new(alloc);
    for c in points {
        if is_toward(side, h.side(c)) {
            kept.push(*c)?;
        }
    }
    Ok(kept)
}

/// Those of the points that are in the closed region of `q`, each once.
pub(crate) fn points_inside<S: Space>(
    alloc: Global,
    halves: &[S::Half],
    q: &S::Point,
    points: &[S::Point],
) -> Result<List<S::Point>, Memory>
    requires sized { All S.half_fits halves.now }
    requires fits { S.point_fits q.now }
    requires points { All S.point_fits points.now }
    ensures { IfOk result (λ kept. (c : S.Point) → Contains kept c ↔ (Contains points.now c × IsInClosure {S = S} {B = S.Bounds} S.Half.side_of (map (facing S.Half.side_of q.now) halves.now) c)) }
{
    let mut kept = List::new(alloc);
    if points.is_empty() {
        return Ok(kept);
    }
    let constraints = constraints_at::<S>(alloc, halves, q)?;
    gather::<S>(constraints.as_slice(), points, &mut kept)?;
    Ok(kept)
}

/// Adds those of the points that are nowhere strictly on the other side of a constraint.
pub(crate) fn gather<S: Space>(
    constraints: &[Constraint<S>],
    points: &[S::Point],
    kept: &mut List<S::Point>,
) -> Result<(), Memory>
    requires sized { All (λ f. S.half_fits f.half) constraints.now }
    requires fits { All S.point_fits points.now }
    ensures gathers { OnOk result (Gathers kept.old kept.new (λ c. Contains points.now c × All (λ f. Toward f.side (S.Half.side_of f.half c)) constraints.now)) }
    ensures once { OnOk result (IsOnce kept.old → IsOnce kept.new) }
{
    for c in points {
        gather_one::<S>(constraints, c, kept)?;
    }
    Ok(())
}

fn gather_one<S: Space>(
    constraints: &[Constraint<S>],
    c: &S::Point,
    kept: &mut List<S::Point>,
) -> Result<(), Memory>
    requires sized { All (λ f. S.half_fits f.half) constraints.now }
    requires fits { S.point_fits c.now }
    ensures gathers { OnOk result (Gathers kept.old kept.new (λ d. (d ≡ c.now) × All (λ f. Toward f.side (S.Half.side_of f.half d)) constraints.now)) }
    ensures once { OnOk result (IsOnce kept.old → IsOnce kept.new) }
{
    if !is_inside::<S>(constraints, c) {
        return Ok(());
    }
    if has_point::<S>(kept.as_slice(), c) {
        return Ok(());
    }
    kept.push(*c)
}

fn is_inside<S: Space>(constraints: &[Constraint<S>], c: &S::Point) -> bool
    requires sized { All (λ f. S.half_fits f.half) constraints.now }
    requires fits { S.point_fits c.now }
    ensures { IsTrue result ↔ All (λ f. Toward f.side (S.Half.side_of f.half c.now)) constraints.now }
{
    for f in constraints {
        if !is_toward(f.side, f.half.side(c)) {
            return false;
        }
    }
    true
}

fn is_toward(s: Side, t: Side) -> bool
    ensures { IsTrue result ↔ Toward s t }
{
    match (s, t) {
        (Side::Below, Side::Above) => false,
        (Side::Above, Side::Below) => false,
        _ => true,
    }
}

fn has_point<S: Space>(points: &[S::Point], c: &S::Point) -> bool
    ensures { IsTrue result ↔ Contains points.now c.now }
{
    for d in points {
        if S::same(d, c) {
            return true;
        }
    }
    false
}

/// The cell of the constraints, if their open region has a point.
pub(crate) fn cell_of<S: Space>(
    mask: u64,
    constraints: &[Constraint<S>],
    corners: List<S::Point>,
) -> Option<Cell<S>>
    requires some { 0 < length constraints.now }
    requires few { length constraints.now ≤ 46 }
    requires sized { All (λ f. S.half_fits f.half) constraints.now }
    requires off { All (λ f. f.side ≢ On) constraints.now }
    requires fits { All S.point_fits corners }
    requires exact { HasVertices S.Half.side_of S.met S.dimension constraints.now corners }
    ensures { MatchOption result (IsShut S.Half.side_of S.met S.dimension constraints.now) (IsCellOf S.inner_fits S.Half.side_of S.met S.dimension constraints.now mask) }
{
    match inner_of::<S>(constraints, corners.as_slice()) {
        None => None,
        Some(inner) => Some(Cell {
            mask,
            inner,
            corners,
        }),
    }
}

fn inner_of<S: Space>(constraints: &[Constraint<S>], corners: &[S::Point]) -> Option<S::Point>
    requires some { 0 < length constraints.now }
    requires few { length constraints.now ≤ 46 }
    requires sized { All (λ f. S.half_fits f.half) constraints.now }
    requires off { All (λ f. f.side ≢ On) constraints.now }
    requires fits { All S.point_fits corners.now }
    requires exact { HasVertices S.Half.side_of S.met S.dimension constraints.now corners.now }
    ensures { MatchOption result (IsShut S.Half.side_of S.met S.dimension constraints.now) (λ p. IsStrict S.Half.side_of constraints.now p × S.inner_fits p) }
{
    if corners.is_empty() {
        return None;
    }
    let mut sum = corners[0];
    for f in constraints {
        match corner_on::<S>(f, corners) {
            None => return None,
            Some(c) => {
                sum = S::mix(&sum, &c);
            }
        }
    }
    Some(sum)
}

pub(crate) fn corner_on<S: Space>(f: &Constraint<S>, corners: &[S::Point]) -> Option<S::Point>
    requires sized { S.half_fits f.now.half }
    requires fits { All S.point_fits corners.now }
    ensures { MatchOption result (All (λ c. S.Half.side_of f.now.half c ≢ f.now.side) corners.now) (λ c. Contains corners.now c × (S.Half.side_of f.now.half c ≡ f.now.side)) }
{
    for c in corners {
        if f.half.side(c) == f.side {
            return Some(*c);
        }
    }
    None
}
