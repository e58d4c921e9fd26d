//! The cell of the box, and the parts into which a half-space divides a cell.
ghost use Rattle.std.specs.Prelude.{◌≡◌, ◌≢◌, ◌+◌, ◌*◌, ◌^◌, ◌<◌, ◌≤◌, [], length, map, IfOk, MatchOption};
ghost use Rattle.std.specs.List.{All};
ghost use Rattle.bc_space.specs.declared.side.Side.TheVariants.{Below, On, Above};
ghost use Rattle.bc_space.specs.Regions.{bit_of_side};
ghost use Rattle.bc_cells.specs.Constraints.{IsShut, IsCellOf, HasVertices, AreNew, part_constraints, facing, inward};
ghost use Rattle.bc_cells.specs.Cells.{AreCells, IsCellAmong};

use crate::corners::{
    cell_of, constraints_at, corner_on, gather, inward_constraints, points_inside, points_toward,
};
use crate::crossings::crossings;
use crate::meets::{meets_on, walls_of};
use crate::{Cell, Constraint};
use bc_num::{List, Memory};
use bc_space::{HalfSpace, Side, Space};
use std::alloc::Global;

/// The cell of the box alone, if the box has a free point.
pub(crate) fn box_cells<S: Space>(
    alloc: Global,
    bounds: &S::Bounds,
) -> Result<List<Cell<S>>, Memory>
    requires bounds { S.box_fits bounds.now }
    ensures { IfOk result (AreCells S.inner_fits S.Half.side_of S.met S.dimension (S.walls bounds.now) []) }
{
    let walls = walls_of::<S>(alloc, bounds)?;
    let mut cells = List::new(alloc);
    match box_cell::<S>(alloc, walls.as_slice())? {
        None => {}
        Some(c) => cells.push(c)?,
    }
    Ok(cells)
}

fn box_cell<S: Space>(alloc: Global, walls: &[S::Half]) -> Result<Option<Cell<S>>, Memory>
    requires some { 0 < length walls.now }
    requires few { length walls.now ≤ 46 }
    requires sized { All S.half_fits walls.now }
    ensures { IfOk result (λ r. MatchOption r (IsShut {S = S} {B = S.Bounds} S.Half.side_of S.met S.dimension (map inward walls.now)) (IsCellOf S.inner_fits S.Half.side_of S.met S.dimension (map inward walls.now) 0)) }
{
    let constraints = inward_constraints::<S>(alloc, walls)?;
    let corners = box_corners::<S>(alloc, walls, constraints.as_slice())?;
    Ok(cell_of::<S>(0, constraints.as_slice(), corners))
}

/// The corners of the box.
fn box_corners<S: Space>(
    alloc: Global,
    walls: &[S::Half],
    constraints: &[Constraint<S>],
) -> Result<List<S::Point>, Memory>
    requires sized { All S.half_fits walls.now }
    requires constraints { constraints.now ≡ map inward walls.now }
    ensures { IfOk result (HasVertices S.Half.side_of S.met S.dimension constraints.now) }
{
    let mut corners = List::new(alloc);
    for i in 0..walls.len() {
        let on = meets_on::<S>(alloc, &walls[..i], &walls[i])?;
        gather::<S>(constraints, on.as_slice(), &mut corners)?;
    }
    Ok(corners)
}

/// The two parts of a cell, where it has them.
#[derive(Drop)]
pub struct Parted<S: Space> {
    pub below: Option<Cell<S>>,
    pub above: Option<Cell<S>>,
}

/// The parts of a cell of the earlier half-spaces on both sides of the next one, which has the place `k`.
pub(crate) fn parts_of<S: Space>(
    alloc: Global,
    earlier: &[S::Half],
    h: &S::Half,
    k: usize,
    parent: &Cell<S>,
) -> Result<Parted<S>, Memory>
    requires place { k < 40 }
    requires few { length earlier.now ≤ 45 }
    requires sized { All S.half_fits earlier.now }
    requires half { S.half_fits h.now }
    requires parent { IsCellAmong S.inner_fits S.Half.side_of S.met S.dimension S.walls earlier.now parent.now }
    requires mask { parent.now.mask < 2 ^ k }
    ensures below { IfOk result (λ r. MatchOption r.below (IsShut {S = S} {B = S.Bounds} S.Half.side_of S.met S.dimension (part_constraints S.Half.side_of earlier.now parent.now.inner h.now Below)) (IsCellOf S.inner_fits S.Half.side_of S.met S.dimension (part_constraints S.Half.side_of earlier.now parent.now.inner h.now Below) (parent.now.mask + bit_of_side Below * 2 ^ k))) }
    ensures above { IfOk result (λ r. MatchOption r.above (IsShut {S = S} {B = S.Bounds} S.Half.side_of S.met S.dimension (part_constraints S.Half.side_of earlier.now parent.now.inner h.now Above)) (IsCellOf S.inner_fits S.Half.side_of S.met S.dimension (part_constraints S.Half.side_of earlier.now parent.now.inner h.now Above) (parent.now.mask + bit_of_side Above * 2 ^ k))) }
{
    let found = crossings::<S>(alloc, earlier, h, parent.corners.as_slice())?;
    let inside = points_inside::<S>(alloc, earlier, &parent.inner, found.as_slice())?;
    let new = inside.as_slice();
    let below = part::<S>(alloc, earlier, h, k, Side::Below, new, parent)?;
    let above = part::<S>(alloc, earlier, h, k, Side::Above, new, parent)?;
    Ok(Parted { below, above })
}

// The part of a cell on one side of another half-space, if it has one.
fn part<S: Space>(
    alloc: Global,
    earlier: &[S::Half],
    h: &S::Half,
    k: usize,
    side: Side,
    new: &[S::Point],
    parent: &Cell<S>,
) -> Result<Option<Cell<S>>, Memory>
    requires place { k < 40 }
    requires few { length earlier.now ≤ 45 }
    requires sized { All S.half_fits earlier.now }
    requires half { S.half_fits h.now }
    requires side { side ≢ On }
    requires mask { parent.now.mask < 2 ^ k }
    requires fits { S.inner_fits parent.now.inner }
    requires off { All (λ g. S.Half.side_of g parent.now.inner ≢ On) earlier.now }
    requires vertices { HasVertices {S = S} {B = S.Bounds} S.Half.side_of S.met S.dimension (map (facing S.Half.side_of parent.now.inner) earlier.now) parent.now.corners }
    requires new { AreNew {S = S} {B = S.Bounds} S.Half.side_of S.met S.dimension (map (facing S.Half.side_of parent.now.inner) earlier.now) h.now parent.now.corners new.now }
    ensures { IfOk result (λ r. MatchOption r (IsShut {S = S} {B = S.Bounds} S.Half.side_of S.met S.dimension (part_constraints S.Half.side_of earlier.now parent.now.inner h.now side)) (IsCellOf S.inner_fits S.Half.side_of S.met S.dimension (part_constraints S.Half.side_of earlier.now parent.now.inner h.now side) (parent.now.mask + bit_of_side side * 2 ^ k))) }
{
    let last = Constraint { half: *h, side };
    if let None = corner_on::<S>(&last, parent.corners.as_slice()) {
        return Ok(None);
    }
    let mask = parent.mask + bit_at(side, k);
    let corners = corners_of_part::<S>(alloc, earlier, h, side, new, parent)?;
    if h.side(&parent.inner) == side {
        return Ok(Some(Cell {
            mask,
            inner: parent.inner,
            corners,
        }));
    }
    let constraints = constraints_of_part::<S>(alloc, earlier, h, side, &parent.inner)?;
    Ok(cell_of::<S>(mask, constraints.as_slice(), corners))
}

// The corners of a part: those of the cell on its side, and the new ones.
fn corners_of_part<S: Space>(
    alloc: Global,
    earlier: &[S::Half],
    h: &S::Half,
    side: Side,
    new: &[S::Point],
    parent: &Cell<S>,
) -> Result<List<S::Point>, Memory>
    requires sized { All S.half_fits earlier.now }
    requires half { S.half_fits h.now }
    requires fits { S.inner_fits parent.now.inner }
    requires vertices { HasVertices {S = S} {B = S.Bounds} S.Half.side_of S.met S.dimension (map (facing S.Half.side_of parent.now.inner) earlier.now) parent.now.corners }
    requires new { AreNew {S = S} {B = S.Bounds} S.Half.side_of S.met S.dimension (map (facing S.Half.side_of parent.now.inner) earlier.now) h.now parent.now.corners new.now }
    ensures { IfOk result (HasVertices {S = S} {B = S.Bounds} S.Half.side_of S.met S.dimension (part_constraints S.Half.side_of earlier.now parent.now.inner h.now side)) }
{
    let mut corners = points_toward::<S>(alloc, h, side, parent.corners.as_slice())?;
    if new.is_empty() {
        return Ok(corners);
    }
    let mut last = List::new(alloc);
    last.push(Constraint { half: *h, side })?;
    gather::<S>(last.as_slice(), new, &mut corners)?;
    Ok(corners)
}

fn constraints_of_part<S: Space>(
    alloc: Global,
    earlier: &[S::Half],
    h: &S::Half,
    side: Side,
    inner: &S::Point,
) -> Result<List<Constraint<S>>, Memory>
    requires sized { All S.half_fits earlier.now }
    requires fits { S.inner_fits inner.now }
    ensures { IfOk result (λ fs. fs ≡ part_constraints S.Half.side_of earlier.now inner.now h.now side) }
{
    let mut constraints = constraints_at::<S>(alloc, earlier, inner)?;
    constraints.push(Constraint { half: *h, side })?;
    Ok(constraints)
}

fn bit_at(side: Side, k: usize) -> u64
    requires { k < 40 }
    ensures { result ≡ bit_of_side side * 2 ^ k }
{
    match side {
        Side::Above => 1 << k,
        _ => 0,
    }
}
