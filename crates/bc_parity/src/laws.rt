//! The laws of the boundary parity, for points with numbers of any size. Each is a function that does nothing: its
//! promise is the law.
ghost use Rattle.bc_solid.specs.Closed.{IsClosedArc};
ghost use Rattle.bc_parity.specs.ChordLaw.{arc_of, ChordLaw};
ghost use Rattle.bc_parity.specs.FaceLaws.{CellLaw3, OutsideLaw3, PlaneLaw};
ghost use Rattle.bc_parity.specs.Laws.{AwayLaw, CellLaw, FlipLaw, OutsideLaw, StraightCellLaw};

use bc_num::V2;
use bc_solid::{Profile, Solid};

/// The chord law, of the arc from `a` to `b` round `c`: from a point on neither the circle nor the chord's line, the
/// downward ray crosses the arc an odd number of times exactly where it crosses the chord, flipped where the point is in
/// the disc and on the arc's side of the chord (the right of the chord from `a` to `b` for a counter-clockwise arc, the
/// left for a clockwise one). It crosses a full circle an odd number of times exactly where the point is in the disc.
pub fn chord_law(a: V2, b: V2, c: V2, ccw: bool)
    requires { IsClosedArc a b c }
    ensures { ChordLaw (arc_of a b c ccw) }
{}

/// The straight cell law: two points on none of the lines of the edges and chords, and Above the same of them, have the
/// same straight parity.
pub fn straight_cell_law(s: &Profile)
    ensures { StraightCellLaw s.now }
{
    s.law();
}

/// The cell law: two points on the boundary of none of the half-spaces, and Above the same of them, have the same parity.
pub fn cell_law2(s: &Profile)
    ensures { CellLaw s.now }
{
    s.law();
}

/// The parity of a point on no boundary is the straight one, flipped once for each arc in whose disc and on whose side of
/// the chord it is, and once for each full circle in whose disc it is.
pub fn flip_law(s: &Profile)
    ensures { FlipLaw s.now }
{
    s.law();
}

/// Strictly outside the discs of all arcs the parity is the straight one, also on the lines.
pub fn away_law(s: &Profile)
    ensures { AwayLaw s.now }
{
    s.law();
}

/// Outside the closed box of the elements the parity is even, also on the lines.
pub fn outside_law2(s: &Profile)
    ensures { OutsideLaw s.now }
{
    s.law();
}

/// The plane law: over the line of an edge that is not vertical, a point on no plane of a face is strictly above all of
/// these planes that go through the edge, or strictly below all of them, and none of them is vertical.
pub fn plane_law(s: &Solid)
    ensures { PlaneLaw s.now }
{
    s.law();
}

/// The cell law: two points on no plane of a face, and Above the same of these planes, have the same parity.
pub fn cell_law3(s: &Solid)
    ensures { CellLaw3 s.now }
{
    s.law();
}

/// Outside the closed box of the mesh the parity is even, also on the planes of faces.
pub fn outside_law3(s: &Solid)
    ensures { OutsideLaw3 s.now }
{
    s.law();
}
