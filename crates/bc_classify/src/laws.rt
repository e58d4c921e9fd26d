//! Laws of masks and parities, for points with numbers of any size. Each is a function that does nothing: its promise is
//! the law.
ghost use Rattle.std.specs.Prelude.{◌++◌};
ghost use Rattle.bc_natural.specs.Curves.{AreCurves};
ghost use Rattle.bc_natural.specs.Planes.{ArePlanes};
ghost use Rattle.bc_classify.specs.Splits.{OddMaskLaw};
ghost use Rattle.bc_classify.specs.CellSplits.{OddCellLaw};
ghost use Rattle.bc_classify.specs.JointMasks.{JointMaskLaw, JointCellLaw};
ghost use Rattle.bc_classify.specs.SideMasks.{SideMaskLaw, SideCellLaw};

use bc_natural::{CurveTable, PlaneTable};
use bc_parity::laws::{cell_law3, flip_law, straight_cell_law};
use bc_solid::{Profile, Solid};

/// A point on no boundary is odd exactly where its mask is odd, at any point on none of the table's lines and Above the
/// same of them.
pub fn odd_mask_law(s: &Profile, c: &CurveTable)
    requires table { AreCurves s.now c.now }
    ensures { OddMaskLaw s.now c.now }
{
    s.law();
    flip_law(s);
    straight_cell_law(s);
}

/// Two points on no plane of a face that are Above the same planes of the table have the same parity.
pub fn odd_cell_law(s: &Solid, t: &PlaneTable)
    requires table { ArePlanes s.now t.now }
    ensures { OddCellLaw s.now t.now }
{
    s.law();
    cell_law3(s);
}

/// Points have equal masks of the table exactly where they are Above the same lines and discs of the elements.
pub fn side_mask_law(s: &Profile, c: &CurveTable)
    requires table { AreCurves s.now c.now }
    ensures { SideMaskLaw s.now c.now }
{
    s.law();
}

/// Points on no plane of a face have equal masks of the table exactly where they are on the same sides of all these planes.
pub fn side_cell_law(s: &Solid, t: &PlaneTable)
    requires table { ArePlanes s.now t.now }
    ensures { SideCellLaw s.now t.now }
{}

/// Over the table of two profiles, one behind the other, a point on none of its boundaries is odd for each of the two exactly
/// where its mask is odd for that one, at any point on none of the table's lines and Above the same of them.
pub fn joint_mask_law(a: &Profile, b: &Profile, c: &CurveTable)
    requires table { AreCurves (a.now ++ b.now) c.now }
    ensures { JointMaskLaw a.now b.now c.now }
{
    a.law();
    b.law();
    flip_law(a);
    flip_law(b);
    straight_cell_law(a);
    straight_cell_law(b);
}

/// Over the table of two meshes, one behind the other, two points on none of its planes that are Above the same of them have
/// the same parity for each of the two.
pub fn joint_cell_law(a: &Solid, b: &Solid, t: &PlaneTable)
    requires table { ArePlanes (a.now ++ b.now) t.now }
    ensures { JointCellLaw a.now b.now t.now }
{
    cell_law3(a);
    cell_law3(b);
}
