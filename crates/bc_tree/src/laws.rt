//! Laws of trees and leaves, over the definitions alone.

ghost use Rattle.std.specs.Prelude.{◌≡◌, pos, ◌≤ℤ◌, ◌↔◌};
ghost use Rattle.bc_num.specs.declared.p2.P2.{P2 as Point2};
ghost use Rattle.bc_num.specs.declared.p3.P3.{P3 as Point3};
ghost use Rattle.bc_tree.specs.Leaves.{IsFrame3, IsFrame2, InSlab, OnSlab, InStrip, OnStrip};
ghost use Rattle.bc_tree.specs.Near.{IsNear3, IsNear2, rise3, rise2};
ghost use Rattle.bc_tree.specs.Axis.{IsAxis3, IsAxis2, InShort3, InShort2};
ghost use Rattle.bc_tree.specs.Spells.{SpellsOneTree, WordsOfOneTree, AxisLeafHasTwo, OtherLeafHasOne, ShortOnce};

use crate::{Frame2, Frame3};

/// A text spells at most one tree, and a token sequence is that of at most one tree that the grammar allows.
pub fn one_tree_law()
    ensures text { SpellsOneTree }
    ensures words { WordsOfOneTree }
{}

/// An axis leaf has two token sequences, the long form and the short one, and these differ; every other leaf has one. A tree
/// has exactly one in which every axis leaf is short.
pub fn short_law()
    ensures two { AxisLeafHasTwo }
    ensures one { OtherLeafHasOne }
    ensures short { ShortOnce }
{}

/// The set of an axis slab is the closed box from the least corner with the sides of its short form. The point's numbers may
/// have any size.
pub fn axis_law3(f: &Frame3)
    requires frame { IsFrame3 f.now }
    requires axis { IsAxis3 f.now.n }
    ensures { (p : Point3) → (InSlab f.now p ↔ InShort3 f.now p) }
{}

/// The set of an axis strip is the closed rectangle from the least corner with the sides of its short form. The point's numbers
/// may have any size.
pub fn axis_law2(f: &Frame2)
    requires frame { IsFrame2 f.now }
    requires axis { IsAxis2 f.now.u }
    ensures { (p : Point2) → (InStrip f.now p ↔ InShort2 f.now p) }
{}

/// Where each coordinate of a point is within 2047 of the origin's, a slab holds exactly where the displacement's product
/// with the normal is at least 0, and the point is on its boundary exactly where that product is 0. The point's numbers may
/// have any size.
pub fn slab_law(f: &Frame3)
    requires { IsFrame3 f.now }
    ensures holds { (p : Point3) → IsNear3 (pos 2047) f.now.o p → (InSlab f.now p ↔ (pos 0 ≤ℤ rise3 f.now p)) }
    ensures edge { (p : Point3) → IsNear3 (pos 2047) f.now.o p → (OnSlab f.now p ↔ (rise3 f.now p ≡ pos 0)) }
{}

/// The same of a strip, where each coordinate of a point is within 4941 of the origin's.
pub fn strip_law(f: &Frame2)
    requires { IsFrame2 f.now }
    ensures holds { (p : Point2) → IsNear2 (pos 4941) f.now.o p → (InStrip f.now p ↔ (pos 0 ≤ℤ rise2 f.now p)) }
    ensures edge { (p : Point2) → IsNear2 (pos 4941) f.now.o p → (OnStrip f.now p ↔ (rise2 f.now p ≡ pos 0)) }
{}
