//! What the plane and space have in common: points, half-spaces and boxes, what is asked of them, and the laws that
//! the answers keep. The plane is in `flat`, space in `solid`, and the laws are stated in `specs/Laws`.
ghost use Rattle.std.specs.Prelude.{◌≡◌, ℕ, List, ◌*◌, ◌<◌, ◌↔◌, length, IsTrue, Option, Some, slice_get};
ghost use Rattle.std.specs.List.{All};

use crate::HalfSpace;

/// A space of points, half-spaces and boxes, with the laws that an arrangement of half-spaces rests on. The laws hold for
/// numbers of any size; conditions on sizes stand at the calls.
pub trait Space {
    ghost use Rattle.bc_space.specs.Laws.{FactorLaw, MediantLaw, HullLaw, EdgeLaw, SizeLaw, MeetLaw, BoxLaw};

    type Point: Copy;

    type Half: HalfSpace<Point = Self::Point> + Copy;

    type Bounds: Copy;

    /// 2 in the plane and 3 in space.
    ghost dimension: { ℕ };

    /// The sizes of half-spaces and boxes that the calls take, and of points: of those that `side` takes, and of the
    /// mediants of meets.
    ghost half_fits: { Self.Half → Type 0 };

    ghost box_fits: { Self.Bounds → Type 0 };

    ghost point_fits: { Self.Point → Type 0 };

    ghost inner_fits: { Self.Point → Type 0 };

    /// The numbers of the first point are those of the second times one factor above 0.
    ghost is_multiple: { Self.Point → Self.Point → Type 0 };

    /// The numbers of the point have no common divisor but 1.
    ghost is_reduced: { Self.Point → Type 0 };

    /// The mediant: number by number the sum.
    ghost mixed: { Self.Point → Self.Point → Self.Point };

    /// The common point of as many half-spaces as there are dimensions, in lowest terms, where they have one alone.
    ghost met: { List Self.Half → Option Self.Point };

    /// The sides of a box, with the box Above each: least before greatest, x before y before z.
    ghost walls: { Self.Bounds → List Self.Half };

    /// How many dimensions there are.
    fn dim() -> usize
        ensures { result ≡ dimension };

    /// Whether the two points have the same numbers.
    fn same(p: &Self::Point, q: &Self::Point) -> bool
        ensures { IsTrue result ↔ (p.now ≡ q.now) };

    /// The mediant of the two points, which is of the size that `side` takes.
    fn mix(p: &Self::Point, q: &Self::Point) -> Self::Point
        requires { point_fits (mixed p.now q.now) }
        ensures { result ≡ mixed p.now q.now };

    /// The common point of `dim()` half-spaces in lowest terms. `None` exactly where the determinant of their normals is 0.
    fn meet(halves: &[Self::Half]) -> Option<Self::Point>
        requires many { length halves.now ≡ dimension }
        requires sized { All half_fits halves.now }
        ensures { result ≡ met halves.now };

    /// The side of the box with index `i`, which is below `2 * dim()`. The inside of the box is Above it.
    fn wall(bounds: &Self::Bounds, i: usize) -> Self::Half
        requires { i < 2 * dimension }
        ensures { slice_get (walls bounds.now) i ≡ Some result };

    /// A positive factor on a point's numbers keeps its side.
    ghost factor: { FactorLaw Self.Half.side_of is_multiple };

    /// On which side a mediant is.
    ghost mediant: { MediantLaw Self.Half.side_of mixed };

    /// The corners of a region reach as far as the region does.
    ghost hull: { HullLaw Self.Half.side_of met dimension walls };

    /// Where a half-space and others meet in a region, there is a corner, or an edge between two corners.
    ghost edge: { EdgeLaw Self.Half.side_of met dimension walls };

    /// The mediants of meets are of a stated size.
    ghost size: { SizeLaw half_fits inner_fits mixed met dimension };

    /// A meet is on each of its half-spaces and in lowest terms.
    ghost meets: { MeetLaw Self.Half.side_of is_reduced met };

    /// How many walls a box has, and their sizes.
    ghost boxes: { BoxLaw half_fits box_fits point_fits inner_fits dimension walls };

    ghost side_fits: { (h : Self.Half) (p : Self.Point) → half_fits h → point_fits p → Self.Half.can_side h p };
}
