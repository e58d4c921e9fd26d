//! The comparisons that crossings are told by, of numbers and truth values alone. Among them is the order of points
//! along a circle, counter-clockwise from its right extreme.
ghost use Rattle.std.specs.Prelude.{◌≡◌, pos, ◌*ℤ◌, int_lt, int_le, ◌&&◌, ◌||◌};
ghost use Rattle.std.specs.Ordering.{int_eq};
ghost use Rattle.bc_parity.specs.Parity.{xor};
ghost use Rattle.bc_parity.specs.Crossings.{comes_first as first_of, upper_first as upper_first_of, lower_first as lower_first_of, lies_on as on_part, half_by};

pub(crate) fn is_at_most(x: i128, y: i128) -> bool
    ensures { result ≡ int_le x y }
{
    x <= y
}

pub(crate) fn is_less(x: i128, y: i128) -> bool
    ensures { result ≡ int_lt x y }
{
    x < y
}

pub(crate) fn is_equal(x: i128, y: i128) -> bool
    ensures { result ≡ int_eq x y }
{
    x == y
}

// Whether c * v is above 0, without the product.
pub(crate) fn have_one_sign(c: i64, v: i128) -> bool
    ensures { result ≡ int_lt (pos 0) (c *ℤ v) }
{
    c > 0 && v > 0 || c < 0 && v < 0
}

pub(crate) fn exactly_one(a: bool, b: bool) -> bool
    ensures { result ≡ xor a b }
{
    a != b
}

// Whether s comes before e, by their halves and by whether x falls and rises from s to e.
pub(crate) fn comes_first(s_upper: bool, e_upper: bool, falls: bool, rises: bool) -> bool
    ensures { result ≡ first_of (half_by s_upper) (half_by e_upper) falls rises }
{
    if s_upper {
        !e_upper || falls
    } else {
        !e_upper && rises
    }
}

// Whether the column's upper point comes before t.
pub(crate) fn upper_first(upper: bool, before: bool) -> bool
    ensures { result ≡ upper_first_of (half_by upper) before }
{
    !upper || !before
}

// Whether the column's lower point comes before t.
pub(crate) fn lower_first(upper: bool, before: bool) -> bool
    ensures { result ≡ lower_first_of (half_by upper) before }
{
    !upper && before
}

// Whether a point is on the arc from s to e, by whether it comes before s and before e.
pub(crate) fn lies_on(same: bool, order: bool, to_s: bool, to_e: bool) -> bool
    ensures { result ≡ on_part same order to_s to_e }
{
    if same {
        true
    } else if order {
        !to_s && to_e
    } else {
        !to_s || to_e
    }
}

// Whether a column meets a circle: by the square of its distance from the centre, the squared radius, and whether it is
// before the centre.
pub(crate) fn meets(square: i128, reach: i128, before: bool) -> bool
    ensures { result ≡ (int_lt square reach || (int_eq square reach && before)) }
{
    square < reach || square == reach && before
}
