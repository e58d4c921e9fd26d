//! Contours as they are read: each closed, with coordinates in range, and arcs that are not checked. `contour_check`
//! makes a profile of them.
ghost use Rattle.std.specs.Prelude.{◌≡◌, ◌≤◌, ◌^◌, true, length, All};
ghost use Rattle.std.specs.List.{list_all};
ghost use Rattle.bc_solid.specs.Closed.{IsContour, joined};
ghost use Rattle.bc_solid.specs.Contours.{is_drawn, AreContours-prop};

use crate::Element;
use bc_num::List;

/// Contours as they are read, not checked yet. In each, every element begins where the one before ended, and the last ends
/// where the first began. No edge has equal ends, all coordinates are within 1023, and there are at most 2^20 elements in
/// all.
#[derive(Drop)]
pub struct RawContours {
    pub contours: List<List<Element>>,
    pub ghost are_closed: { All IsContour contours } by { AreContours-prop contours },
    pub ghost are_drawn: { list_all is_drawn (joined contours) ≡ true },
    pub ghost are_few: { length (joined contours) ≤ 2 ^ 20 },
}
