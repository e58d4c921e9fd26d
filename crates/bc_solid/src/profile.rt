//! Closed contours that are checked: how many elements they have, and each of them by its number. `contour_check`
//! makes a profile of contours as they are read, and `join` one of two.
ghost use Rattle.std.specs.Prelude.{◌≡◌, ◌≤◌, ◌<◌, ◌^◌, length, slice_get, Some};
ghost use Rattle.bc_solid.specs.Closed.{AreNear, IsProfile};

use crate::Element;
use bc_num::List;
use std::marker::Model;

/// Closed contours: each ends where it began, the ends of an edge differ, and the ends of an arc are equally far from its
/// centre, at a distance above 0. All coordinates are from -1023 to 1023, and there are at most 2^20 elements. The
/// elements are numbered from 0, contour after contour.
#[derive(Drop)]
pub struct Profile {
    pub(crate) items: List<Element>,
}

impl Model for Profile {
    ghost use Rattle.std.specs.Prelude.{List};
    ghost use Rattle.bc_solid.specs.declared.element.Element.{Element};
    ghost use Rattle.bc_solid.specs.Closed.{IsProfile};

    ghost Value = { List Element };

    ghost view = { λ s. s.items };

    ghost invariant = { λ s. IsProfile s.items };
}

impl Profile {
    /// What the checks say of the elements. It does nothing: its promise is the statement.
    pub fn law(&self)
        ensures { IsProfile self.now }
    {
        let _items = &self.items;
    }

    /// How many elements there are.
    pub fn elements(&self) -> usize
        ensures count { result ≡ length self.now }
        ensures few { result ≤ 2 ^ 20 }
    {
        self.items.len()
    }

    /// The element with this number.
    pub fn element(&self, i: usize) -> Element
        requires { i < length self.now }
        ensures element { slice_get self.now i ≡ Some result }
        ensures near { AreNear result }
    {
        *self.items.get(i)
    }
}
