//! The check of contours: each arc in turn has ends equally far from its centre, and is no point. What is checked
//! becomes a profile, whose promises are in `profile`.
ghost use Rattle.std.specs.Prelude.{◌≡◌, ◌≢◌, ◌≤◌, ◌^◌, ◌+◌, ◌++◌, [], None, Some, length, OnOk, IfOk, IfErr, All};
ghost use Rattle.std.specs.Ordering.{int_eq};
ghost use Rattle.bc_num.specs.Measures.{is_same};
ghost use Rattle.bc_num.specs.Sizes.{AreCoords};
ghost use Rattle.bc_solid.specs.declared.contour_fault.ContourFault.TheVariants.{Memory};
ghost use Rattle.bc_solid.specs.Closed.{joined, AreClosed, AreNear};
ghost use Rattle.bc_solid.specs.ContourFaults.{arc_fault, fault_of, first_fault, IsFault};

use crate::{ContourFault, Element, Profile, RawContours, square_of};
use bc_num::{List, V2};
use std::alloc::Global;

fn is_same_place(a: V2, b: V2) -> bool
    ensures { result ≡ is_same a b }
{
    a.x == b.x && a.y == b.y
}

fn is_equal(m: i64, n: i64) -> bool
    ensures { result ≡ int_eq m n }
{
    m == n
}

fn check_arc(at: u32, a: V2, b: V2, c: V2) -> Result<(), ContourFault>
    requires a_near { AreCoords a }
    requires b_near { AreCoords b }
    requires c_near { AreCoords c }
    ensures ok { IfOk result (λ _. arc_fault at a b c ≡ None) }
    ensures err { IfErr result (λ f. arc_fault at a b c ≡ Some f) }
{
    let start2 = square_of(c, a);
    let end2 = square_of(c, b);
    if is_same_place(c, a) {
        Err(ContourFault::ZeroRadius { at })
    } else if is_equal(end2, start2) {
        Ok(())
    } else {
        Err(ContourFault::SkewArc { at, start2, end2 })
    }
}

fn check_element(at: u32, element: Element) -> Result<(), ContourFault>
    requires near { AreNear element }
    ensures ok { IfOk result (λ _. fault_of at element ≡ None) }
    ensures err { IfErr result (λ f. fault_of at element ≡ Some f) }
{
    match element {
        Element::Edge { .. } => Ok(()),
        Element::Arc { a, b, c, .. } => check_arc(at, a, b, c),
    }
}

// Adds the elements of a contour behind those of the contours before it, each once it is checked.
fn add_contour(items: &mut List<Element>, contour: &[Element]) -> Result<(), ContourFault>
    requires near { All AreNear contour.now }
    requires few { length items.old + length contour.now ≤ 2 ^ 20 }
    ensures added { OnOk result (items.new ≡ items.old ++ contour.now) }
    ensures ok { IfOk result (λ _. first_fault (length items.old) contour.now ≡ None) }
    ensures err { IfErr result (IsFault (length items.old) contour.now) }
{
    for element in contour {
        check_element(items.len() as u32, *element)?;
        items.push(*element)?;
    }
    Ok(())
}

// Adds the elements of all contours, each once it is checked.
fn add_contours(items: &mut List<Element>, contours: &[List<Element>]) -> Result<(), ContourFault>
    requires empty { items.old ≡ [] }
    requires near { All AreNear (joined contours.now) }
    requires few { length (joined contours.now) ≤ 2 ^ 20 }
    ensures added { OnOk result (items.new ≡ joined contours.now) }
    ensures ok { IfOk result (λ _. first_fault 0 (joined contours.now) ≡ None) }
    ensures err { IfErr result (IsFault 0 (joined contours.now)) }
{
    for contour in contours {
        add_contour(items, contour.as_slice())?;
    }
    Ok(())
}

/// The contours as a profile, where each arc's ends are equally far from its centre, at a distance above 0; else the
/// first fault, by the arcs in order. Elements are numbered from 0, contour after contour. The contours are dropped.
///
/// # Errors
///
/// `ZeroRadius` where the centre of an arc is its start, `SkewArc` where the squared distances of its ends from its
/// centre differ, `Memory` where there is none.
pub fn check_contours(alloc: Global, raw: RawContours) -> Result<Profile, ContourFault>
    ensures elements { IfOk result (λ s. s ≡ joined raw.contours) }
    ensures closed { IfOk result (λ _. AreClosed raw.contours) }
    ensures fault { IfErr result (IsFault 0 (joined raw.contours)) }
    ensures open { IfErr result (λ f. f ≢ Memory → AreClosed raw.contours → ⊥) }
{
    let mut items = List::new(alloc);
    add_contours(&mut items, raw.contours.as_slice())?;
    Ok(Profile { items })
}
