//! The table of the lines and discs that contours induce, element by element, or the first limit that it passes.
//! `curve_table` keeps it, `limits` has the limits, and `specs/Curves` says what the table is.
ghost use Rattle.std.specs.Prelude.{◌≡◌, List, pos, ◌<ℤ◌, IfOk, IfErr, OnOk};
ghost use Rattle.bc_solid.specs.declared.element.Element.{Element};
ghost use Rattle.bc_num.specs.Measures.{square_between};
ghost use Rattle.bc_num.specs.Sizes.{AreCoords};
ghost use Rattle.bc_space.specs.Discs.{IsSizedDisc};
ghost use Rattle.bc_solid.specs.Closed.{AreNear, IsProper};
ghost use Rattle.bc_natural.specs.Curves.{AreCurves};
ghost use Rattle.bc_natural.specs.Noted.{AddsLine, AddsDisc, Adds};
ghost use Rattle.bc_natural.specs.Limits.{AreSized, AreFew, IsLimitFault};

use crate::{CurveTable, MOST_DISCS, MOST_LINES, NatFault};
use bc_num::{Disc2, Memory, V2};
use bc_solid::{Element, Profile, square_of};
use bc_space::line_through;
use std::alloc::Global;

// Notes the line through a and b, where they differ.
fn note_line(table: &mut CurveTable, a: V2, b: V2) -> Result<(), Memory>
    requires a_near { AreCoords a }
    requires b_near { AreCoords b }
    requires sized { AreSized table.old }
    ensures line { OnOk result (AddsLine a b table.old table.new) }
    ensures sized { OnOk result (AreSized table.new) }
{
    match line_through(a, b) {
        None => Ok(()),
        Some(line) => table.add_line(line, a),
    }
}

// The disc round c through a.
fn disc_round(c: V2, a: V2) -> Disc2
    requires c_near { AreCoords c }
    requires a_near { AreCoords a }
    requires proper { pos 0 <ℤ square_between c a }
    ensures centre { result.c ≡ c }
    ensures radius { result.r2 ≡ square_between c a }
    ensures sized { IsSizedDisc result }
{
    let r2 = square_of(c, a);
    Disc2 { c, r2 }
}

// Notes the disc of an arc from a round c.
fn note_disc(table: &mut CurveTable, a: V2, c: V2) -> Result<(), Memory>
    requires a_near { AreCoords a }
    requires c_near { AreCoords c }
    requires proper { pos 0 <ℤ square_between c a }
    requires sized { AreSized table.old }
    ensures disc { OnOk result (AddsDisc a c table.old table.new) }
    ensures sized { OnOk result (AreSized table.new) }
{
    table.add_disc(disc_round(c, a))
}

// Notes the line of an element, then the disc of an arc.
fn note(table: &mut CurveTable, element: Element) -> Result<(), Memory>
    requires near { AreNear element }
    requires proper { IsProper element }
    requires sized { AreSized table.old }
    ensures noted { OnOk result (Adds element table.old table.new) }
    ensures sized { OnOk result (AreSized table.new) }
{
    match element {
        Element::Edge { a, b } => note_line(table, a, b),
        Element::Arc { a, b, c, .. } => {
            note_line(table, a, b)?;
            note_disc(table, a, c)
        }
    }
}

// The table of the elements, however large it is.
fn gather_curves(alloc: Global, s: &Profile) -> Result<CurveTable, Memory>
    ensures table { IfOk result (AreCurves s.now) }
    ensures sized { IfOk result AreSized }
{
    s.law();
    let mut table = CurveTable::new(alloc);
    for i in 0..s.elements() {
        note(&mut table, s.element(i))?;
    }
    Ok(table)
}

// The first limit that the table passes, with its number.
fn check_curve_limits(table: &CurveTable) -> Result<(), NatFault>
    ensures few { IfOk result (λ _. AreFew table.now) }
    ensures fault { (es : List Element) → AreCurves es table.now → IfErr result (IsLimitFault es) }
{
    let lines = table.lines();
    if lines > MOST_LINES {
        return Err(NatFault::TooManyLines { n: lines as u64 });
    }
    let discs = table.discs();
    if discs > MOST_DISCS {
        return Err(NatFault::TooManyDiscs { n: discs as u64 });
    }
    Ok(())
}

/// The half-spaces of the elements, each once: the canonical lines of edges and of chords of arcs that are no full circles,
/// in the order of the elements, each with the start of its first element as origin; and the discs of the arcs in that
/// order. The cost grows with the number of elements, and the memory with the number of distinct half-spaces.
///
/// # Errors
///
/// `TooManyLines` where there are more than `MOST_LINES` lines, else `TooManyDiscs` where there are more than `MOST_DISCS`
/// discs, each with how many there are in all; `Memory` where there is none.
pub fn curves(alloc: Global, s: &Profile) -> Result<CurveTable, NatFault>
    ensures table { IfOk result (AreCurves s.now) }
    ensures sized { IfOk result AreSized }
    ensures few { IfOk result AreFew }
    ensures fault { IfErr result (IsLimitFault s.now) }
{
    let table = gather_curves(alloc, s)?;
    check_curve_limits(&table)?;
    Ok(table)
}
