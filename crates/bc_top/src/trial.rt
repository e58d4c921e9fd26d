//! `trial`: the CSG text of a generated boundary, and a summary of what it counts.
ghost use Rattle.std.specs.Prelude.{◌≡◌, ◌≤◌, ◌++◌, IfOk, IfErr};
ghost use Rattle.std.specs.Io.KnownBytes.{Keeps};
ghost use Rattle.bc_text.specs.Layout.{layout};
ghost use Rattle.bc_text.specs.Numbered.{Ascend, EndEarly};
ghost use Rattle.bc_tree.specs.Shape.{shape};
ghost use Rattle.bc_tree.specs.Spells.{IsAllowed};
ghost use Rattle.bc_top.specs.Commands.{most_of};
ghost use Rattle.bc_top.specs.Promises.{Fulfils};
ghost use Rattle.bc_top.specs.Stages.{IsPut};
ghost use Rattle.bc_top.specs.Streams.{Reading, writing};
ghost use Rattle.bc_top.specs.Trials.{IsTrial, trials};

use crate::boundary::{parse_profile, parse_solid};
use crate::command::Kind;
use crate::convert::put_formula;
use crate::streams::put_text;
use crate::summary::{contour_summary, mesh_summary};
use bc_formula::{
    Formula, Masks, contour_division, contour_part_counts, formula_of, mesh_division,
};
use bc_io::Sink;
use bc_status::Status;
use bc_trial::laws::{contour_law, off_law};
use bc_trial::{MOST_CONTOUR, MOST_OFF, trial_contour, trial_off};
use std::alloc::Global;

// What a trial writes: the text of a formula, and behind it a summary.
#[derive(Drop)]
pub struct Written {
    pub formula: Formula,
    pub summary: Vec<u8>,
}

fn trial_of_mesh(alloc: Global, n: u32) -> Result<Written, Status>
    requires least { 1 ≤ n }
    requires most { n ≤ MOST_OFF }
    ensures allowed { IfOk result (λ t. IsAllowed (shape t.formula.tree)) }
    ensures rising { IfOk result (λ t. Ascend t.formula.notes.items) }
    ensures early { IfOk result (λ t. EndEarly t.formula.notes.items) }
    ensures text { IfOk result (λ t. IsTrial Kind.Off n (layout t.formula.head t.formula.notes.items (shape t.formula.tree) ++ t.summary.items)) }
    ensures err { IfErr result (λ s. s ≡ Status.Memory) }
{
    off_law();
    let text = trial_off(alloc, n)?;
    let solid = parse_solid(alloc, text.as_slice())?;
    let division = mesh_division(alloc, &solid)?;
    let formula = formula_of(alloc, &division)?;
    let summary = mesh_summary(alloc, n, &division, &formula)?;
    Ok(Written { formula, summary })
}

fn trial_of_contours(alloc: Global, n: u32) -> Result<Written, Status>
    requires least { 1 ≤ n }
    requires most { n ≤ MOST_CONTOUR }
    ensures allowed { IfOk result (λ t. IsAllowed (shape t.formula.tree)) }
    ensures rising { IfOk result (λ t. Ascend t.formula.notes.items) }
    ensures early { IfOk result (λ t. EndEarly t.formula.notes.items) }
    ensures text { IfOk result (λ t. IsTrial Kind.Contour n (layout t.formula.head t.formula.notes.items (shape t.formula.tree) ++ t.summary.items)) }
    ensures err { IfErr result (λ s. s ≡ Status.Memory) }
{
    contour_law();
    let text = trial_contour(alloc, n)?;
    let profile = parse_profile(alloc, text.as_slice())?;
    // All candidates are counted, and the text is made of the lean ones.
    let parts = contour_part_counts(alloc, &profile)?;
    let division = contour_division(alloc, &profile, Masks::Lean)?;
    let formula = formula_of(alloc, &division)?;
    let summary = contour_summary(alloc, n, &division, parts, &formula)?;
    Ok(Written { formula, summary })
}

// Puts the text of the formula, and then the summary. Want of memory is known before the first byte is written.
fn put_written<O: Sink>(alloc: Global, written: &Written, out: &mut O) -> Status
    requires allowed { IsAllowed (shape written.now.formula.tree) }
    requires rising { Ascend written.now.formula.notes.items }
    requires early { EndEarly written.now.formula.notes.items }
    ensures { IsPut (layout written.now.formula.head written.now.formula.notes.items (shape written.now.formula.tree) ++ written.now.summary.items) result (writing O.held O.faults out.old out.new) }
{
    match put_formula(alloc, &written.formula, out) {
        Status::Done => put_text(&written.summary, out),
        status => status,
    }
}

fn generate(alloc: Global, kind: Kind, n: u32) -> Result<Written, Status>
    requires least { 1 ≤ n }
    requires most { n ≤ most_of kind }
    ensures allowed { IfOk result (λ t. IsAllowed (shape t.formula.tree)) }
    ensures rising { IfOk result (λ t. Ascend t.formula.notes.items) }
    ensures early { IfOk result (λ t. EndEarly t.formula.notes.items) }
    ensures text { IfOk result (λ t. IsTrial kind n (layout t.formula.head t.formula.notes.items (shape t.formula.tree) ++ t.summary.items)) }
    ensures err { IfErr result (λ s. s ≡ Status.Memory) }
{
    match kind {
        Kind::Contour => trial_of_contours(alloc, n),
        Kind::Off => trial_of_mesh(alloc, n),
    }
}

/// Writes the CSG text of the generated boundary of this kind with number `n`, and then a summary. Nothing is read.
pub fn trial<O: Sink>(alloc: Global, kind: Kind, n: u32, out: &mut O) -> Status
    requires least { 1 ≤ n }
    requires most { n ≤ most_of kind }
    ensures { (r : Reading) → Keeps r.left r.rest → Fulfils (trials kind n) result r (writing O.held O.faults out.old out.new) }
{
    match generate(alloc, kind, n) {
        Ok(written) => put_written(alloc, &written, out),
        Err(status) => status,
    }
}
