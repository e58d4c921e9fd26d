//! What the block of a line does to a program: it moves the position, adds an element, closes a contour or sets the
//! motion mode, or it gives the block's first fault. `specs/Program` has the rules, and `read` goes from block to
//! block.
ghost use Rattle.std.specs.Prelude.{◌≡◌, ◌+ℤ◌, pos, Result, Option, Some, None, if◌then◌else◌};
ghost use Rattle.std.specs.Option.{unwrap_or};
ghost use Rattle.bc_gcode.specs.Answers.{Does};
ghost use Rattle.bc_solid.specs.Closed.{start_of, end_of};
ghost use Rattle.bc_solid.specs.Contours.{is_far, is_far_point};
ghost use Rattle.bc_gcode.specs.Program.{last_end, ends_of, close, add, has_end, has_centre, has_axis, end_point, centre, rapid, linear, arc, move_in, block_done};

use crate::block::{Block, Motion};
use crate::fault::GFault;
use crate::program::Program;
use crate::words::far;
use bc_num::{List, V2};
use bc_solid::Element;
use std::alloc::Global;
use std::mem;

fn begin_of(element: &Element) -> V2
    ensures { result ≡ start_of element.now }
{
    match element {
        Element::Edge { a, .. } | Element::Arc { a, .. } => *a,
    }
}

fn finish_of(element: &Element) -> V2
    ensures { result ≡ end_of element.now }
{
    match element {
        Element::Edge { b, .. } | Element::Arc { b, .. } => *b,
    }
}

// Where the last of some elements ends.
fn last_point(first: &Element, rest: &[Element]) -> V2
    ensures { result ≡ last_end first.now rest.now }
{
    match rest.last() {
        Some(last) => finish_of(last),
        None => finish_of(first),
    }
}

// Where a contour begins and where it ends.
fn contour_ends(contour: &[Element]) -> Option<(V2, V2)>
    ensures { result ≡ ends_of contour.now }
{
    let [first, rest @ ..] = contour else {
        return None;
    };
    Some((begin_of(first), last_point(first, rest)))
}

// Closes the contour and keeps it; an empty one is dropped.
pub fn close_contour(alloc: Global, program: &mut Program, line: u32) -> Result<(), GFault>
    ensures { Does result program.new (close line program.old) }
{
    let Some((start, end)) = contour_ends(program.contour.as_slice()) else {
        return Ok(());
    };
    if start != end {
        return Err(GFault::OpenContour { line, start, end });
    }
    let contour = mem::replace(&mut program.contour, List::new(alloc));
    program.contours.push(contour)?;
    Ok(())
}

// Adds an element to the contour.
fn add_element(program: &mut Program, element: &Element, line: u32) -> Result<(), GFault>
    ensures { Does result program.new (add line program.old element.now) }
{
    if program.count >= 512 {
        return Err(GFault::TooMany { line });
    }
    program.contour.push(*element)?;
    program.position = finish_of(element);
    program.count += 1;
    Ok(())
}

fn names_end(block: &Block) -> bool
    ensures { result ≡ has_end block.now }
{
    block.x.is_some() || block.y.is_some()
}

fn names_centre(block: &Block) -> bool
    ensures { result ≡ has_centre block.now }
{
    block.i.is_some() || block.j.is_some()
}

fn names_axis(block: &Block) -> bool
    ensures { result ≡ has_axis block.now }
{
    names_end(block) || names_centre(block)
}

fn end_from(position: &V2, block: &Block) -> V2
    ensures { result ≡ end_point position.now block.now }
{
    V2 {
        x: block.x.unwrap_or(position.x),
        y: block.y.unwrap_or(position.y),
    }
}

// A number moved by an offset, where it is within 1023; an omitted offset is 0.
fn shifted(from: &i64, by: &Option<i64>) -> Option<i64>
    ensures { let v = from.now +ℤ unwrap_or by.now (pos 0) in result ≡ (if is_far v then None else Some v) }
{
    match from.checked_add(by.unwrap_or(0)) {
        Some(v) if !far(v) => Some(v),
        _ => None,
    }
}

// The centre of an arc, where it is within 1023.
fn near_centre(position: &V2, block: &Block) -> Option<V2>
    ensures { let c = centre position.now block.now in result ≡ (if is_far_point c then None else Some c) }
{
    let x = shifted(&position.x, &block.i)?;
    let y = shifted(&position.y, &block.j)?;
    Some(V2 { x, y })
}

fn move_rapid(alloc: Global, program: &mut Program, block: &Block, line: u32) -> Result<(), GFault>
    ensures { Does result program.new (rapid line block.now program.old) }
{
    if !names_end(block) {
        return Ok(());
    }
    close_contour(alloc, program, line)?;
    program.position = end_from(&program.position, block);
    Ok(())
}

fn move_linear(program: &mut Program, block: &Block, line: u32) -> Result<(), GFault>
    ensures { Does result program.new (linear line block.now program.old) }
{
    let from = program.position;
    let to = end_from(&from, block);
    if !names_end(block) || from == to {
        return Ok(());
    }
    add_element(program, &Element::Edge { a: from, b: to }, line)
}

fn move_round(program: &mut Program, block: &Block, ccw: bool, line: u32) -> Result<(), GFault>
    ensures { Does result program.new (arc ccw line block.now program.old) }
{
    if !names_axis(block) {
        return Ok(());
    }
    if !names_centre(block) {
        return Err(GFault::MissingCentre { line });
    }
    let a = program.position;
    let Some(c) = near_centre(&a, block) else {
        return Err(GFault::TooFar { line, word: 0 });
    };
    let b = end_from(&a, block);
    add_element(program, &Element::Arc { a, b, c, ccw }, line)
}

fn move_by(alloc: Global, program: &mut Program, block: &Block, line: u32) -> Result<(), GFault>
    ensures { Does result program.new (move_in program.old.motion line block.now program.old) }
{
    match program.motion {
        None => {
            if names_axis(block) {
                return Err(GFault::MissingMotion { line });
            }
            Ok(())
        }
        Some(Motion::Rapid) => move_rapid(alloc, program, block, line),
        Some(Motion::Linear) => move_linear(program, block, line),
        Some(Motion::Clockwise) => move_round(program, block, false, line),
        Some(Motion::CounterClockwise) => move_round(program, block, true, line),
    }
}

/// What the block of a line does.
pub fn do_block(
    alloc: Global,
    program: &mut Program,
    block: &Block,
    line: u32,
) -> Result<(), GFault>
    ensures { Does result program.new (block_done line block.now program.old) }
{
    if block.z && names_axis(block) {
        return Err(GFault::ThreeAxis { line });
    }
    program.motion = block.mode.unwrap_or(program.motion);
    move_by(alloc, program, block, line)
}
