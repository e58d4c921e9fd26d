//! The first lines, and the lines of notes.
ghost use Rattle.std.specs.Prelude.{◌≡◌, ◌++◌, Some};
ghost use Rattle.bc_text.specs.declared.note.Head.TheVariants as heads;
ghost use Rattle.bc_text.specs.declared.note.Spot.TheVariants as spots;
ghost use Rattle.bc_io.specs.Growing.{GrewBy};
ghost use Rattle.bc_text.specs.Layout.{spot_text, mark_text, note_line, flat_box_line, solid_box_line, head_text};

use crate::indent::put_indent;
use crate::{Head, Mark, Spot};
use bc_io::{Pen, Sink};
use bc_num::{Box2, Box3, P2, P3};

pub fn put_head<K: Sink>(pen: &mut Pen<K>, head: &Head)
    ensures { GrewBy K.held K.faults pen.old pen.new (head_text head.now) }
{
    match head {
        Head::Contour(b) => put_flat_head(pen, b),
        Head::Solid(b) => put_solid_head(pen, b),
        Head::Plain { flat } => put_plain_head(pen, *flat),
    }
}

fn put_plain_head<K: Sink>(pen: &mut Pen<K>, flat: bool)
    ensures { GrewBy K.held K.faults pen.old pen.new (head_text (heads.Plain flat)) }
{
    if flat {
        pen.put(b"// bcsg 2 contour\n");
    } else {
        pen.put(b"// bcsg 2 solid\n");
    }
}

fn put_flat_head<K: Sink>(pen: &mut Pen<K>, b: &Box2)
    ensures { GrewBy K.held K.faults pen.old pen.new (head_text (heads.Contour b.now)) }
{
    pen.put(b"// bcsg 2 contour\n");
    put_flat_box(pen, b);
    pen.put(b"\n");
}

fn put_flat_box<K: Sink>(pen: &mut Pen<K>, b: &Box2)
    ensures { GrewBy K.held K.faults pen.old pen.new (flat_box_line b.now) }
{
    pen.put(b"// box ");
    pen.put_number(b.x0);
    pen.put_next(b" ", b.y0);
    pen.put_next(b" ", b.x1);
    pen.put_next(b" ", b.y1);
}

fn put_solid_head<K: Sink>(pen: &mut Pen<K>, b: &Box3)
    ensures { GrewBy K.held K.faults pen.old pen.new (head_text (heads.Solid b.now)) }
{
    pen.put(b"// bcsg 2 solid\n");
    put_solid_box(pen, b);
    pen.put(b"\n");
}

/// The second line of the head of a solid, which says its box, without the line's end.
pub fn put_solid_box<K: Sink>(pen: &mut Pen<K>, b: &Box3)
    ensures { GrewBy K.held K.faults pen.old pen.new (solid_box_line b.now) }
{
    pen.put(b"// box ");
    pen.put_number(b.x0);
    pen.put_next(b" ", b.y0);
    pen.put_next(b" ", b.z0);
    pen.put_next(b" ", b.x1);
    pen.put_next(b" ", b.y1);
    pen.put_next(b" ", b.z1);
}

/// The line of a node's note, where it has one.
pub fn put_note<K: Sink>(pen: &mut Pen<K>, depth: usize, mark: Option<Mark>)
    ensures { GrewBy K.held K.faults pen.old pen.new (note_line depth mark) }
{
    match mark {
        None => {}
        Some(mark) => put_mark_line(pen, depth, mark),
    }
}

fn put_mark_line<K: Sink>(pen: &mut Pen<K>, depth: usize, mark: Mark)
    ensures { GrewBy K.held K.faults pen.old pen.new (note_line depth (Some mark)) }
{
    put_indent(pen, depth);
    pen.put(b"// ");
    put_mark(pen, mark);
    pen.put(b"\n");
}

fn put_mark<K: Sink>(pen: &mut Pen<K>, mark: Mark)
    ensures { GrewBy K.held K.faults pen.old pen.new (mark_text mark) }
{
    match mark {
        Mark::Own(spot) => {
            pen.put(b"own ");
            put_spot(pen, spot);
        }
        Mark::OwnUndecided => pen.put(b"own undecided"),
        Mark::Out(spot) => {
            pen.put(b"out ");
            put_spot(pen, spot);
        }
        Mark::OutUndecided => pen.put(b"out undecided"),
        Mark::Needs(spot) => {
            pen.put(b"needs ");
            put_spot(pen, spot);
        }
        Mark::NeedsUndecided => pen.put(b"needs undecided"),
    }
}

fn put_spot<K: Sink>(pen: &mut Pen<K>, spot: Spot)
    ensures { GrewBy K.held K.faults pen.old pen.new (spot_text spot) }
{
    match spot {
        Spot::Flat(p) => put_flat_point(pen, &p),
        Spot::Solid(p) => put_solid_point(pen, &p),
    }
}

fn put_flat_point<K: Sink>(pen: &mut Pen<K>, p: &P2)
    ensures { GrewBy K.held K.faults pen.old pen.new (spot_text (spots.Flat p.now)) }
{
    pen.put_number(p.x);
    pen.put_next(b" ", p.y);
    pen.put_next(b" ", p.w);
}

fn put_solid_point<K: Sink>(pen: &mut Pen<K>, p: &P3)
    ensures { GrewBy K.held K.faults pen.old pen.new (spot_text (spots.Solid p.now)) }
{
    pen.put_number(p.x);
    pen.put_next(b" ", p.y);
    pen.put_next(b" ", p.z);
    pen.put_next(b" ", p.w);
}
