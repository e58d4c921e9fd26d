//! What is said of each refusal: a name, and where it is or what it counts.
ghost use Rattle.bc_io.specs.Growing.{GrewBy};
ghost use Rattle.bc_status.specs.Reports.{at_line, at_word, at_token, at_face, at_place, counted, open_words, skew_words, edge_words, corner_words, of_grammar, of_text, of_contours, of_mesh, of_limit, of_csg, overlap_words, of_layers, of_part, second_words, of_inner, in_layer_words, said};

use crate::{InnerFault, PartFault, Refusal};
use bc_gcode::GFault;
use bc_io::{Pen, Sink};
use bc_natural::NatFault;
use bc_num::{V2, V3};
use bc_off::OffFault;
use bc_prism::LayerFault;
use bc_read::CsgFault;
use bc_solid::{ContourFault, MeshFault};

fn put_at_line<K: Sink>(pen: &mut Pen<K>, name: &[u8], line: u32)
    ensures { GrewBy K.held K.faults pen.old pen.new (at_line name.now line) }
{
    pen.put(name);
    pen.put_next(b" line ", line);
}

// A fault whose word is 0 prints no word.
fn put_at_word<K: Sink>(pen: &mut Pen<K>, name: &[u8], line: u32, word: u32)
    ensures { GrewBy K.held K.faults pen.old pen.new (at_word name.now line word) }
{
    put_at_line(pen, name, line);
    if word > 0 {
        pen.put_next(b" word ", word);
    }
}

fn put_at_token<K: Sink>(pen: &mut Pen<K>, name: &[u8], line: u32, token: u32)
    ensures { GrewBy K.held K.faults pen.old pen.new (at_token name.now line token) }
{
    put_at_line(pen, name, line);
    pen.put_next(b" token ", token);
}

fn put_at_face<K: Sink>(pen: &mut Pen<K>, name: &[u8], face: u32)
    ensures { GrewBy K.held K.faults pen.old pen.new (at_face name.now face) }
{
    pen.put(name);
    pen.put_next(b" face ", face);
}

fn put_at_place<K: Sink>(pen: &mut Pen<K>, name: &[u8], face: u32, place: u32)
    ensures { GrewBy K.held K.faults pen.old pen.new (at_place name.now face place) }
{
    put_at_face(pen, name, face);
    pen.put_next(b" place ", place);
}

fn put_counted<K: Sink>(pen: &mut Pen<K>, name: &[u8], n: u64)
    ensures { GrewBy K.held K.faults pen.old pen.new (counted name.now n) }
{
    pen.put(name);
    pen.put_next(b" ", n);
}

fn put_open<K: Sink>(pen: &mut Pen<K>, line: u32, a: &V2, b: &V2)
    ensures { GrewBy K.held K.faults pen.old pen.new (open_words line a.now b.now) }
{
    put_at_line(pen, b"OpenContour", line);
    pen.put_next(b" from ", a.x);
    pen.put_next(b" ", a.y);
    pen.put_next(b" to ", b.x);
    pen.put_next(b" ", b.y);
}

fn put_grammar<K: Sink>(pen: &mut Pen<K>, fault: &GFault)
    ensures { GrewBy K.held K.faults pen.old pen.new (of_grammar fault.now) }
{
    match fault {
        GFault::BadWord { line, word } => put_at_word(pen, b"BadWord", *line, *word),
        GFault::UnknownWord { line, word } => put_at_word(pen, b"UnknownWord", *line, *word),
        GFault::Incremental { line, word } => put_at_word(pen, b"Incremental", *line, *word),
        GFault::TwinWord { line, word } => put_at_word(pen, b"TwinWord", *line, *word),
        GFault::NotWhole { line, word } => put_at_word(pen, b"NotWhole", *line, *word),
        GFault::TooFar { line, word } => put_at_word(pen, b"TooFar", *line, *word),
        GFault::ThreeAxis { line } => put_at_line(pen, b"ThreeAxis", *line),
        GFault::MissingMotion { line } => put_at_line(pen, b"MissingMotion", *line),
        GFault::MissingCentre { line } => put_at_line(pen, b"MissingCentre", *line),
        GFault::OpenContour { line, start, end } => put_open(pen, *line, start, end),
        GFault::TooMany { line } => put_at_line(pen, b"TooMany", *line),
        GFault::Memory => pen.put(b"Memory"),
    }
}

fn put_text<K: Sink>(pen: &mut Pen<K>, fault: &OffFault)
    ensures { GrewBy K.held K.faults pen.old pen.new (of_text fault.now) }
{
    match fault {
        OffFault::NotOff { line, word } => put_at_word(pen, b"NotOff", *line, *word),
        OffFault::BadCount { line, word } => put_at_word(pen, b"BadCount", *line, *word),
        OffFault::Short { line, word } => put_at_word(pen, b"Short", *line, *word),
        OffFault::BadWord { line, word } => put_at_word(pen, b"BadWord", *line, *word),
        OffFault::NotWhole { line, word } => put_at_word(pen, b"NotWhole", *line, *word),
        OffFault::TooFar { line, word } => put_at_word(pen, b"TooFar", *line, *word),
        OffFault::BadIndex { line, word } => put_at_word(pen, b"BadIndex", *line, *word),
        OffFault::ShortFace { line, word } => put_at_word(pen, b"ShortFace", *line, *word),
        OffFault::TooMany { line, word } => put_at_word(pen, b"TooMany", *line, *word),
        OffFault::Extra { line, word } => put_at_word(pen, b"Extra", *line, *word),
        OffFault::Memory => pen.put(b"Memory"),
    }
}

// The coordinates of a corner, each behind a blank.
fn put_corner<K: Sink>(pen: &mut Pen<K>, v: &V3)
    ensures { GrewBy K.held K.faults pen.old pen.new (corner_words v.now) }
{
    pen.put_next(b" ", v.x);
    pen.put_next(b" ", v.y);
    pen.put_next(b" ", v.z);
}

fn put_edge<K: Sink>(pen: &mut Pen<K>, a: &V3, b: &V3, n: u32)
    ensures { GrewBy K.held K.faults pen.old pen.new (edge_words a.now b.now n) }
{
    pen.put(b"OddEdge");
    put_corner(pen, a);
    put_corner(pen, b);
    pen.put_next(b" count ", n);
}

fn put_mesh<K: Sink>(pen: &mut Pen<K>, fault: &MeshFault)
    ensures { GrewBy K.held K.faults pen.old pen.new (of_mesh fault.now) }
{
    match fault {
        MeshFault::TwinCorner { face, place } => put_at_place(pen, b"TwinCorner", *face, *place),
        MeshFault::FlatFace { face } => put_at_face(pen, b"FlatFace", *face),
        MeshFault::BentFace { face, place } => put_at_place(pen, b"BentFace", *face, *place),
        MeshFault::OddEdge { a, b, count } => put_edge(pen, a, b, *count),
        MeshFault::Memory => pen.put(b"Memory"),
    }
}

fn put_skew<K: Sink>(pen: &mut Pen<K>, at: u32, start2: i64, end2: i64)
    ensures { GrewBy K.held K.faults pen.old pen.new (skew_words at start2 end2) }
{
    pen.put(b"SkewArc");
    pen.put_next(b" element ", at);
    pen.put_next(b" start2 ", start2);
    pen.put_next(b" end2 ", end2);
}

fn put_contours<K: Sink>(pen: &mut Pen<K>, fault: &ContourFault)
    ensures { GrewBy K.held K.faults pen.old pen.new (of_contours fault.now) }
{
    match fault {
        ContourFault::ZeroRadius { at } => {
            pen.put(b"ZeroRadius");
            pen.put_next(b" element ", *at);
        }
        ContourFault::SkewArc { at, start2, end2 } => put_skew(pen, *at, *start2, *end2),
        ContourFault::Memory => pen.put(b"Memory"),
    }
}

fn put_limit<K: Sink>(pen: &mut Pen<K>, fault: &NatFault)
    ensures { GrewBy K.held K.faults pen.old pen.new (of_limit fault.now) }
{
    match fault {
        NatFault::TooManyPlanes { n } => put_counted(pen, b"TooManyPlanes", *n),
        NatFault::TooManyLines { n } => put_counted(pen, b"TooManyLines", *n),
        NatFault::TooManyDiscs { n } => put_counted(pen, b"TooManyDiscs", *n),
        NatFault::Memory => pen.put(b"Memory"),
    }
}

fn put_csg<K: Sink>(pen: &mut Pen<K>, fault: &CsgFault)
    ensures { GrewBy K.held K.faults pen.old pen.new (of_csg fault.now) }
{
    match fault {
        CsgFault::BadToken { line, token } => put_at_token(pen, b"BadToken", *line, *token),
        CsgFault::BadShape { line, token } => put_at_token(pen, b"BadShape", *line, *token),
        CsgFault::BadNumber { line, token } => put_at_token(pen, b"BadNumber", *line, *token),
        CsgFault::BadFrame { line, token } => put_at_token(pen, b"BadFrame", *line, *token),
        CsgFault::Mixed { line, token } => put_at_token(pen, b"Mixed", *line, *token),
        CsgFault::TooDeep { line, token } => put_at_token(pen, b"TooDeep", *line, *token),
        CsgFault::Extra { line, token } => put_at_token(pen, b"Extra", *line, *token),
        CsgFault::Memory => pen.put(b"Memory"),
    }
}

fn put_overlap<K: Sink>(pen: &mut Pen<K>, first: u32, second: u32)
    ensures { GrewBy K.held K.faults pen.old pen.new (overlap_words first second) }
{
    pen.put(b"Overlap");
    pen.put_next(b" layer ", first);
    pen.put_next(b" layer ", second);
}

fn put_layers<K: Sink>(pen: &mut Pen<K>, fault: &LayerFault)
    ensures { GrewBy K.held K.faults pen.old pen.new (of_layers fault.now) }
{
    match fault {
        LayerFault::BadLayer { line } => put_at_line(pen, b"BadLayer", *line),
        LayerFault::TooManyLayers { line } => put_at_line(pen, b"TooManyLayers", *line),
        LayerFault::Overlap { first, second } => put_overlap(pen, *first, *second),
        LayerFault::Memory => pen.put(b"Memory"),
    }
}

fn put_part<K: Sink>(pen: &mut Pen<K>, fault: &PartFault)
    ensures { GrewBy K.held K.faults pen.old pen.new (of_part fault.now) }
{
    match fault {
        PartFault::Off(fault) => put_text(pen, fault),
        PartFault::G(fault) => put_grammar(pen, fault),
        PartFault::Mesh(fault) => put_mesh(pen, fault),
        PartFault::Contour(fault) => put_contours(pen, fault),
        PartFault::Csg(fault) => put_csg(pen, fault),
    }
}

fn put_in_second<K: Sink>(pen: &mut Pen<K>, fault: &PartFault)
    ensures { GrewBy K.held K.faults pen.old pen.new (second_words fault.now) }
{
    pen.put(b"part 2 ");
    put_part(pen, fault);
}

fn put_inner<K: Sink>(pen: &mut Pen<K>, fault: &InnerFault)
    ensures { GrewBy K.held K.faults pen.old pen.new (of_inner fault.now) }
{
    match fault {
        InnerFault::G(fault) => put_grammar(pen, fault),
        InnerFault::Contour(fault) => put_contours(pen, fault),
        InnerFault::Limit(fault) => put_limit(pen, fault),
    }
}

fn put_in_layer<K: Sink>(pen: &mut Pen<K>, layer: u32, fault: &InnerFault)
    ensures { GrewBy K.held K.faults pen.old pen.new (in_layer_words layer fault.now) }
{
    pen.put_next(b"layer ", layer);
    pen.put(b" ");
    put_inner(pen, fault);
}

/// What is said of a refusal.
pub fn put_said<K: Sink>(pen: &mut Pen<K>, refusal: &Refusal)
    ensures { GrewBy K.held K.faults pen.old pen.new (said refusal.now) }
{
    match refusal {
        Refusal::PointTooFine => pen.put(b"PointTooFine"),
        Refusal::PointOffPlane => pen.put(b"PointOffPlane"),
        Refusal::TooLong => pen.put(b"TooLong"),
        Refusal::Off(fault) => put_text(pen, fault),
        Refusal::G(fault) => put_grammar(pen, fault),
        Refusal::Mesh(fault) => put_mesh(pen, fault),
        Refusal::Contour(fault) => put_contours(pen, fault),
        Refusal::Limit(fault) => put_limit(pen, fault),
        Refusal::Csg(fault) => put_csg(pen, fault),
        Refusal::NoPart => pen.put(b"NoPart"),
        Refusal::PartTooLong { part } => put_counted(pen, b"PartTooLong", *part as u64),
        Refusal::Second(fault) => put_in_second(pen, fault),
        Refusal::NotSolid => pen.put(b"NotSolid"),
        Refusal::OtherBox => pen.put(b"OtherBox"),
        Refusal::Layer(fault) => put_layers(pen, fault),
        Refusal::InLayer { layer, fault } => put_in_layer(pen, *layer, fault),
    }
}
