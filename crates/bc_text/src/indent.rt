//! Lines and their indents.
ghost use Rattle.std.specs.Prelude.{◌++◌};
ghost use Rattle.bc_io.specs.Growing.{GrewBy};
ghost use Rattle.bc_text.specs.Layout.{indent};

use bc_io::{Pen, Sink};

/// Two blanks for each level.
pub fn put_indent<K: Sink>(pen: &mut Pen<K>, depth: usize)
    ensures { GrewBy K.held K.faults pen.old pen.new (indent depth) }
{
    for _ in 0..depth {
        pen.put(b"  ");
    }
}

/// A line, or the front of one, with its indent.
pub fn put_line<K: Sink>(pen: &mut Pen<K>, depth: usize, piece: &[u8])
    ensures { GrewBy K.held K.faults pen.old pen.new (indent depth ++ piece.now) }
{
    put_indent(pen, depth);
    pen.put(piece);
}
