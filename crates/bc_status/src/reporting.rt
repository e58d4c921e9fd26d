//! The line of a status.
ghost use Rattle.bc_io.specs.Growing.{GrewBy};
ghost use Rattle.bc_status.specs.Reports.{line, refused_line, Notes};

use crate::lines::put_said;
use crate::{Refusal, Status};
use bc_io::{Pen, Sink};

// As many bytes as the longest line has, or more; a longer one would take a write more.
const LINE: usize = 128;

fn put_refused<K: Sink>(pen: &mut Pen<K>, refusal: &Refusal)
    ensures { GrewBy K.held K.faults pen.old pen.new (refused_line refusal.now) }
{
    pen.put(b"refused: ");
    put_said(pen, refusal);
    pen.put(b"\n");
}

fn put_line<K: Sink>(pen: &mut Pen<K>, status: &Status)
    ensures { GrewBy K.held K.faults pen.old pen.new (line status.now) }
{
    match status {
        Status::Done => {}
        Status::Refused(refusal) => put_refused(pen, refusal),
        Status::Usage => pen.put(b"usage: unknown command line\n"),
        Status::ReadFault => pen.put(b"read fault\n"),
        Status::WriteFault => pen.put(b"write fault\n"),
        Status::Memory => pen.put(b"out of memory\n"),
    }
}

/// Puts the line of a status to the notes: nothing on `Done`. A fault of the notes changes nothing. No memory is taken.
pub fn report<E: Sink>(status: &Status, notes: &mut E)
    ensures { Notes status.now (E.held notes.old) (E.held notes.new) (E.faults notes.old) (E.faults notes.new) }
{
    let mut buf = [0u8; LINE];
    let mut pen = Pen::new(&mut buf, notes);
    put_line(&mut pen, status);
    let _ = pen.finish();
}
