//! What a source and a sink of bytes promise: how many bytes move, which bytes they are where that is told, and that a
//! failure raises the count of faults. Those in memory stand in `mem_source` and `mem_sink`, and those over std in
//! `std_source` and `std_sink`.
ghost use Rattle.std.specs.Prelude.{◌≡◌, ◌<◌, List, ℕ, Option, length, IfOk, OnOk};
ghost use Rattle.std.specs.Io.{ReadsAtMost, WritesAtMost};
ghost use Rattle.std.specs.Io.KnownBytes.{ReadConsumes, WriteAppends};
ghost use Rattle.bc_io.specs.Causes.{HasCause};

/// A read or a write failed.
#[derive(Clone, Copy, Debug, PartialEq, Eq)]
pub struct Failed;

/// Bytes to read. A source may tell which bytes it has left, as one in memory does; standard input tells nothing.
pub trait Source {
    /// The bytes that are left, where the source tells them.
    ghost left: { Self → Option (List ℕ) };

    /// How often a read has failed. It never falls, stays at each good read, and counts no further than its type goes.
    ghost faults: { Self → ℕ };

    /// Reads into the front of `buf`: `Ok(n)` says how many bytes, and 0 with room in `buf` is the end. `Failed` comes
    /// only where `faults` rose, and then nothing was taken.
    fn read(&mut self, buf: &mut [u8]) -> Result<usize, Failed>
        ensures bound { ReadsAtMost result buf.new }
        ensures bytes { ReadConsumes (left self.old) (left self.new) result buf.new }
        ensures cause { HasCause (faults self.old) (faults self.new) result }
        ensures good { OnOk result (faults self.new ≡ faults self.old) };
}

/// Where bytes are written to. A sink may tell which bytes it took.
pub trait Sink {
    /// The bytes that it took, where the sink tells them.
    ghost held: { Self → Option (List ℕ) };

    /// How often a write has failed. It never falls, stays at each good write, and counts no further than its type goes.
    ghost faults: { Self → ℕ };

    /// Takes the front of `piece`: `Ok(n)` says how many bytes, at least one of a piece that has some. `Failed` comes
    /// only where `faults` rose, and then nothing was taken.
    fn write(&mut self, piece: &[u8]) -> Result<usize, Failed>
        ensures bound { WritesAtMost result piece.now }
        ensures some { 0 < length piece.now → IfOk result (λ n. 0 < n) }
        ensures bytes { WriteAppends (held self.old) (held self.new) result piece.now }
        ensures cause { HasCause (faults self.old) (faults self.new) result }
        ensures good { OnOk result (faults self.new ≡ faults self.old) };
}
