//! A sink over any writer of std, which counts failed writes. `traits` says what a sink is, and `specs/Adapters` what
//! is kept here.
ghost use Rattle.std.specs.Prelude.{◌≡◌, List, ℕ, Option};

use crate::{Failed, Sink};
use std::io::Write;

/// A writer of std as a sink. It tells what the writer tells (nothing, for standard output), and counts each error and
/// each write that takes 0 bytes of a piece that has some.
#[derive(Drop)]
pub struct StdSink<W: Write> {
    inner: W,
    faults: u64,
}

impl<W: Write> StdSink<W> {
    ghost use Rattle.bc_io.specs.Adapters.{sink_inner, sink_faults};

    /// The sink over `inner`, with no fault counted.
    pub fn new(inner: W) -> StdSink<W>
        ensures inner { sink_inner result ≡ inner }
        ensures faults { sink_faults result ≡ 0 }
    {
        StdSink { inner, faults: 0 }
    }
}

impl<W: Write> Sink for StdSink<W> {
    ghost held = { λ s. W.contents s.inner };

    ghost faults = { λ s. s.faults };

    fn write(&mut self, piece: &[u8]) -> Result<usize, Failed> {
        match self.inner.write(piece) {
            Ok(count) if count > 0 || piece.is_empty() => Ok(count),
            _ => {
                self.faults = self.faults.saturating_add(1);
                Err(Failed)
            }
        }
    }
}
