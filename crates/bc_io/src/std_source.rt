//! A source over any reader of std, which counts failed reads. `traits` says what a source is, and `specs/Adapters`
//! what is kept here.
ghost use Rattle.std.specs.Prelude.{◌≡◌, List, ℕ, Option};

use crate::{Failed, Source};
use std::io::Read;

/// A reader of std as a source. It tells what the reader tells (nothing, for standard input), and counts each error.
#[derive(Drop)]
pub struct StdSource<R: Read> {
    inner: R,
    faults: u64,
}

impl<R: Read> StdSource<R> {
    ghost use Rattle.bc_io.specs.Adapters.{source_inner, source_faults};

    /// The source over `inner`, with no fault counted.
    pub fn new(inner: R) -> StdSource<R>
        ensures inner { source_inner result ≡ inner }
        ensures faults { source_faults result ≡ 0 }
    {
        StdSource { inner, faults: 0 }
    }
}

impl<R: Read> Source for StdSource<R> {
    ghost left = { λ s. R.remaining s.inner };

    ghost faults = { λ s. s.faults };

    fn read(&mut self, buf: &mut [u8]) -> Result<usize, Failed> {
        match self.inner.read(buf) {
            Ok(count) => Ok(count),
            Err(_) => {
                self.faults = self.faults.saturating_add(1);
                Err(Failed)
            }
        }
    }
}
