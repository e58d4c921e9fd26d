//! A source over bytes in memory: what is left is known, and a plan says at which reads it fails. `traits` says what a
//! source is, and `specs/Memory` what this one tells.
ghost use Rattle.std.specs.Prelude.{◌≡◌, ◌≤◌, ◌<◌, List, ℕ, Option, Some, drop, length, is_err, IfOk, OnOk};

use crate::{Failed, Source};

/// A source in memory that tells its bytes. It gives at most `most` bytes a read, at least 1, and fails at the reads
/// numbered in `fails`, from 1.
#[derive(Drop)]
pub struct MemSource {
    bytes: Vec<u8>,
    at: usize,
    most: usize,
    fails: Vec<u64>,
    calls: u64,
    faults: u64,
    ghost within: { at ≤ length bytes.items },
    ghost some: { 0 < most },
}

impl MemSource {
    ghost use Rattle.bc_io.specs.Memory.{source_left, source_faults, source_most, source_plan, source_calls};

    /// A source of all of `bytes`, with no fault counted.
    pub fn new(bytes: Vec<u8>, most: usize, fails: Vec<u64>) -> MemSource
        requires { 0 < most }
        ensures left { source_left result ≡ Some bytes.items }
        ensures faults { source_faults result ≡ 0 }
        ensures most { source_most result ≡ most }
        ensures plan { source_plan result ≡ fails.items }
        ensures calls { source_calls result ≡ 0 }
    {
        MemSource {
            bytes,
            at: 0,
            most,
            fails,
            calls: 0,
            faults: 0,
        }
    }
}

impl Source for MemSource {
    ghost use Rattle.std.specs.Io.{ReadsAtMost};
    ghost use Rattle.std.specs.Io.KnownBytes.{ReadConsumes};
    ghost use Rattle.bc_io.specs.Causes.{HasCause};
    ghost use Rattle.bc_io.specs.Memory.{source_left, source_faults, source_most, source_fails, source_plan, source_calls, next_call};

    ghost left = { λ s. Some (drop s.at s.bytes.items) };

    ghost faults = { λ s. s.faults };

    fn read(&mut self, buf: &mut [u8]) -> Result<usize, Failed>
        ensures bound { ReadsAtMost result buf.new }
        ensures bytes { ReadConsumes (source_left self.old) (source_left self.new) result buf.new }
        ensures cause { HasCause (source_faults self.old) (source_faults self.new) result }
        ensures good { OnOk result (source_faults self.new ≡ source_faults self.old) }
        // It fails exactly where this call is planned to, and gives no more than it may.
        ensures planned { is_err result ≡ source_fails self.old }
        ensures at_most { IfOk result (λ n. n ≤ source_most self.old) }
        // Behind it the next call has the next number, and the rest of the plan stays.
        ensures called { source_calls self.new ≡ next_call (source_calls self.old) }
        ensures plan { source_plan self.new ≡ source_plan self.old }
        ensures most { source_most self.new ≡ source_most self.old }
    {
        self.calls = self.calls.saturating_add(1);
        if self.fails.contains(&self.calls) {
            self.faults = self.faults.saturating_add(1);
            return Err(Failed);
        }
        let count = buf.len().min(self.most).min(self.bytes.len() - self.at);
        buf[..count].copy_from_slice(&self.bytes[self.at..self.at + count]);
        self.at += count;
        Ok(count)
    }
}
