//! A sink over bytes in memory: what it holds can be asked for, and a plan says at which writes it fails. `traits` says
//! what a sink is, and `specs/Memory` what this one tells.
ghost use Rattle.std.specs.Prelude.{◌≡◌, ◌≤◌, ◌<◌, List, ℕ, Option, Some, [], length, is_err, IfOk, OnOk};

use crate::{Failed, Sink};
use bc_num::Memory;
use std::alloc::Global;

/// A sink in memory that tells its bytes. It takes at most `most` bytes a write, at least 1, and fails at the writes
/// numbered in `fails`, from 1, and where `room` bytes are held.
#[derive(Drop)]
pub struct MemSink {
    bytes: Vec<u8>,
    room: usize,
    most: usize,
    fails: Vec<u64>,
    calls: u64,
    faults: u64,
    ghost reserved: { length bytes.items ≤ room },
    ghost fits: { room ≤ bytes.cap },
    ghost some: { 0 < most },
}

impl MemSink {
    ghost use Rattle.bc_io.specs.Memory.{sink_held, sink_faults, sink_most, sink_room, sink_plan, sink_calls};

    /// An empty sink with no fault counted. It takes its memory here, so that no write asks for any.
    pub fn new(alloc: Global, room: usize, most: usize, fails: Vec<u64>) -> Result<MemSink, Memory>
        requires { 0 < most }
        ensures held { IfOk result (λ s. sink_held s ≡ Some []) }
        ensures faults { IfOk result (λ s. sink_faults s ≡ 0) }
        ensures most { IfOk result (λ s. sink_most s ≡ most) }
        ensures room { IfOk result (λ s. sink_room s ≡ room) }
        ensures plan { IfOk result (λ s. sink_plan s ≡ fails.items) }
        ensures calls { IfOk result (λ s. sink_calls s ≡ 0) }
    {
        let bytes = Vec::with_capacity(alloc, room)?;
        Ok(MemSink {
            bytes,
            room,
            most,
            fails,
            calls: 0,
            faults: 0,
        })
    }

    /// The bytes that it took.
    pub fn held(&self) -> &[u8]
        ensures { sink_held self.now ≡ Some result.now }
    {
        self.bytes.as_slice()
    }
}

impl Sink for MemSink {
    ghost use Rattle.std.specs.Io.{WritesAtMost};
    ghost use Rattle.std.specs.Io.KnownBytes.{WriteAppends};
    ghost use Rattle.bc_io.specs.Causes.{HasCause};
    ghost use Rattle.bc_io.specs.Memory.{sink_held, sink_faults, sink_most, sink_fails, sink_room, sink_plan, sink_calls, next_call};

    ghost held = { λ s. Some s.bytes.items };

    ghost faults = { λ s. s.faults };

    fn write(&mut self, piece: &[u8]) -> Result<usize, Failed>
        ensures bound { WritesAtMost result piece.now }
        ensures some { 0 < length piece.now → IfOk result (λ n. 0 < n) }
        ensures bytes { WriteAppends (sink_held self.old) (sink_held self.new) result piece.now }
        ensures cause { HasCause (sink_faults self.old) (sink_faults self.new) result }
        ensures good { OnOk result (sink_faults self.new ≡ sink_faults self.old) }
        // It fails exactly where this call is planned to or the room is used up, and takes no more than it may.
        ensures planned { is_err result ≡ sink_fails self.old piece.now }
        ensures at_most { IfOk result (λ n. n ≤ sink_most self.old) }
        // Behind it the next call has the next number, and the rest of the plan stays.
        ensures called { sink_calls self.new ≡ next_call (sink_calls self.old) }
        ensures plan { sink_plan self.new ≡ sink_plan self.old }
        ensures most { sink_most self.new ≡ sink_most self.old }
        ensures room { sink_room self.new ≡ sink_room self.old }
    {
        self.calls = self.calls.saturating_add(1);
        let room = self.room - self.bytes.len();
        if self.fails.contains(&self.calls) || (room == 0 && !piece.is_empty()) {
            self.faults = self.faults.saturating_add(1);
            return Err(Failed);
        }
        let count = piece.len().min(self.most).min(room);
        if self.bytes.extend_from_slice(&piece[..count]).is_err() {
            self.faults = self.faults.saturating_add(1);
            return Err(Failed);
        }
        Ok(count)
    }
}
