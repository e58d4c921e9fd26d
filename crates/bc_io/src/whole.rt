//! A whole text moved by one call: read from a source up to a limit, or written to a sink, however few bytes each read
//! or write moves. `traits` has the single reads and writes.
ghost use Rattle.std.specs.Prelude.{◌≡◌, ◌+◌, ◌<◌, ◌≤◌, ◌^◌, List, ℕ, length, IfOk, OnOk, IfSome, IsErrOf};
ghost use Rattle.std.specs.Io.KnownBytes.{Consumes, IsAtEnd};
ghost use Rattle.bc_io.specs.Causes.{HasCause, Rose};
ghost use Rattle.bc_io.specs.Pieces.{Puts};

use crate::{Failed, Sink, Source};
use std::alloc::Global;

/// Why a text was not read to its end.
#[derive(Clone, Copy, Debug, PartialEq, Eq)]
pub enum ReadEnd {
    /// A read failed: the source's faults rose.
    Fault,
    /// One byte more than the limit came.
    TooLong,
    /// There was no memory left for the bytes.
    Memory,
}

/// Writes the whole piece. After `Failed`, which comes only where the sink's faults rose, it has taken a front of it.
pub fn put_all<K: Sink>(out: &mut K, piece: &[u8]) -> Result<(), Failed>
    ensures bytes { Puts (K.held out.old) (K.held out.new) result piece.now }
    ensures cause { HasCause (K.faults out.old) (K.faults out.new) result }
    ensures good { OnOk result (K.faults out.new ≡ K.faults out.old) }
{
    let mut rest = piece;
    while !rest.is_empty() {
        let count = out.write(rest)?;
        rest = &rest[count..];
    }
    Ok(())
}

/// Reads to the end, at most `limit` bytes, in time and memory that grow with the bytes that come. Each turn takes at
/// least one byte, and none past `limit + 1`.
pub fn read_all<S: Source>(alloc: Global, src: &mut S, limit: usize) -> Result<Vec<u8>, ReadEnd>
    requires { limit < 2 ^ 32 }
    ensures bytes { IfOk result (λ v. Consumes (S.left src.old) (S.left src.new) v.items) }
    ensures end { IfOk result (λ v. IsAtEnd (S.left src.new)) }
    ensures within { IfOk result (λ v. length v.items ≤ limit) }
    ensures too_long { IsErrOf result ReadEnd.TooLong
        → (came : List ℕ) × (length came ≡ limit + 1) × Consumes (S.left src.old) (S.left src.new) came }
    ensures fault { IsErrOf result ReadEnd.Fault → Rose (S.faults src.old) (S.faults src.new) }
    ensures later { S.faults src.old ≤ S.faults src.new }
    ensures good { OnOk result (S.faults src.new ≡ S.faults src.old) }
{
    let mut all = Vec::new(alloc);
    let mut chunk = [0u8; 4096];
    while all.len() <= limit {
        let want = (limit + 1 - all.len()).min(4096);
        let part = &mut chunk[..want];
        let count = src.read(part).map_err(|_| ReadEnd::Fault)?;
        if count == 0 {
            return Ok(all);
        }
        if all.extend_from_slice(&part[..count]).is_err() {
            return Err(ReadEnd::Memory);
        }
    }
    Err(ReadEnd::TooLong)
}
