//! A text on its way to a sink, through a buffer of any size.
ghost use Rattle.std.specs.Prelude.{◌≡◌, ◌+◌, ◌<◌, ◌≤◌, ◌++◌, List, ℕ, false, length, take, IfOk, OnErr};
ghost use Rattle.bc_io.specs.Causes.{HasCause};
ghost use Rattle.bc_io.specs.Taking.{Takes};

use crate::{Failed, Sink, put_all};
use itoa::{Buffer, Integer};

/// A text on its way to a sink: its last bytes wait in a buffer, so that the sink is given few and long pieces. Once a write
/// has failed nothing more is written; `finish` says so. It takes no memory.
#[derive(Drop)]
pub struct Pen<'a, K> {
    buf: &'a mut [u8],
    len: usize,
    out: &'a mut K,
    failed: bool,
    ghost room: { 0 < length buf.now },
    ghost within: { len ≤ length buf.now },
}

impl<'a, K> Pen<'a, K> {
    ghost use Rattle.bc_io.specs.Growing.{IsNew, has_failed};

    /// A pen with no text yet. What the buffer held is lost. The buffer has at least one byte.
    pub fn new(buf: &'a mut [u8], out: &'a mut K) -> Pen<'a, K>
        requires { 0 < length buf.old }
        ensures sink { result.out.ghost_name ≡ out.entry.ghost_name }
        ensures buffer { result.buf.ghost_name ≡ buf.entry.ghost_name }
        ensures fresh { IsNew result out.old }
    {
        Pen {
            buf,
            len: 0,
            out,
            failed: false,
        }
    }

    /// Whether a write has failed, so that nothing more is written.
    pub fn has_failed(&self) -> bool
        ensures { result ≡ has_failed self.now }
    {
        self.failed
    }
}

impl<'a, K: Sink> Pen<'a, K> {
    ghost use Rattle.bc_io.specs.Growing.{GrewBy, IsFinished};

    /// Puts a piece behind the text.
    pub fn put(&mut self, piece: &[u8])
        ensures { GrewBy K.held K.faults self.old self.new piece.now }
    {
        if self.failed {
            return;
        }
        match put_behind(piece, self.buf, self.len, self.out) {
            Ok(len) => self.len = len,
            Err(_) => self.failed = true,
        }
    }

    /// The digits of a number, with `-` before them where it is below 0.
    pub fn put_number<I: Integer>(&mut self, number: I)
        ensures { GrewBy K.held K.faults self.old self.new (I.text number) }
    {
        let mut buffer = Buffer::new();
        self.put(buffer.format(number).as_bytes());
    }

    /// A number that is not the first of some.
    pub fn put_next<I: Integer>(&mut self, separator: &[u8], number: I)
        ensures { GrewBy K.held K.faults self.old self.new (separator.now ++ I.text number) }
    {
        self.put(separator);
        self.put_number(number);
    }

    /// Writes what waits. `Failed` where this or an earlier write failed: the sink has then taken a front of the text.
    pub fn finish(&mut self) -> Result<(), Failed>
        ensures sink { self.new.out.ghost_name ≡ self.old.out.ghost_name }
        ensures buffer { self.new.buf.ghost_name ≡ self.old.buf.ghost_name }
        ensures text { IsFinished K.held K.faults self.old self.new result }
    {
        if self.failed {
            return Err(Failed);
        }
        put_all(self.out, first(self.buf, self.len))
    }
}

fn first(buf: &[u8], len: usize) -> &[u8]
    requires { len ≤ length buf.now }
    ensures { result.now ≡ take len buf.now }
{
    &buf[..len]
}

// Puts a piece behind the first `len` bytes of the buffer, which wait. `Ok` has how many wait then.
fn put_behind<K: Sink>(
    piece: &[u8],
    buf: &mut [u8],
    len: usize,
    out: &mut K,
) -> Result<usize, Failed>
    requires room { 0 < length buf.old }
    requires within { len ≤ length buf.old }
    ensures ok { IfOk result (λ n. Takes (K.held out.old) (K.held out.new) (take len buf.old ++ piece.now) (take n buf.new)) }
    ensures within { IfOk result (λ n. n ≤ length buf.new) }
    ensures err { OnErr result ((rest : List ℕ) × Takes (K.held out.old) (K.held out.new) (take len buf.old ++ piece.now) rest) }
    ensures cause { HasCause (K.faults out.old) (K.faults out.new) result }
{
    let mut len = len;
    let mut rest = piece;
    while !rest.is_empty() {
        let room = make_room(buf, len, out)?;
        let count = fill(buf, room, rest);
        len = room + count;
        rest = &rest[count..];
    }
    Ok(len)
}

// Room for a byte at least: a full buffer is written out.
fn make_room<K: Sink>(buf: &[u8], len: usize, out: &mut K) -> Result<usize, Failed>
    requires room { 0 < length buf.now }
    requires within { len ≤ length buf.now }
    ensures ok { IfOk result (λ n. Takes (K.held out.old) (K.held out.new) (take len buf.now) (take n buf.now)) }
    ensures space { IfOk result (λ n. n < length buf.now) }
    ensures err { OnErr result ((rest : List ℕ) × Takes (K.held out.old) (K.held out.new) (take len buf.now) rest) }
    ensures cause { HasCause (K.faults out.old) (K.faults out.new) result }
{
    if len < buf.len() {
        return Ok(len);
    }
    put_all(out, buf)?;
    Ok(0)
}

// Puts as much of `rest` behind the bytes that wait as there is room for.
fn fill(buf: &mut [u8], len: usize, rest: &[u8]) -> usize
    requires { len < length buf.old }
    ensures within { len + result ≤ length buf.new }
    ensures count { result ≤ length rest.now }
    ensures some { 0 < length rest.now → 0 < result }
    ensures bytes { take (len + result) buf.new ≡ take len buf.old ++ take result rest.now }
{
    let count = rest.len().min(buf.len() - len);
    buf[len..len + count].copy_from_slice(&rest[..count]);
    count
}
