//! Sources read to their end, their limit or a failed call, and pieces put to sinks whole or in part; then a reader
//! and a writer of `std` in the place of both.
use bc_io::*;
use std::alloc::Global;
use std::io::{self, Read, Write};
use std::test::Fail;

// What a source of `bytes`, `most` at a time and with these calls failing, answers under a limit.
struct Reading {
    bytes: &'static str,
    most: usize,
    fails: u64,
    limit: usize,
    want: Result<&'static str, ReadEnd>,
}

const READINGS: [Reading; 7] = [
    Reading {
        bytes: "",
        most: 1,
        fails: 0,
        limit: 0,
        want: Ok(""),
    },
    Reading {
        bytes: "abc",
        most: 1,
        fails: 0,
        limit: 3,
        want: Ok("abc"),
    },
    Reading {
        bytes: "abc",
        most: 2,
        fails: 0,
        limit: 9,
        want: Ok("abc"),
    },
    Reading {
        bytes: "abc",
        most: 9,
        fails: 0,
        limit: 2,
        want: Err(ReadEnd::TooLong),
    },
    Reading {
        bytes: "abc",
        most: 1,
        fails: 0,
        limit: 0,
        want: Err(ReadEnd::TooLong),
    },
    Reading {
        bytes: "abc",
        most: 2,
        fails: 2,
        limit: 9,
        want: Err(ReadEnd::Fault),
    },
    Reading {
        bytes: "abc",
        most: 2,
        fails: 3,
        limit: 9,
        want: Err(ReadEnd::Fault),
    },
];

fn planned(alloc: Global, call: u64) -> Result<Vec<u64>, Fail> {
    let mut fails = Vec::new(alloc);
    fails.push(call)?;
    Ok(fails)
}

#[test]
fn a_source_is_read_to_its_end_or_its_limit(rt: HostRuntime) -> Result<(), Fail> {
    let alloc = rt.alloc();
    for case in &READINGS {
        let bytes = Vec::from_slice(alloc, case.bytes.as_bytes())?;
        let mut source = MemSource::new(bytes, case.most, planned(alloc, case.fails)?);
        match (read_all(alloc, &mut source, case.limit), case.want) {
            (Ok(got), Ok(want)) => assert_eq!(rt; got.as_slice(), want.as_bytes()),
            (Err(got), Err(want)) => assert_eq!(rt; got, want),
            _ => assert!(rt; false, "the other outcome"),
        }
    }
    Ok(())
}

// What a sink takes of the piece `abcde`.
struct Writing {
    room: usize,
    most: usize,
    fails: u64,
    held: &'static str,
    passes: bool,
}

const WRITINGS: [Writing; 4] = [
    Writing {
        room: 9,
        most: 9,
        fails: 0,
        held: "abcde",
        passes: true,
    },
    Writing {
        room: 5,
        most: 2,
        fails: 0,
        held: "abcde",
        passes: true,
    },
    Writing {
        room: 9,
        most: 2,
        fails: 2,
        held: "ab",
        passes: false,
    },
    Writing {
        room: 4,
        most: 3,
        fails: 0,
        held: "abcd",
        passes: false,
    },
];

#[test]
fn a_piece_is_put_whole_or_a_front_of_it(rt: HostRuntime) -> Result<(), Fail> {
    let alloc = rt.alloc();
    for case in &WRITINGS {
        let made = MemSink::new(alloc, case.room, case.most, planned(alloc, case.fails)?);
        let mut out = made.map_err(|_| "memory")?;
        let put = put_all(&mut out, b"abcde");
        assert_eq!(rt; put.is_ok(), case.passes);
        assert_eq!(rt; out.held(), case.held.as_bytes());
    }
    Ok(())
}

// A device that gives or takes one byte, fails once, and goes on.
#[derive(Drop)]
struct Flaky {
    calls: u8,
    last: u8,
}

impl Read for Flaky {
    fn read(&mut self, buf: &mut [u8]) -> io::Result<usize> {
        self.calls = self.calls.saturating_add(1);
        match (self.calls, buf) {
            (2, _) => Err(io::Error::from(io::ErrorKind::Other)),
            (4, _) | (_, []) => Ok(0),
            (_, [first, ..]) => {
                *first = self.last;
                Ok(1)
            }
        }
    }
}

impl Write for Flaky {
    fn write(&mut self, piece: &[u8]) -> io::Result<usize> {
        self.calls = self.calls.saturating_add(1);
        match (self.calls, piece) {
            (2, _) => Err(io::Error::from(io::ErrorKind::Other)),
            (4, _) | (_, []) => Ok(0),
            (_, [first, ..]) => {
                self.last = *first;
                Ok(1)
            }
        }
    }

    fn flush(&mut self) -> io::Result<()> {
        Ok(())
    }
}

#[test]
fn a_reader_of_std_is_a_source(rt: HostRuntime) {
    let mut source = StdSource::new(Flaky { calls: 0, last: 7 });
    let mut buf = [0u8; 4];
    assert_eq!(rt; source.read(&mut buf), Ok(1));
    assert_eq!(rt; source.read(&mut buf), Err(Failed));
    assert_eq!(rt; source.read(&mut buf), Ok(1));
    assert_eq!(rt; source.read(&mut buf), Ok(0));
    assert_eq!(rt; buf[0], 7);
}

#[test]
fn a_writer_of_std_is_a_sink(rt: HostRuntime) {
    let mut sink = StdSink::new(Flaky { calls: 0, last: 0 });
    assert_eq!(rt; sink.write(b"ab"), Ok(1));
    assert_eq!(rt; sink.write(b"b"), Err(Failed));
    assert_eq!(rt; sink.write(b"b"), Ok(1));
    assert_eq!(rt; sink.write(b"c"), Err(Failed));
    assert_eq!(rt; sink.write(b""), Ok(0));
}
