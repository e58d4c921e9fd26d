//! Runs over devices that fail, and over a text of the greatest length.

use crate::case::{End, words_of};
use bc_io::{MemSink, MemSource};
use bc_top::{Refusal, Status, run};
use std::alloc::Global;
use std::test::Fail;

const DISC: &str = "G00 X5 Y0\nG03 X5 Y0 I-5 J0\n";

const DISC_TEXT: &str =
    "// bcsg 2 contour\n// box -6 -6 6 6\nunion() {\n  // own 2 -2 1\n  difference() {\n    intersection() {\n      translate([-6,-6,0]) square([12,12]);\n      // out 9 6 2\n      translate([0,0,0]) circle(r=sqrt(25));\n    }\n  }\n}\n";

fn planned(alloc: Global, call: u64) -> Result<Vec<u64>, Fail> {
    let mut fails = Vec::new(alloc);
    fails.push(call)?;
    Ok(fails)
}

// A run of a full circle over devices that fail: which read and which write, and how much room the sinks have.
struct Fault {
    read: u64,
    write: u64,
    room: usize,
    note_room: usize,
    code: u8,
    out: &'static str,
    notes: &'static str,
}

const FAULTS: [Fault; 5] = [
    Fault {
        read: 2,
        write: 0,
        room: 999,
        note_room: 99,
        code: 4,
        out: "",
        notes: "read fault\n",
    },
    Fault {
        read: 0,
        write: 3,
        room: 999,
        note_room: 99,
        code: 5,
        out: "//",
        notes: "write fault\n",
    },
    Fault {
        read: 0,
        write: 0,
        room: 0,
        note_room: 99,
        code: 5,
        out: "",
        notes: "write fault\n",
    },
    Fault {
        read: 0,
        write: 0,
        room: 40,
        note_room: 4,
        code: 5,
        out: "// bcsg 2 contour\n// box -6 -6 6 6\nunion",
        notes: "writ",
    },
    Fault {
        read: 0,
        write: 0,
        room: 999,
        note_room: 0,
        code: 0,
        out: DISC_TEXT,
        notes: "",
    },
];

#[test]
fn a_failing_device_leaves_a_front(rt: HostRuntime) -> Result<(), Fail> {
    let alloc = rt.alloc();
    let words = words_of(alloc, "convert contour")?;
    for case in &FAULTS {
        let bytes = Vec::from_slice(alloc, DISC.as_bytes())?;
        let mut source = MemSource::new(bytes, 9, planned(alloc, case.read)?);
        let made = MemSink::new(alloc, case.room, 1, planned(alloc, case.write)?);
        let mut out = made.map_err(|_| "memory")?;
        let made = MemSink::new(alloc, case.note_room, 9, Vec::new(alloc));
        let mut notes = made.map_err(|_| "memory")?;
        let status = run(alloc, words.as_slice(), &mut source, &mut out, &mut notes);
        assert_eq!(rt; status.code(), case.code);
        assert_eq!(rt; out.held(), case.out.as_bytes());
        assert_eq!(rt; notes.held(), case.notes.as_bytes());
    }
    Ok(())
}

// Blanks alone: as many as a text may have, and one more.
const SIZES: [(usize, Status); 2] = [
    (1_048_576, Status::Done),
    (1_048_577, Status::Refused(Refusal::TooLong)),
];

#[test]
fn a_text_has_its_greatest_length(rt: HostRuntime) -> Result<(), Fail> {
    let alloc = rt.alloc();
    let words = words_of(alloc, "convert contour")?;
    for (size, want) in &SIZES {
        let bytes = vec![in alloc; b' '; *size]?;
        let mut source = MemSource::new(bytes, 65_536, Vec::new(alloc));
        let mut out = MemSink::new(alloc, 99, 9, Vec::new(alloc)).map_err(|_| "memory")?;
        let mut notes = MemSink::new(alloc, 99, 99, Vec::new(alloc)).map_err(|_| "memory")?;
        let status = run(alloc, words.as_slice(), &mut source, &mut out, &mut notes);
        assert_eq!(rt; status, *want);
    }
    Ok(())
}

// What a run ends with over a source whose read `read` fails and a sink that takes a byte at each write, of which the one
// with number `write` fails. Calls count from 1, and 0 is none.
fn run_over(alloc: Global, words: &str, input: &[u8], read: u64, write: u64) -> Result<End, Fail> {
    let words = words_of(alloc, words)?;
    let bytes = Vec::from_slice(alloc, input)?;
    let mut source = MemSource::new(bytes, 1, planned(alloc, read)?);
    let made = MemSink::new(alloc, 9_999, 1, planned(alloc, write)?);
    let mut out = made.map_err(|_| "memory")?;
    let mut notes = MemSink::new(alloc, 99, 9, Vec::new(alloc)).map_err(|_| "memory")?;
    let status = run(alloc, words.as_slice(), &mut source, &mut out, &mut notes);
    Ok(End { status, out, notes })
}

// The full circle has 27 bytes, and the 28th read of one byte finds the end.
#[test]
fn each_read_may_fail(rt: HostRuntime) -> Result<(), Fail> {
    let alloc = rt.alloc();
    for read in 1..29u64 {
        let end = run_over(alloc, "convert contour", DISC.as_bytes(), read, 0)?;
        assert!(rt; end.status == Status::ReadFault && end.out.held().is_empty());
        assert!(rt; end.notes.held() == b"read fault\n".as_slice());
    }
    let end = run_over(alloc, "convert contour", DISC.as_bytes(), 29, 0)?;
    assert!(rt; end.status == Status::Done);
    Ok(())
}

const NOTHING: &str = "// bcsg 2 contour\n// box -1 -1 1 1\nunion() {\n}\n";

// The text of no contours has 47 bytes.
#[test]
fn each_write_may_fail(rt: HostRuntime) -> Result<(), Fail> {
    let alloc = rt.alloc();
    for write in 1..48u64 {
        let end = run_over(alloc, "convert contour", b"", 0, write)?;
        assert!(rt; end.status == Status::WriteFault);
        let front = NOTHING
            .as_bytes()
            .get(..(write - 1) as usize)
            .ok_or("front")?;
        assert!(rt; end.out.held() == front);
    }
    let end = run_over(alloc, "convert contour", b"", 0, 48)?;
    assert!(rt; end.status == Status::Done && end.out.held() == NOTHING.as_bytes());
    Ok(())
}

// A fault of the notes changes neither the status nor the output.
#[test]
fn notes_may_fail(rt: HostRuntime) -> Result<(), Fail> {
    let alloc = rt.alloc();
    for (words, code) in &[("convert contour", 0u8), ("convert", 3)] {
        let words = words_of(alloc, words)?;
        let bytes = Vec::from_slice(alloc, DISC.as_bytes())?;
        let mut source = MemSource::new(bytes, 9, Vec::new(alloc));
        let mut out = MemSink::new(alloc, 999, 9, Vec::new(alloc)).map_err(|_| "memory")?;
        let mut notes = MemSink::new(alloc, 0, 9, Vec::new(alloc)).map_err(|_| "memory")?;
        let status = run(alloc, words.as_slice(), &mut source, &mut out, &mut notes);
        assert_eq!(rt; status.code(), *code);
        assert!(rt; notes.held().is_empty());
    }
    Ok(())
}

// The text of a full circle with a token on each line, and its 54 tokens.
const TOKENS: [&str; 54] = [
    "union",
    "(",
    ")",
    "{",
    "difference",
    "(",
    ")",
    "{",
    "intersection",
    "(",
    ")",
    "{",
    "translate",
    "(",
    "[",
    "-6",
    ",",
    "-6",
    ",",
    "0",
    "]",
    ")",
    "square",
    "(",
    "[",
    "12",
    ",",
    "12",
    "]",
    ")",
    ";",
    "translate",
    "(",
    "[",
    "0",
    ",",
    "0",
    ",",
    "0",
    "]",
    ")",
    "circle",
    "(",
    "r",
    "=",
    "sqrt",
    "(",
    "25",
    ")",
    ")",
    ";",
    "}",
    "}",
    "}",
];

// The text cut behind each of its tokens but the last: the token that is missing is at fault, on the line behind.
#[test]
fn a_cut_text_lacks_a_token(rt: HostRuntime) -> Result<(), Fail> {
    let alloc = rt.alloc();
    let mut text = String::new(alloc);
    for k in 0..TOKENS.len() {
        let end = run_over(alloc, "ask 0 0 0 1", text.as_bytes(), 0, 0)?;
        let line = format!(in alloc; "refused: BadShape line {} token {}\n", k + 1, k + 1)?;
        assert!(rt; end.status.code() == 2 && end.notes.held() == line.as_bytes());
        text.push_str(TOKENS.get(k).copied().ok_or("token")?)?;
        text.push_str("\n")?;
    }
    let end = run_over(alloc, "ask 0 0 0 1", text.as_bytes(), 0, 0)?;
    assert!(rt; end.out.held() == b"in\n".as_slice());
    Ok(())
}
