//! One run of the program over memory, and what comes out of it.

use bc_io::{MemSink, MemSource};
use bc_top::{Status, run};
use std::alloc::Global;
use std::test::Fail;

/// A run: the words, parted by blanks, the input, and what comes out.
pub struct Case {
    pub words: &'static str,
    pub input: &'static str,
    pub code: u8,
    pub out: &'static str,
    pub notes: &'static str,
}

/// What a run ends with.
#[derive(Drop)]
pub struct End {
    pub status: Status,
    pub out: MemSink,
    pub notes: MemSink,
}

pub fn words_of(alloc: Global, text: &str) -> Result<Vec<String>, Fail> {
    let mut words = Vec::new(alloc);
    for word in text.split(' ') {
        words.push(String::from_str(alloc, word)?)?;
    }
    Ok(words)
}

/// A text without the lines of its notes, whose points are the program's own choice.
pub fn without_notes(alloc: Global, text: &[u8]) -> Result<String, Fail> {
    let mut rest = String::new(alloc);
    for line in str::from_utf8(text).map_err(|_| "text")?.lines() {
        let words = line.trim_start();
        if !words.starts_with("// own ")
            && !words.starts_with("// out ")
            && !words.starts_with("// needs ")
        {
            rest.push_str(line)?;
            rest.push_str("\n")?;
        }
    }
    Ok(rest)
}

/// Runs the words on the input, through a source and sinks that give and take a few bytes at a time.
pub fn run_on(alloc: Global, words: &str, input: &[u8]) -> Result<End, Fail> {
    let words = words_of(alloc, words)?;
    let bytes = Vec::from_slice(alloc, input)?;
    let mut source = MemSource::new(bytes, 7001, Vec::new(alloc));
    let mut out = MemSink::new(alloc, 400_000, 5003, Vec::new(alloc)).map_err(|_| "memory")?;
    let mut notes = MemSink::new(alloc, 99, 5, Vec::new(alloc)).map_err(|_| "memory")?;
    let status = run(alloc, words.as_slice(), &mut source, &mut out, &mut notes);
    Ok(End { status, out, notes })
}
