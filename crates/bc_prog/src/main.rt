//! The program `bcsg`: the words of the command line, standard input, output and error, given to the one call of bc_top.
#![tactic(auto)]

use bc_io::{StdSink, StdSource, put_all};
use bc_top::{Status, run};
use std::env;
use std::io::ErrorKind;
use std::process::ExitCode;

// The words behind the program's name, or None for want of memory. A word that is no text counts for no words, which are
// no command.
fn words(rt: &HostRuntime) -> Option<Vec<String>> {
    let mut words = Vec::new(rt.alloc());
    let args = match env::args(rt) {
        Ok(args) => args,
        Err(error) if error.kind() == ErrorKind::OutOfMemory => return None,
        Err(_) => return Some(words),
    };
    for word in args.skip(1) {
        words.push(word).ok()?;
    }
    Some(words)
}

fn main(rt: HostRuntime) -> ExitCode {
    let mut source = StdSource::new(rt.stdin());
    let mut out = StdSink::new(rt.stdout());
    let mut notes = StdSink::new(rt.stderr());
    let Some(words) = words(&rt) else {
        let _ = put_all(&mut notes, b"out of memory\n");
        return ExitCode::from(Status::Memory.code());
    };
    let status = run(
        rt.alloc(),
        words.as_slice(),
        &mut source,
        &mut out,
        &mut notes,
    );
    ExitCode::from(status.code())
}
