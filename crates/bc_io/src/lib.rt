//! Sources and sinks of bytes that count their faults: in memory, over std's readers and writers; the two calls that
//! move a whole text; and a pen, which puts a text to a sink piece by piece through a buffer.
#![tactic(auto)]

mod mem_sink;
mod mem_source;
mod pen;
mod std_sink;
mod std_source;
mod traits;
mod whole;

pub use mem_sink::MemSink;
pub use mem_source::MemSource;
pub use pen::Pen;
pub use std_sink::StdSink;
pub use std_source::StdSource;
pub use traits::{Failed, Sink, Source};
pub use whole::{ReadEnd, put_all, read_all};
