//! Bytes in and bytes out: what the engine asks of a source and of a sink, and the calls that hand bytes to a sink.
//! What a source has left and what a sink has taken are told by clauses; a count rises at each fault.
#![tactic(auto)]

mod memory;
mod printer;
mod sink;
mod source;
mod standard;
mod writing;

pub use memory::{MemSink, MemSource};
pub use printer::{PIECE_BYTES, Printer};
pub use sink::Sink;
pub use source::{Failed, Source};
pub use standard::{StdSink, StdSource};
pub use writing::{PutAll, put};
