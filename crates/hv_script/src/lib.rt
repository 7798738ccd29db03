//! Reads the words of the command line, and a script from a source.
//! A script that is answered is the one that its bytes are, and a fault is told where it stands.
#![tactic(auto)]

mod fault;
mod law;
mod lines;
mod reading;
mod script;
mod so_far;
mod statement;
mod text;
mod words;

pub use fault::{BytesFault, ReadScriptFault};
pub use law::one_reading;
pub use reading::{READ_BYTES, read_script};
pub use script::{MAX_SCRIPT_BYTES, read_statements};
pub use so_far::{MAX_SESSIONS, MAX_STATEMENTS};
pub use statement::MAX_IMPORT_LINES;
pub use words::{Options, read_words};
