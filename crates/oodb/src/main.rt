//! `oodb`: reads a script of statements and writes a report of their replies and of one history of the catalogue's commands.
//! The contract of `run` says what the report is, from the bytes that its source has to those that its sink took. `main` hands it the standard
//! input and output, which tell their bytes where std does, and page files in the folder `oodb.data`, which don't tell what they hold.
#![tactic(auto)]

ghost use Rattle.std.specs.Prelude.{◌≡◌, map, drop, string_bytes, IfOk};
ghost use Rattle.std.specs.Vec.Iter.{into_iter_items};

mod law;
mod lines;
mod memory;
mod picks;
mod run;
mod status;
#[cfg(test)]
mod tests;

use hv_dev::FileDevice;
use hv_io::{StdSink, StdSource};
use hv_row::Bytes;
pub use law::{content_is_met_and_missed, legal_is_met_and_missed, one_report_one_history};
pub use memory::{InMemory, run_in_memory};
pub use run::run;
pub use status::Status;
use std::alloc::{AllocError, Global};
use std::env::Args;
use std::io::{Input, writer};
use std::process::ExitCode;
use std::{env, io};

fn main(rt: HostRuntime) -> ExitCode {
    let Ok(words) = words_of(rt.alloc(), env::args(&rt)) else {
        return ExitCode::from(Status::Memory.code());
    };
    let mut script = StdSource::new(rt.reader());
    let mut out = StdSink::new(writer(&rt));
    let Ok(mut device) = device_in(rt, FOLDER) else {
        return ExitCode::from(Status::Memory.code());
    };
    let status = run(
        rt.alloc(),
        words.as_slice(),
        &mut script,
        &mut out,
        &mut device,
    );
    ExitCode::from(status.code())
}

// The folder of the page files, in the folder in which the program runs.
const FOLDER: &[u8] = b"oodb.data";

// The device of that folder.
fn device_in(rt: HostRuntime, folder: &[u8]) -> Result<FileDevice<HostRuntime>, AllocError> {
    FileDevice::new(rt.alloc(), rt, folder.to_vec(rt.alloc())?)
}

// The words behind the program's name. Arguments that aren't all text are taken as none, so that the first word is at fault.
fn words_of(alloc: Global, args: io::Result<Args>) -> Result<Vec<Bytes>, AllocError>
    ensures { IfOk result (λ words. IfOk args (λ all. words.items ≡ map string_bytes (drop 1 (into_iter_items all)))) }
{
    match args {
        Ok(args) => words_behind(alloc, args),
        Err(error) if error.kind() == io::ErrorKind::OutOfMemory => Err(AllocError),
        Err(_) => Ok(Vec::new(alloc)),
    }
}

// The arguments behind the first, in their order.
fn words_behind(alloc: Global, args: Args) -> Result<Vec<Bytes>, AllocError>
    ensures { IfOk result (λ words. words.items ≡ map string_bytes (drop 1 (into_iter_items args))) }
{
    let mut words = Vec::new(alloc);
    let mut rest = args;
    let _ = rest.next();
    for arg in rest {
        words.push(Bytes::from_slice(alloc, arg.as_bytes())?)?;
    }
    Ok(words)
}
