// A run over memory.
ghost use Rattle.std.specs.Prelude.{◌≡◌, ◌≤◌, false, drop, Some, IsOk, IfOk, IfErr, vec_len};
ghost use Rattle.hv_script.specs.Words.{options};
ghost use Rattle.oodb.specs.Lines.{word_line};
ghost use Rattle.oodb.specs.Outcome.{IsReported, max_of_words};
ghost use Rattle.oodb.specs.InMemory.{Reports, IsEnd, TellsItsFault, IsLineOf, ReportsItsScript};
ghost use Rattle.oodb.specs.declared.status.Status.TheVariants as status;

use crate::run::run;
use crate::status::Status;
use hv_dev::CleanDevice;
use hv_io::{Failed, MemSink, Source};
use hv_row::Bytes;
use std::alloc::{AllocError, Global};

/// How a run over memory ended, and the bytes that it wrote.
#[derive(Drop)]
pub struct InMemory {
    pub status: Status,
    pub report: Vec<u8>,
}

// A source over bytes in memory, which gives as many at a time as are asked for and never fails.
#[derive(Drop)]
struct WholeSource {
    bytes: Vec<u8>,
    at: usize,
    ghost in_range: { at ≤ vec_len bytes },
}

impl WholeSource {
    fn new(bytes: Vec<u8>) -> WholeSource
        ensures { ⟦<WholeSource as Source>⟧.left result ≡ Some bytes.items }
    {
        WholeSource { bytes, at: 0 }
    }
}

impl Source for WholeSource {
    ghost left = { λ it. Some (drop it.at it.bytes.items) };

    ghost faults = { λ _. 0 };

    fn read(&mut self, piece: &mut [u8]) -> Result<usize, Failed> {
        let (_, rest) = self.bytes.as_slice().split_at(self.at);
        let n = piece.len().min(rest.len());
        let (given, _) = rest.split_at(n);
        let (front, _) = piece.split_at_mut(n);
        front.copy_from_slice(given);
        self.at += n;
        Ok(n)
    }
}

/// Runs a script that is given as bytes over files in memory, and gives the report as bytes. `Err` is want of memory: before the first statement, or for the report's bytes.
pub fn run_in_memory(
    alloc: Global,
    words: &[Bytes],
    script: Vec<u8>,
) -> Result<InMemory, AllocError>
    ensures report { IfOk result (λ done. IsReported done.status → Reports script.items (max_of_words (options false words.now)) done.status done.report.items) }
    ensures ends { IfOk result (λ done. IsEnd done.status) }
    ensures words { IfOk result (λ done. IfErr (options false words.now) (λ i. (done.status ≡ status.Words) × (done.report.items ≡ word_line i))) }
    ensures words_alone { IfOk result (λ done. IsOk (options false words.now) → ¬ (done.status ≡ status.Words)) }
    ensures fault { IfOk result (λ done. IsOk (options false words.now) → TellsItsFault script.items done.status done.report.items) }
    ensures fault_alone { IfOk result (λ done. done.status ≡ status.Script → IsOk (options false words.now) × IsLineOf script.items done.report.items) }
    ensures complete { IfOk result (λ done. IsOk (options false words.now) → ReportsItsScript script.items done.status) }
{
    let mut source = WholeSource::new(script);
    let mut out = MemSink::new(alloc, TAKEN_BYTES, None);
    let mut device = CleanDevice::new();
    match run(alloc, words, &mut source, &mut out, &mut device) {
        Status::SinkFault | Status::Memory => Err(AllocError),
        status => Ok(InMemory {
            status,
            report: out.into_vec(),
        }),
    }
}

// How many bytes the sink takes in one call.
const TAKEN_BYTES: usize = 65536;
