// std's readers and writers as a source and a sink.
ghost use Rattle.std.specs.Prelude.{◌≡◌, ℕ, ◌<◌, ◌≤◌, [], length, Some, None, IfSome, IfOk, OnOk, OnErr};
ghost use Rattle.std.specs.Option.{ForSome};
ghost use Rattle.hv_io.specs.Bytes.{Gives, Takes};
ghost use Rattle.hv_io.specs.Counts.{Rose};

use crate::sink::Sink;
use crate::source::{Failed, Source};
use std::io::{Read, Write};
use std::snapshot::Snapshot;

/// A source over a reader of std: it tells what it has left where the reader does. Each `Err` of the reader counts as a fault.
#[derive(Drop)]
pub struct StdSource<R: Read> {
    reader: R,
    faults: u64,
    // The reader after the last read that did not fail. Where it told what remains, the reader still has that.
    told: Snapshot<R>,
    ghost keeps: { ForSome (R.remaining told.value) (λ bytes. R.remaining reader ≡ Some bytes) },
}

impl<R: Read + Drop> StdSource<R> {
    pub fn new(reader: R) -> StdSource<R>
        ensures left { ⟦<StdSource<R> as Source>⟧.left result ≡ R.remaining reader }
        ensures faults { ⟦<StdSource<R> as Source>⟧.faults result ≡ 0 }
    {
        let told = Snapshot::of(&reader);
        StdSource {
            reader,
            faults: 0,
            told,
        }
    }
}

impl<R: Read + Drop> Source for StdSource<R> {
    ghost left = { λ it. R.remaining it.told.value };

    ghost faults = { λ it. it.faults };

    fn read(&mut self, piece: &mut [u8]) -> Result<usize, Failed> {
        match self.reader.read(piece) {
            Ok(n) => {
                self.told = Snapshot::of(&self.reader);
                Ok(n)
            }
            Err(_) => {
                self.faults = self.faults.saturating_add(1);
                Err(Failed)
            }
        }
    }
}

/// A sink over a writer of std: it tells what it has taken where the writer does. Each `Err` of the writer counts as a fault.
#[derive(Drop)]
pub struct StdSink<W: Write> {
    writer: W,
    faults: u64,
    zeros: u64,
    // The writer after the last write that did not fail. Where it told what it holds, the writer still holds that.
    told: Snapshot<W>,
    ghost keeps: { ForSome (W.contents told.value) (λ bytes. W.contents writer ≡ Some bytes) },
}

impl<W: Write + Drop> StdSink<W> {
    pub fn new(writer: W) -> StdSink<W>
        ensures taken { ⟦<StdSink<W> as Sink>⟧.taken result ≡ W.contents writer }
        ensures faults { ⟦<StdSink<W> as Sink>⟧.faults result ≡ 0 }
        ensures zeros { ⟦<StdSink<W> as Sink>⟧.zeros result ≡ 0 }
    {
        let told = Snapshot::of(&writer);
        StdSink {
            writer,
            faults: 0,
            zeros: 0,
            told,
        }
    }
}

impl<W: Write + Drop> Sink for StdSink<W> {
    ghost taken = { λ it. W.contents it.told.value };

    ghost faults = { λ it. it.faults };

    ghost zeros = { λ it. it.zeros };

    fn write(&mut self, piece: &[u8]) -> Result<usize, Failed> {
        match self.writer.write(piece) {
            Ok(n) => {
                if n == 0 && !piece.is_empty() {
                    self.zeros = self.zeros.saturating_add(1);
                }
                self.told = Snapshot::of(&self.writer);
                Ok(n)
            }
            Err(_) => {
                self.faults = self.faults.saturating_add(1);
                Err(Failed)
            }
        }
    }
}
