// A buffer before a sink.
ghost use Rattle.std.specs.Prelude.{◌≡◌, ℕ, ◌+◌, ◌≤◌, List, [], ◌++◌, length, OnOk, OnErr, IfErr, IsOk, IsTrue, ◌↔◌};
ghost use Rattle.hv_io.specs.Bytes.{Seen};
ghost use Rattle.hv_io.specs.Seen.{seen};
ghost use Rattle.hv_io.specs.Printing.{HasPrinted, Printing, Prints, blank};
ghost use Rattle.hv_io.specs.Putting.{TookAll, Stopped};

use crate::sink::Sink;
use crate::writing::{PutAll, put};
use std::marker::Model;

/// How many bytes a printer hands over at a time.
pub const PIECE_BYTES: usize = 16384;

/// A buffer on the stack before a sink that each call is passed: it hands over `PIECE_BYTES` at a time. No call takes memory.
#[derive(Drop)]
pub struct Printer {
    bytes: [u8; PIECE_BYTES],
    held: usize,
    outcome: Result<(), PutAll>,
}

impl Model for Printer {
    ghost use Rattle.std.specs.Prelude.{◌≡◌, ◌≤◌, length, take};
    ghost use Rattle.hv_io.specs.Printing.{Printing};

    ghost Value = { Printing };

    ghost view = { λ it. record { pending = take it.held it.bytes; outcome = it.outcome } };

    ghost invariant = { λ it. (it.held ≤ 16384) × (length it.bytes ≡ 16384) };
}

impl Printer {
    /// An empty printer.
    pub fn new() -> Printer
        ensures { result ≡ blank }
    {
        Printer {
            bytes: [0; PIECE_BYTES],
            held: 0,
            outcome: Ok(()),
        }
    }

    /// Puts bytes behind what was put before. After a fault of the sink nothing more is handed over.
    pub fn put<K: Sink>(&mut self, out: &mut K, bytes: &[u8])
        ensures prints { Prints bytes.now (seen K.Sink out.old) self.old (seen K.Sink out.new) self.new }
        ensures stays { OnErr self.old.outcome (seen K.Sink out.new ≡ seen K.Sink out.old) }
    {
        let mut rest = bytes;
        while self.goes_on() && self.room() < rest.len() {
            let (head, tail) = rest.split_at(self.room());
            self.hold(head);
            self.flush(out);
            rest = tail;
        }
        if self.goes_on() {
            self.hold(rest);
        }
    }

    /// Hands over what was held back, and tells what became of all that was put.
    pub fn finish<K: Sink>(self, out: &mut K) -> Result<(), PutAll>
        ensures all { (start : Seen) (text : List ℕ) → HasPrinted start text (seen K.Sink out.old) self → OnOk result (TookAll start text (seen K.Sink out.new)) }
        ensures part { (start : Seen) (text : List ℕ) → HasPrinted start text (seen K.Sink out.old) self → IfErr result (λ cause. Stopped start text (seen K.Sink out.new) cause) }
        ensures whole { (start : Seen) (old : Printing) (text : List ℕ) → Prints text start old (seen K.Sink out.old) self → old ≡ blank → OnOk result (TookAll start text (seen K.Sink out.new)) }
        ensures cut { (start : Seen) (old : Printing) (text : List ℕ) → Prints text start old (seen K.Sink out.old) self → old ≡ blank → IfErr result (λ cause. Stopped start text (seen K.Sink out.new) cause) }
    {
        let mut printer = self;
        printer.end(out)
    }

    // Hands over what was held back, unless a fault came before.
    fn end<K: Sink>(&mut self, out: &mut K) -> Result<(), PutAll>
        ensures all { (start : Seen) (text : List ℕ) → HasPrinted start text (seen K.Sink out.old) self.old → OnOk result (TookAll start text (seen K.Sink out.new)) }
        ensures part { (start : Seen) (text : List ℕ) → HasPrinted start text (seen K.Sink out.old) self.old → IfErr result (λ cause. Stopped start text (seen K.Sink out.new) cause) }
    {
        if self.goes_on() {
            self.flush(out);
        }
        self.outcome
    }

    // Whether no fault came so far.
    fn goes_on(&self) -> bool
        ensures { IsTrue result ↔ IsOk self.now.outcome }
    {
        self.outcome.is_ok()
    }

    // How many more bytes it can hold back.
    fn room(&self) -> usize
        ensures { result + length self.now.pending ≡ 16384 }
    {
        PIECE_BYTES - self.held
    }

    // Holds bytes back, for which there is room.
    fn hold(&mut self, bytes: &[u8])
        requires { length self.old.pending + length bytes.now ≤ 16384 }
        ensures { self.new ≡ record self.old { pending = self.old.pending ++ bytes.now } }
    {
        let end = self.held + bytes.len();
        self.bytes[self.held..end].copy_from_slice(bytes);
        self.held = end;
    }

    // Hands over what was held back.
    fn flush<K: Sink>(&mut self, out: &mut K)
        requires { IsOk self.old.outcome }
        ensures held { self.new.pending ≡ [] }
        ensures prints { (start : Seen) (text : List ℕ) → HasPrinted start text (seen K.Sink out.old) self.old → HasPrinted start text (seen K.Sink out.new) self.new }
    {
        self.outcome = put(out, &self.bytes[..self.held]);
        self.held = 0;
    }
}
