// A source and a sink in memory, which tests make fail where they want.
ghost use Rattle.std.specs.Prelude.{◌≡◌, ℕ, ◌-◌, ◌<◌, ◌≤◌, List, [], drop, length, Some, None, IfSome, IfOk, OnOk, OnErr, IsTrue, ◌↔◌, vec_len, MatchOption};
ghost use Rattle.hv_io.specs.Bytes.{Gives, Takes};
ghost use Rattle.hv_io.specs.Counts.{Rose};

use crate::sink::Sink;
use crate::source::{Failed, Source};
use std::alloc::Global;

/// A source over bytes in memory, which gives them in pieces of a length and fails once where it is told to.
#[derive(Debug, Drop)]
pub struct MemSource {
    bytes: Vec<u8>,
    at: usize,
    cut: usize,
    /// Calls up to the one that fails, that one included.
    until: Option<u32>,
    faults: u64,
    ghost in_range: { at ≤ vec_len bytes },
    ghost cuts: { 0 < cut },
}

impl MemSource {
    /// Gives at most `cut` bytes a call, and fails at the call that `fail` names, counted from 1.
    pub fn new(bytes: Vec<u8>, cut: usize, fail: Option<u32>) -> MemSource
        requires { 0 < cut }
        ensures left { ⟦<MemSource as Source>⟧.left result ≡ Some bytes.items }
        ensures faults { ⟦<MemSource as Source>⟧.faults result ≡ 0 }
    {
        MemSource {
            bytes,
            at: 0,
            cut,
            until: fail,
            faults: 0,
        }
    }
}

impl Source for MemSource {
    ghost left = { λ it. Some (drop it.at it.bytes.items) };

    ghost faults = { λ it. it.faults };

    fn read(&mut self, piece: &mut [u8]) -> Result<usize, Failed> {
        if fails_now(&mut self.until) {
            self.faults = self.faults.saturating_add(1);
            return Err(Failed);
        }
        let (_, rest) = self.bytes.as_slice().split_at(self.at);
        let n = self.cut.min(piece.len()).min(rest.len());
        let (given, _) = rest.split_at(n);
        let (front, _) = piece.split_at_mut(n);
        front.copy_from_slice(given);
        self.at += n;
        Ok(n)
    }
}

/// A sink that keeps its bytes in memory, takes them in pieces of a length and fails once where it is told to.
#[derive(Debug, Drop)]
pub struct MemSink {
    bytes: Vec<u8>,
    cut: usize,
    /// Calls up to the one that fails, that one included.
    until: Option<u32>,
    faults: u64,
    ghost cuts: { 0 < cut },
}

impl MemSink {
    /// Takes at most `cut` bytes a call, and fails at the call that `fail` names, counted from 1.
    /// It fails too where it needs memory and gets none.
    pub fn new(alloc: Global, cut: usize, fail: Option<u32>) -> MemSink
        requires { 0 < cut }
        ensures taken { ⟦<MemSink as Sink>⟧.taken result ≡ Some [] }
        ensures faults { ⟦<MemSink as Sink>⟧.faults result ≡ 0 }
        ensures zeros { ⟦<MemSink as Sink>⟧.zeros result ≡ 0 }
    {
        MemSink {
            bytes: Vec::new(alloc),
            cut,
            until: fail,
            faults: 0,
        }
    }

    /// The bytes that it has taken.
    pub fn bytes(&self) -> &[u8]
        ensures { ⟦<MemSink as Sink>⟧.taken self.now ≡ Some result.now }
    {
        self.bytes.as_slice()
    }

    /// The bytes that it has taken, with their memory.
    pub fn into_vec(self) -> Vec<u8>
        ensures { ⟦<MemSink as Sink>⟧.taken self ≡ Some result.items }
    {
        self.bytes
    }

    fn fail(&mut self) -> Failed
        ensures faults { Rose self.old.faults self.new.faults }
        ensures bytes { self.new.bytes ≡ self.old.bytes }
    {
        self.faults = self.faults.saturating_add(1);
        Failed
    }
}

impl Sink for MemSink {
    ghost taken = { λ it. Some it.bytes.items };

    ghost faults = { λ it. it.faults };

    ghost zeros = { λ _. 0 };

    fn write(&mut self, piece: &[u8]) -> Result<usize, Failed> {
        if fails_now(&mut self.until) {
            return Err(self.fail());
        }
        let n = self.cut.min(piece.len());
        let (front, _) = piece.split_at(n);
        match self.bytes.extend_from_slice(front) {
            Ok(()) => Ok(n),
            Err(_) => Err(self.fail()),
        }
    }
}

// Whether the call that was to fail has come; then no later one fails.
fn fails_now(until: &mut Option<u32>) -> bool
    ensures now { IsTrue result ↔ (until.old ≡ Some 1) }
    ensures later { MatchOption until.old (until.new ≡ None) (λ calls. 1 < calls → until.new ≡ Some (calls - 1)) }
    ensures never { until.old ≡ Some 1 → until.new ≡ None }
{
    match *until {
        Some(1) => {
            *until = None;
            true
        }
        Some(calls) if calls > 1 => {
            *until = Some(calls - 1);
            false
        }
        _ => false,
    }
}
