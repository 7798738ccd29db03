// A device in memory that fails at the calls that it is told.
ghost use Rattle.std.specs.Prelude.{◌≡◌, true};
ghost use Rattle.hv_dev.specs.Reading.{none_back};

use super::device::Memory;
use super::plan::Plan;
use crate::Device;
use std::alloc::{AllocError, Global};

/// Which calls are counted together.
#[derive(Clone, Copy, Debug, PartialEq, Eq)]
pub enum FailKind {
    Read,
    Write,
    Seal,
}

/// A call that fails.
#[derive(Clone, Copy, Debug, PartialEq, Eq)]
pub struct Fail {
    /// The port's number, counted from 0 in the order in which the device made them.
    pub port: u32,
    pub kind: FailKind,
    /// Its number among the port's calls of that kind, counted from 1. A read is counted where it comes back.
    pub nth: u32,
}

/// A device in memory that fails at the calls that it is told, and counts each fault.
pub type MemDevice = Memory<Listed>;

/// The calls listed fail: the device's, or those of one port.
#[derive(Drop)]
pub struct Listed {
    fails: Vec<Fail>,
    reads: u64,
    writes: u64,
    seals: u64,
    read_faults: u64,
    write_faults: u64,
    back_faults: u64,
}

impl Memory<Listed> {
    pub fn new(fails: Vec<Fail>) -> MemDevice
        ensures { ⟦<Memory<Listed> as Device>⟧.returned result ≡ none_back }
    {
        Memory::with(Listed::new(fails))
    }
}

impl Listed {
    fn new(fails: Vec<Fail>) -> Listed
        ensures reads { result.read_faults ≡ 0 }
        ensures writes { result.write_faults ≡ 0 }
        ensures back { result.back_faults ≡ 0 }
    {
        Listed {
            fails,
            reads: 0,
            writes: 0,
            seals: 0,
            read_faults: 0,
            write_faults: 0,
            back_faults: 0,
        }
    }

    fn lists(&self, kind: FailKind, nth: u64) -> bool {
        for fail in &self.fails {
            if fail.kind == kind && u64::from(fail.nth) == nth {
                return true;
            }
        }
        false
    }
}

impl Plan for Listed {
    ghost is_true = { true };

    ghost read_faults = { λ it. it.read_faults };

    ghost write_faults = { λ it. it.write_faults };

    ghost back_faults = { λ it. it.back_faults };

    fn for_port(&self, alloc: Global, port: u64) -> Result<Listed, AllocError> {
        let mut fails = Vec::new(alloc);
        for fail in &self.fails {
            if u64::from(fail.port) == port {
                fails.push(*fail)?;
            }
        }
        Ok(Listed::new(fails))
    }

    fn fails_write(&mut self) -> bool {
        self.writes = self.writes.saturating_add(1);
        if !self.lists(FailKind::Write, self.writes) {
            return false;
        }
        self.write_faults = self.write_faults.saturating_add(1);
        true
    }

    fn fails_seal(&mut self) -> bool {
        self.seals = self.seals.saturating_add(1);
        if !self.lists(FailKind::Seal, self.seals) {
            return false;
        }
        self.write_faults = self.write_faults.saturating_add(1);
        true
    }

    fn fails_read(&mut self) -> bool {
        self.reads = self.reads.saturating_add(1);
        if !self.lists(FailKind::Read, self.reads) {
            return false;
        }
        self.read_faults = self.read_faults.saturating_add(1);
        true
    }

    fn add(&mut self, port: &Listed) {
        let faults = self.back_faults.saturating_add(port.read_faults);
        self.back_faults = faults.saturating_add(port.write_faults);
    }
}
