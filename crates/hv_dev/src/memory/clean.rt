// A device in memory on which nothing fails.
ghost use Rattle.std.specs.Prelude.{◌≡◌, true};
ghost use Rattle.hv_dev.specs.Reading.{none_back};

use super::device::Memory;
use super::plan::Plan;
use crate::Device;
use std::alloc::{AllocError, Global};

/// A device in memory that never fails: its counts of faults are 0 as facts of the type.
pub type CleanDevice = Memory<Never>;

/// Nothing goes wrong.
#[derive(Drop)]
pub struct Never;

impl Memory<Never> {
    pub fn new() -> CleanDevice
        ensures { ⟦<Memory<Never> as Device>⟧.returned result ≡ none_back }
    {
        Memory::with(Never)
    }
}

impl Plan for Never {
    ghost is_true = { true };

    ghost read_faults = { λ _. 0 };

    ghost write_faults = { λ _. 0 };

    ghost back_faults = { λ _. 0 };

    fn for_port(&self, _: Global, _: u64) -> Result<Never, AllocError> {
        Ok(Never)
    }

    fn add(&mut self, _: &Never) {}
}
