// A device in memory that brings one bit wrong.
ghost use Rattle.std.specs.Prelude.{◌≡◌, ◌<◌, false};
ghost use Rattle.hv_dev.specs.Reading.{none_back};

use super::device::Memory;
use super::plan::Plan;
use crate::Device;
use std::alloc::{AllocError, Global};

/// A device in memory that never fails, and flips one bit of one read. Its files do not tell what they hold.
pub type Rotten = Memory<Flip>;

/// One read brings one bit wrong.
#[derive(Drop)]
pub struct Flip {
    port: u32,
    /// Reads that land up to the one whose bit is flipped, that one included; 0 where none is to come.
    until: u32,
    byte: u16,
    ghost within: { byte < 4096 },
}

impl Memory<Flip> {
    /// The lowest bit of that byte is flipped in the `nth` read that lands on the port, both counted from where the device began:
    /// ports from 0, reads from 1.
    pub fn new(port: u32, nth: u32, byte: u16) -> Rotten
        requires { byte < 4096 }
        ensures { ⟦<Memory<Flip> as Device>⟧.returned result ≡ none_back }
    {
        Memory::with(Flip {
            port,
            until: nth,
            byte,
        })
    }
}

impl Plan for Flip {
    ghost is_true = { false };

    ghost read_faults = { λ _. 0 };

    ghost write_faults = { λ _. 0 };

    ghost back_faults = { λ _. 0 };

    fn for_port(&self, _: Global, port: u64) -> Result<Flip, AllocError> {
        let is_it = u64::from(self.port) == port;
        Ok(Flip {
            port: self.port,
            until: if is_it { self.until } else { 0 },
            byte: self.byte,
        })
    }

    fn spoil(&mut self, page: &mut [u8]) {
        if self.until == 1 {
            page[self.byte as usize] ^= 1;
        }
        self.until = self.until.saturating_sub(1);
    }

    fn add(&mut self, _: &Flip) {}
}
