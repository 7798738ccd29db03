// A device that keeps its files in memory.
ghost use Rattle.std.specs.Prelude.{◌≡◌};
ghost use Rattle.hv_dev.specs.Reading.{none_back};

use super::file::MemFile;
use super::plan::Plan;
use super::port::MemPort;
use crate::reads::Landed;
use crate::{Device, Order, Past};
use std::alloc::{AllocError, Global};

/// A device that keeps its files in memory, on which goes wrong what its plan says.
#[derive(Drop)]
pub struct Memory<P> {
    plan: P,
    /// How many ports it has made, modulo 2^64.
    made: u64,
    submits: u64,
    most: u32,
    landings: Past<Landed<MemFile<P>>>,
    out: u64,
}

impl<P: Plan> Memory<P> {
    pub fn with(plan: P) -> Memory<P>
        requires { P.back_faults plan ≡ 0 }
        ensures { ⟦<Memory<P> as Device>⟧.returned result ≡ none_back }
    {
        Memory {
            plan,
            made: 0,
            submits: 0,
            most: 0,
            landings: Past::new(),
            out: 0,
        }
    }
}

impl<P: Plan> Device for Memory<P> {
    type Port = MemPort<P>;

    ghost returned = { λ it. record { faults = P.back_faults it.plan; submits = it.submits; most = it.most; landings = it.landings; out = it.out } };

    fn port(&mut self, alloc: Global, order: Order, room: u32) -> Result<MemPort<P>, AllocError> {
        let Some(out) = self.out.checked_add(1) else {
            return Err(AllocError);
        };
        let plan = self.plan.for_port(alloc, self.made)?;
        let port = MemPort::new(plan, alloc, order, self.made, room)?;
        self.made = self.made.wrapping_add(1);
        self.out = out;
        Ok(port)
    }

    fn back(&mut self, port: MemPort<P>) {
        self.plan.add(&port.plan);
        self.submits = self.submits.saturating_add(port.queue.submits);
        self.most = self.most.max(port.queue.most);
        self.landings.extend(&port.landings);
        self.out = self.out.saturating_sub(1);
    }
}
