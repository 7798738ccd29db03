// Where ports come from.
ghost use Rattle.std.specs.Prelude.{◌≡◌, [], Some, IfOk, OnOk, OnErr};
ghost use Rattle.hv_dev.specs.Reading.{Back, unread, went, came_back};

use crate::{PageSink, Port};
use std::alloc::{AllocError, Global};

/// In which order a device in memory lets reads land: a wish, on which no promise rests.
#[derive(Clone, Copy, Debug, PartialEq, Eq)]
pub enum Order {
    /// The read that was submitted first.
    Fifo,
    /// The read that was submitted last.
    Lifo,
    /// One drawn by a generator of this seed.
    Seed(u64),
}

/// Where ports come from, and to which they come back.
pub trait Device {
    type Port: Port;

    /// The counts of the ports that came back, which `back` alone changes, and how many ports are out.
    ghost returned: { Self → Back Self.Port.File };

    /// A port with room for so many reads.
    fn port(&mut self, alloc: Global, order: Order, room: u32) -> Result<Self::Port, AllocError>
        ensures fresh { IfOk result (λ port. Self.Port.reading port ≡ unread Self.Port.File room) }
        ensures calm { IfOk result (λ port. Self.Port.write_faults port ≡ 0) }
        ensures empty { IfOk result (λ port. Self.Port.written port ≡ Some []) }
        ensures out { OnOk result (returned self.new ≡ went (returned self.old)) }
        ensures kept { OnErr result (returned self.new ≡ returned self.old) };

    /// Takes a port back that has nothing under way.
    fn back(&mut self, port: Self::Port)
        requires { (Self.Port.reading port).in_flight ≡ [] }
        ensures { returned self.new ≡ came_back (returned self.old) (Self.Port.reading port) (Self.Port.write_faults port) };
}
