// The reads of a port, on every device.
mod held;
mod landed;
mod queue;

pub(crate) use held::Held;
pub(crate) use landed::Landed;
pub(crate) use queue::Queue;
