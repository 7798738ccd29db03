// Devices that keep their files in memory.
mod clean;
mod device;
mod draw;
mod failing;
mod file;
mod plan;
mod port;
mod rotten;

pub use clean::CleanDevice;
pub use failing::{Fail, FailKind, MemDevice};
pub use rotten::Rotten;
