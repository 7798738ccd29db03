//! Devices of page files: files are written page by page and sealed; pages are read by reads that land in any order.
//! What a sealed file holds never changes; every fault is counted, and only a count that rose excuses one.
#![tactic(auto)]

mod device;
mod file;
mod files;
mod memory;
mod past;
mod port;
mod reads;
mod sink;

pub use device::{Device, Order};
pub use file::PageFile;
pub use files::FileDevice;
pub use memory::{CleanDevice, Fail, FailKind, MemDevice, Rotten};
pub use past::Past;
pub use port::{Port, Reaped};
pub use sink::{PageSink, PutFault, as_page};
