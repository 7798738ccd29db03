// A device that keeps its files in a folder of the operating system.
mod device;
mod file;
mod port;
mod writer;

pub use device::FileDevice;
