//! Frames: the memory of pages, taken once and given back once.
//! A frame has no `Drop`: whoever takes one hands it on or gives it back, and `Owner::end` takes all of them.
#![tactic(auto)]

mod frame;
mod owner;

pub use frame::{FRAME_BYTES, Frame};
pub use owner::{Owner, make};
