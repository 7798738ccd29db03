//! Sessions whose statements interleave, on one thread: each pick lets one session take one step.
//! After every pick the history and the replies so far are legal, whichever sessions were picked, and in the end they are a legal outcome.
#![tactic(auto)]

mod access;
mod binding;
mod command;
mod import;
mod look;
mod pages;
mod pick;
mod ready;
mod report;
mod select;
mod session;
mod stage;
mod statement;
mod tables;
mod turns;
mod world;

pub use access::PageAccess;
pub use world::World;
