//! A pool of page frames that several sessions share.
//! Each frame stands once: it is free, or has the page of a key, or is being read into, or is in a hand.
#![tactic(auto)]

mod index;
mod key;
mod law;
mod order;
mod pool;
mod seen;
mod slot;

pub use key::{PageKey, same};
pub use law::{owed_laws, pool_laws, session_laws};
pub use pool::{Pool, Unpooled};
pub use seen::{Ask, Seen};
pub use slot::{Held, Slot};
