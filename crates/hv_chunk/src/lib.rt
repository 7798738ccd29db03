//! Chunks: rows packed into the pages of a file that is sealed, with a digest for each page.
//! A chunk is made row by row over one open file, and never changes once it is sealed.
#![tactic(auto)]

mod builder;
mod chunk;
mod fault;
mod turn;

pub use builder::ChunkBuilder;
pub use chunk::Chunk;
pub use fault::BuildFault;
pub use turn::JobTurn;
