use crate::Chunk;
use hv_model::Why;

/// What one turn of a job answers that makes a chunk, as an import or a merge does. After one of the last four the
/// open file is abandoned, no frame is held, and the job may only be dropped.
#[derive(Drop)]
pub enum JobTurn<F> {
    /// It went on, and wants another turn.
    Went,
    /// The next page is in flight or in hand for another, or the pool is full: nothing was done.
    Waits,
    /// The chunk is made, and the job is over.
    Made(Chunk<F>),
    /// A read failed.
    ReadFault,
    /// A write or the seal failed.
    WriteFault,
    /// A page of this chunk that was read is not the one that was written; both are named by their numbers.
    Damaged { chunk: u32, page: u32, why: Why },
    /// Want of memory.
    Memory,
}
