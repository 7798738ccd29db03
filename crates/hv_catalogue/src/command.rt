// The commands of a catalogue, and why one is not carried out.
ghost use Rattle.hv_catalogue.specs.declared.command.ApplyFault.TheVariants.{Memory};
ghost use Rattle.std.specs.Prelude.{◌≡◌};

use hv_model::Refusal;
use hv_row::{Bytes, Schema, Shared};
use std::alloc::AllocError;

/// A command that changes the catalogue; an import brings its chunk.
#[derive(Drop)]
pub enum ChunkCommand<C> {
    Create { table: Bytes, schema: Schema },
    Import { table: Bytes, chunk: Shared<C> },
    Purge { table: Bytes, chunk: u64 },
}

/// Why a command is not carried out; `at` is the history's length. Nothing has changed then.
#[derive(Debug, Clone, Copy, PartialEq, Eq)]
pub enum ApplyFault {
    /// No table of the name stands; who asks knows where the name is written.
    NoTable { at: u32 },
    /// The first refusal in the order of the command's causes, and another than that.
    Refused { at: u32, cause: Refusal },
    /// Want of memory; nothing else stands against the command.
    Memory,
}

impl From<AllocError> for ApplyFault {
    ghost from_gives = { λ _ fault. fault ≡ Memory };

    fn from(_error: AllocError) -> ApplyFault {
        ApplyFault::Memory
    }
}
