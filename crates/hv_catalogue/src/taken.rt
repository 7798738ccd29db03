// What a query takes of a catalogue.
ghost use Rattle.hv_catalogue.specs.declared.taken.SnapFault.TheVariants.{Memory};
ghost use Rattle.std.specs.Prelude.{◌≡◌};

use hv_model::TableHead;
use hv_row::Listed;
use hv_view::Snapshot;
use std::alloc::AllocError;

/// Heads of tables, in the order in which they were asked for.
pub type TableHeads = Listed<TableHead>;

/// Tables at one length of the history, `at`: what has to be known of each, and its chunks.
#[derive(Drop)]
pub struct Taken<C> {
    pub at: u32,
    pub heads: TableHeads,
    pub view: Snapshot<C>,
}

/// Why nothing was taken.
#[derive(Debug, Clone, Copy, PartialEq, Eq)]
pub enum SnapFault {
    /// The first of the names, by its place from 0, of which no table stands; `at` is the history's length.
    NoTable { place: u8, at: u32 },
    /// Want of memory; each table stands.
    Memory,
}

impl From<AllocError> for SnapFault {
    ghost from_gives = { λ _ fault. fault ≡ Memory };

    fn from(_error: AllocError) -> SnapFault {
        SnapFault::Memory
    }
}
