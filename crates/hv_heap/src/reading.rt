// Rows of a heap page.
ghost use Rattle.std.specs.Prelude.{◌≡◌, [], ◌<◌, length, get_or, IfOk};
ghost use Rattle.std.specs.List.{AllByRecursion};
ghost use Rattle.hv_row.specs.Row.{RowFits, row_bytes};
ghost use Rattle.hv_page.specs.Heap.{IsHeapEntry};

use hv_page::HeapView;
use hv_row::{Row, Schema, decode_spelled};
use std::alloc::{AllocError, Global};

/// The row at a slot below the count of a page that was parsed under this schema; its texts are not tested again.
/// `Err` only for want of memory.
pub fn row_at(
    alloc: Global,
    view: &HeapView<'_>,
    slot: u16,
    schema: &Schema,
) -> Result<Row, AllocError>
    requires parsed { AllByRecursion (IsHeapEntry schema.now) view.now }
    requires below { slot < length view.now }
    ensures { IfOk result (λ row. RowFits schema.now row × (row_bytes schema.now row ≡ get_or view.now slot [])) }
{
    decode_spelled(alloc, view.row(slot), schema)
}
