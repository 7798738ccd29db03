// Heap pages, read in place.
ghost use Rattle.std.specs.Prelude.{◌≡◌, ℕ, [], ◌<◌, ◌≤◌, List, length, get_or, None, Some, IfOk, IfErr, MatchResult};
ghost use Rattle.hv_page.specs.Layout.{written_version};
ghost use Rattle.hv_page.specs.Heap.{IsHeapPage};
ghost use Rattle.hv_page.specs.Fault.{heap_entry_fault, entries_fault, heap_fault, entries_of, IsReadable, Tells};

use crate::Form;
use crate::fault::{check_layout, check_zeros, end_of, entry, place_of};
use hv_row::{MAX_ROW_BYTES, Schema};
use std::marker::Model;

/// The kind of a heap page.
pub const HEAP_KIND: u8 = 1;

/// A heap page's entries, lent from its bytes; contracts see the list of them.
#[derive(Drop)]
pub struct HeapView<'a> {
    page: &'a [u8],
    count: u16,
}

impl<'a> Model for HeapView<'a> {
    ghost use Rattle.std.specs.Prelude.{List, ℕ};
    ghost use Rattle.hv_page.specs.Fault.{entries_of, IsReadable};

    ghost Value = { List (List ℕ) };

    ghost view = { λ it. entries_of it.page.now };

    ghost invariant = { λ it. IsReadable it.page.now it.count };
}

/// The entries of a heap page of this number under this schema; else the first byte that fails. This project's own form.
/// Takes no memory.
pub fn parse_heap<'a>(page: &'a [u8], number: u32, schema: &Schema) -> Result<HeapView<'a>, Form>
    requires { length page.now ≡ 4096 }
    // What is read makes exactly these bytes.
    ensures found { IfOk result (λ view. IsHeapPage written_version number schema.now page.now view) }
    // What makes these bytes is read.
    ensures only { (entries : List (List ℕ)) → IsHeapPage written_version number schema.now page.now entries → MatchResult result (λ view. view ≡ entries) (λ _. ⊥) }
    // Which fault it is.
    ensures fault { MatchResult result (λ _. heap_fault written_version number schema.now page.now ≡ None) (λ form. heap_fault written_version number schema.now page.now ≡ Some form.byte) }
{
    // A schema is known to have a column, so no row is empty.
    let _columns = schema.columns();
    view_of(page, number, schema)
}

// The page's points in their order.
#[inline(never)]
fn view_of<'a>(page: &'a [u8], number: u32, schema: &Schema) -> Result<HeapView<'a>, Form>
    requires { length page.now ≡ 4096 }
    ensures read { IfOk result (λ view. view ≡ entries_of page.now) }
    ensures fault { Tells result (heap_fault written_version number schema.now page.now) }
{
    let count = check_layout(page, HEAP_KIND, number)?;
    check_rows(page, count, schema)?;
    check_zeros(page)?;
    Ok(HeapView { page, count })
}

// Whether each entry is a row of the schema.
fn check_rows(page: &[u8], count: u16, schema: &Schema) -> Result<(), Form>
    requires { IsReadable page.now count }
    ensures { Tells result (entries_fault (heap_entry_fault schema.now) page.now 0 count) }
{
    let mut from = place_of(page, 0);
    for slot in 0..count {
        let to = end_of(page, count, slot);
        if let Err(byte) = check_row(&page[from as usize..to as usize], schema) {
            return Err(Form { byte: from + byte });
        }
        from = to;
    }
    Ok(())
}

// Whether an entry is a row of the schema; else the place in it that fails.
fn check_row(row: &[u8], schema: &Schema) -> Result<(), u16>
    ensures fault { MatchResult result (λ _. heap_entry_fault schema.now row.now ≡ None) (λ byte. heap_entry_fault schema.now row.now ≡ Some byte) }
    ensures within { IfErr result (λ byte. byte ≤ length row.now) }
{
    if row.len() > MAX_ROW_BYTES as usize {
        return Err(0);
    }
    hv_row::check(row, schema)
}

impl<'a> HeapView<'a> {
    /// How many entries the page has.
    pub fn count(&self) -> u16
        ensures { result ≡ length self.now }
    {
        self.count
    }

    /// The bytes of the entry at a slot below the count, as they stand in the page.
    pub fn row(&self, slot: u16) -> &'a [u8]
        requires { slot < length self.now }
        ensures { result.now ≡ get_or self.now slot [] }
    {
        entry(self.page, self.count, slot)
    }
}
