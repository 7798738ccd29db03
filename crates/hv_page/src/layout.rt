// How a page is made, entry by entry.
ghost use Rattle.std.specs.Prelude.{◌≡◌, ℕ, [], ◌∷◌, ◌++◌, ◌+◌, ◌*◌, ◌-◌, ◌<◌, ◌≤◌, List, length, take, drop, true, false};
ghost use Rattle.std.specs.List.{concat};
ghost use Rattle.hv_page.specs.Layout.{IsBegun, WasBegun, used_by, offsets};

use crate::fault::short_at;

/// How many bytes a page has.
pub const PAGE_BYTES: usize = 4096;

/// The version of the pages that are written and read.
pub(crate) const VERSION: u8 = 1;

// Where the header has how many entries there are, the first place behind them, and the page's number.
pub(crate) const COUNT_AT: usize = 4;

pub(crate) const USED_AT: usize = 6;

const NUMBER_AT: usize = 8;

/// Where the places of the entries stand, 2 bytes for each.
pub(crate) const OFFSETS_AT: usize = 16;

pub(crate) const OFFSET_BYTES: usize = 2;

/// Why bytes are no page: the first byte, counted from 0, that fails.
#[derive(Clone, Copy, Debug, PartialEq, Eq)]
pub struct Form {
    pub byte: u16,
}

/// Makes the 4,096 bytes a page of this kind and number without an entry. This project's own form. Takes no memory.
pub fn begin(page: &mut [u8], kind: u8, number: u32)
    requires { length page.old ≡ 4096 }
    ensures { IsBegun kind number page.new [] }
{
    page.fill(0);
    page[..COUNT_AT].copy_from_slice(&[b'O', b'D', kind, VERSION]);
    page[USED_AT..NUMBER_AT].copy_from_slice(&(OFFSETS_AT as u16).to_be_bytes());
    page[NUMBER_AT..NUMBER_AT + 4].copy_from_slice(&number.to_be_bytes());
}

/// Puts an entry behind those of a page that was begun; `false` exactly where it doesn't fit, and the page then is
/// unchanged. Takes no memory.
pub fn push(page: &mut [u8], entry: &[u8]) -> bool
    requires begun { WasBegun page.old }
    ensures pushed { (kind number : ℕ) (entries : List (List ℕ)) → IsBegun kind number page.old entries → result ≡ true → IsBegun kind number page.new (entries ++ entry.now ∷ []) }
    ensures full { (kind number : ℕ) (entries : List (List ℕ)) → IsBegun kind number page.old entries → result ≡ false → 4096 < used_by (entries ++ entry.now ∷ []) }
    ensures same { result ≡ false → page.new ≡ page.old }
{
    let count = short_at(page, COUNT_AT);
    let used = short_at(page, USED_AT);
    let from = used as usize + OFFSET_BYTES;
    if PAGE_BYTES < from + entry.len() {
        return false;
    }
    let to = from + entry.len();
    let offsets_to = OFFSETS_AT + OFFSET_BYTES * count as usize;
    shift(&mut page[offsets_to..from]);
    raise_offsets(&mut page[OFFSETS_AT..offsets_to]);
    page[offsets_to..offsets_to + OFFSET_BYTES].copy_from_slice(&(from as u16).to_be_bytes());
    page[from..to].copy_from_slice(entry);
    page[COUNT_AT..USED_AT].copy_from_slice(&(count + 1).to_be_bytes());
    page[USED_AT..NUMBER_AT].copy_from_slice(&(to as u16).to_be_bytes());
    true
}

/// Puts an entry behind those of a page that was begun and has 2 bytes before it: it begins with these then, and its
/// entries stay where they are. `false` exactly where it doesn't fit, and nothing changes. Takes no memory.
pub fn push_down(window: &mut [u8], entry: &[u8]) -> bool
    requires begun { WasBegun (drop 2 window.old) }
    requires two { length window.old ≡ 4098 }
    ensures pushed { (kind number : ℕ) (entries : List (List ℕ)) → IsBegun kind number (drop 2 window.old) entries → result ≡ true → IsBegun kind number (take 4096 window.new) (entries ++ entry.now ∷ []) }
    ensures full { (kind number : ℕ) (entries : List (List ℕ)) → IsBegun kind number (drop 2 window.old) entries → result ≡ false → 4096 < used_by (entries ++ entry.now ∷ []) }
    ensures same { result ≡ false → window.new ≡ window.old }
{
    let count = short_at(window, OFFSET_BYTES + COUNT_AT);
    let used = short_at(window, OFFSET_BYTES + USED_AT);
    let from = used as usize + OFFSET_BYTES;
    if PAGE_BYTES < from + entry.len() {
        return false;
    }
    let to = from + entry.len();
    let offsets_to = OFFSETS_AT + OFFSET_BYTES * count as usize;
    window.copy_within(OFFSET_BYTES..OFFSET_BYTES + OFFSETS_AT, 0);
    lower_offsets(&mut window[OFFSETS_AT..offsets_to + OFFSET_BYTES]);
    window[offsets_to..offsets_to + OFFSET_BYTES].copy_from_slice(&(from as u16).to_be_bytes());
    window[from..to].copy_from_slice(entry);
    window[COUNT_AT..USED_AT].copy_from_slice(&(count + 1).to_be_bytes());
    window[USED_AT..NUMBER_AT].copy_from_slice(&(to as u16).to_be_bytes());
    true
}

// Moves offsets 2 places down, over the first two bytes, and raises them by 2.
fn lower_offsets(bytes: &mut [u8])
    requires { (from : ℕ) × (entries : List (List ℕ)) × (drop 2 bytes.old ≡ offsets from entries) × (from + length (concat entries) ≤ 4096) × (2 ≤ length bytes.old) }
    ensures { (from : ℕ) (entries : List (List ℕ)) → drop 2 bytes.old ≡ offsets from entries → from + length (concat entries) ≤ 4096 → take (2 * length entries) bytes.new ≡ offsets (from + 2) entries }
{
    for slot in 0..bytes.len() / OFFSET_BYTES - 1 {
        let at = OFFSET_BYTES * slot;
        let raised = short_at(bytes, at + OFFSET_BYTES) + OFFSET_BYTES as u16;
        // Both bytes in one write, so that LLVM raises 16 offsets at a time.
        bytes[at..at + OFFSET_BYTES].copy_from_slice(&raised.to_be_bytes());
    }
}

// Moves bytes 2 places up, over the last two; the first two are of no use then.
fn shift(bytes: &mut [u8])
    requires { 2 ≤ length bytes.old }
    ensures { drop 2 bytes.new ≡ take (length bytes.old - 2) bytes.old }
{
    // The distance is a constant, so that LLVM makes one `memmove` of this.
    let end = bytes.len() - OFFSET_BYTES;
    bytes.copy_within(..end, OFFSET_BYTES);
}

// Raises offsets by 2, which is how far their entries have moved.
fn raise_offsets(bytes: &mut [u8])
    requires { (from : ℕ) × (entries : List (List ℕ)) × (bytes.old ≡ offsets from entries) × (from + length (concat entries) ≤ 4096) }
    ensures { (from : ℕ) (entries : List (List ℕ)) → bytes.old ≡ offsets from entries → from + length (concat entries) ≤ 4096 → bytes.new ≡ offsets (from + 2) entries }
{
    for slot in 0..bytes.len() / OFFSET_BYTES {
        let at = OFFSET_BYTES * slot;
        let raised = short_at(bytes, at) + OFFSET_BYTES as u16;
        // Both bytes in one write, so that LLVM raises 16 offsets at a time.
        bytes[at..at + OFFSET_BYTES].copy_from_slice(&raised.to_be_bytes());
    }
}
