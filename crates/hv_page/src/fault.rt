// The points of a page in their order: what each function here answers is a definition of specs/Fault.
ghost use Rattle.std.specs.Prelude.{◌≡◌, ◌+◌, ◌-◌, ◌<◌, ◌≤◌, length, drop, replicate, None, IfOk, IsTrue};
ghost use Rattle.hv_page.specs.Layout.{entries_from, written_version};
ghost use Rattle.hv_page.specs.Fault.{◌orelse◌, unless, short_at, count_of, used_of, entry_from, entry_to, entry_at, start_fault, count_fault, used_fault, number_fault, offsets_fault, zeros_fault, IsReadable, Tells};

use crate::layout::{COUNT_AT, Form, OFFSET_BYTES, OFFSETS_AT, PAGE_BYTES, USED_AT, VERSION};

static ZEROS: [u8; PAGE_BYTES] = [0; PAGE_BYTES];

/// How many entries a page has whose points up to the offsets hold; else the first byte that fails.
pub fn check_layout(page: &[u8], kind: u8, number: u32) -> Result<u16, Form>
    requires { length page.now ≡ 4096 }
    ensures readable { IfOk result (λ count. IsReadable page.now count) }
    ensures within { IfOk result (λ _. used_of page.now ≤ 4096) }
    ensures fault { Tells result (start_fault kind written_version page.now orelse count_fault page.now orelse used_fault page.now orelse number_fault number page.now orelse offsets_fault page.now 0 (count_of page.now)) }
{
    check_start(page, kind)?;
    check_room(page)?;
    check_number(page, number)?;
    let count = short_at(page, COUNT_AT);
    check_offsets(page, count, short_at(page, USED_AT))?;
    Ok(count)
}

/// Whether only zeros stand behind the entries; else the first byte that is none.
pub fn check_zeros(page: &[u8]) -> Result<(), Form>
    requires whole { length page.now ≡ 4096 }
    requires within { used_of page.now ≤ 4096 }
    ensures { Tells result (zeros_fault (used_of page.now) (drop (used_of page.now) page.now)) }
{
    let used = short_at(page, USED_AT);
    check_all_zeros(&page[used as usize..], used)
}

/// The bytes of the entry at a slot, as they stand in the page.
pub fn entry(page: &[u8], count: u16, slot: u16) -> &[u8]
    requires readable { IsReadable page.now count }
    requires below { slot < count }
    ensures { result.now ≡ entry_at page.now slot }
{
    &page[place_of(page, slot) as usize..end_of(page, count, slot) as usize]
}

/// The place of the entry at a slot, by its offset.
pub fn place_of(page: &[u8], slot: u16) -> u16
    requires { entries_from slot + 2 ≤ length page.now }
    ensures { result ≡ entry_from page.now slot }
{
    short_at(page, offset_at(slot))
}

/// The place behind the entry at a slot: the next one's, or for the last one the first behind all.
pub fn end_of(page: &[u8], count: u16, slot: u16) -> u16
    requires readable { IsReadable page.now count }
    requires below { slot < count }
    ensures { result ≡ entry_to page.now slot }
{
    if slot + 1 == count {
        short_at(page, USED_AT)
    } else {
        place_of(page, slot + 1)
    }
}

/// The number of 2 bytes at a place.
pub fn short_at(page: &[u8], at: usize) -> u16
    requires { at + 2 ≤ length page.now }
    ensures { result ≡ short_at page.now at }
{
    u16::from_be_bytes([page[at], page[at + 1]])
}

// The place of the offset at a slot, which is that of the first entry behind so many offsets.
fn offset_at(slot: u16) -> usize
    ensures { result ≡ entries_from slot }
{
    OFFSETS_AT + OFFSET_BYTES * slot as usize
}

// Whether a point holds; else its byte.
fn must(holds: bool, byte: u16) -> Result<(), Form>
    ensures { Tells result (unless holds byte) }
{
    if holds { Ok(()) } else { Err(Form { byte }) }
}

// The letters, the kind and the version.
fn check_start(page: &[u8], kind: u8) -> Result<(), Form>
    requires { length page.now ≡ 4096 }
    ensures { Tells result (start_fault kind written_version page.now) }
{
    must(page[0] == b'O', 0)?;
    must(page[1] == b'D', 1)?;
    must(page[2] == kind, 2)?;
    must(page[3] == VERSION, 3)
}

// How many entries there are, and where they end.
fn check_room(page: &[u8]) -> Result<(), Form>
    requires { length page.now ≡ 4096 }
    ensures { Tells result (count_fault page.now orelse used_fault page.now) }
{
    let count = short_at(page, COUNT_AT);
    let used = short_at(page, USED_AT) as usize;
    let from = offset_at(count);
    must(count > 0 && from <= PAGE_BYTES, 4)?;
    must(from < used && used <= PAGE_BYTES, 6)
}

// The page's number, and four zeros.
fn check_number(page: &[u8], number: u32) -> Result<(), Form>
    requires { length page.now ≡ 4096 }
    ensures { Tells result (number_fault number page.now) }
{
    must(
        u32::from_be_bytes([page[8], page[9], page[10], page[11]]) == number,
        8,
    )?;
    must(page[12] == 0, 12)?;
    must(page[13] == 0, 13)?;
    must(page[14] == 0, 14)?;
    must(page[15] == 0, 15)
}

// The first entry stands behind the offsets, and each other one behind the one before.
fn check_offsets(page: &[u8], count: u16, used: u16) -> Result<(), Form>
    requires whole { length page.now ≡ 4096 }
    requires counted { count ≡ count_of page.now }
    requires ends { used ≡ used_of page.now }
    requires some { 0 < count }
    requires room { entries_from count ≤ 4096 }
    ensures { Tells result (offsets_fault page.now 0 count) }
{
    let mut before = short_at(page, OFFSETS_AT);
    if before as usize != offset_at(count) || used <= before {
        return Err(Form {
            byte: OFFSETS_AT as u16,
        });
    }
    if do_offsets_rise(page, count, used) {
        return Ok(());
    }
    for slot in 1..count {
        let at = offset_at(slot);
        let from = short_at(page, at);
        if from <= before || used <= from {
            return Err(Form { byte: at as u16 });
        }
        before = from;
    }
    Ok(())
}

// Whether each offset but the first one fits, told many at a time: no test ends the loop early.
fn do_offsets_rise(page: &[u8], count: u16, used: u16) -> bool
    requires whole { length page.now ≡ 4096 }
    requires ends { used ≡ used_of page.now }
    requires room { entries_from count ≤ 4096 }
    ensures { IsTrue result → offsets_fault page.now 1 (count - 1) ≡ None }
{
    let mut rise = true;
    for slot in 1..count {
        let from = place_of(page, slot);
        rise &= (place_of(page, slot - 1) < from) & (from < used);
    }
    rise
}

// Whether these bytes are zeros, the first of which stands at a place of the page.
fn check_all_zeros(bytes: &[u8], from: u16) -> Result<(), Form>
    requires { from + length bytes.now ≤ 4096 }
    ensures { Tells result (zeros_fault from bytes.now) }
{
    if are_zeros(bytes) {
        return Ok(());
    }
    for (at, byte) in bytes.iter().enumerate() {
        if *byte != 0 {
            return Err(Form {
                byte: from + at as u16,
            });
        }
    }
    Ok(())
}

// Whether these bytes are zeros, told many at a time.
fn are_zeros(bytes: &[u8]) -> bool
    requires { length bytes.now ≤ 4096 }
    ensures { IsTrue result → bytes.now ≡ replicate (length bytes.now) 0 }
{
    bytes == &ZEROS[..bytes.len()]
}
