// Heap pages; the expected bytes and places are reasoned from the points of a page, and no output of the crate's own.
ghost use Rattle.std.specs.Prelude.{◌≡◌, length};
ghost use Rattle.hv_page.specs.Layout.{WasBegun};

use crate::made::{ONE_ROW, page_of, page_of_entry, page_of_rows, schema_of};
use crate::points::first_fault;
use hv_page::{HEAP_KIND, HeapView, PAGE_BYTES, begin, digest, parse_heap, push};
use hv_row::Schema;
use std::test::Fail;

const ONE_ROW_DIGEST: [u8; 32] = [
    0x5b, 0xb7, 0x68, 0xdf, 0x78, 0x8f, 0x2c, 0x37, 0x65, 0x2c, 0x93, 0x5f, 0x3e, 0x8b, 0x88, 0x2f,
    0xb0, 0x91, 0xf1, 0xd0, 0x45, 0xd2, 0x5c, 0x0d, 0x1a, 0x75, 0xc2, 0x38, 0x4f, 0xfd, 0x69, 0xed,
];

// The bytes of the row (1).
const ONE: [u8; 8] = [0, 0, 0, 0, 0, 0, 0, 1];

// The place that is told, or none where the page is read.
fn told(page: &[u8], number: u32, schema: &Schema) -> Option<usize>
    requires { length page.now ≡ 4096 }
{
    match parse_heap(page, number, schema) {
        Ok(_) => None,
        Err(form) => Some(form.byte as usize),
    }
}

fn push_one(page: &mut [u8]) -> bool
    requires { WasBegun page.old }
    ensures { WasBegun page.new }
{
    push(page, &ONE)
}

// Puts as many rows (1) into a page; says how many have room.
fn push_rows(page: &mut [u8], count: u32) -> u32
    requires { WasBegun page.old }
{
    let mut pushed = 0;
    for _ in 0..count {
        if push_one(page) {
            pushed += 1;
        }
    }
    pushed
}

// Makes page 0 of at most so many rows (1), and says how many have room.
fn make_rows(page: &mut [u8; 4096], count: u32) -> u32 {
    begin(page, HEAP_KIND, 0);
    push_rows(page, count)
}

// Whether a page has so many rows (1), and no other.
fn has_ones(view: &HeapView<'_>, count: u32) -> bool {
    for slot in 0..view.count() {
        if view.row(slot) != ONE.as_slice() {
            return false;
        }
    }
    u32::from(view.count()) == count
}

// Whether page 0 is read as so many rows (1).
fn is_read_as_ones(page: &[u8; 4096], schema: &Schema, count: u32) -> bool {
    match parse_heap(page, 0, schema) {
        Ok(view) => has_ones(&view, count),
        Err(_) => false,
    }
}

// Whether a page is the one of so many rows (1) that was built by hand.
fn is_page_of_rows(page: &[u8; 4096], count: u32) -> bool {
    count <= 408 && page.as_slice() == page_of_rows(count as usize).as_slice()
}

#[test]
fn makes_the_page_of_one_row(rt: HostRuntime) {
    let mut page = [9; PAGE_BYTES];
    assert!(rt; make_rows(&mut page, 1) == 1);
    assert!(rt; page.as_slice() == page_of(&ONE_ROW).as_slice());
}

#[test]
fn tells_pages_by_their_digest(rt: HostRuntime) {
    assert!(rt; digest(&page_of(&ONE_ROW)).as_slice() == ONE_ROW_DIGEST.as_slice());
}

#[test]
fn reads_the_page_of_one_row(rt: HostRuntime) -> Result<(), Fail> {
    let schema = schema_of(rt.alloc(), "i")?;
    assert!(rt; is_read_as_ones(&page_of(&ONE_ROW), &schema, 1));
    Ok(())
}

// How many rows (1) are to be put into a page, and how many have room.
const FILLINGS: [(u32, u32); 5] = [(1, 1), (2, 2), (407, 407), (408, 408), (410, 408)];

#[test]
fn fills_a_page(rt: HostRuntime) {
    for (count, want) in FILLINGS {
        let mut page = [9; PAGE_BYTES];
        assert!(rt; make_rows(&mut page, count) == want, "{count}");
        assert!(rt; is_page_of_rows(&page, want), "{count}");
    }
}

#[test]
fn reads_a_full_page(rt: HostRuntime) -> Result<(), Fail> {
    let schema = schema_of(rt.alloc(), "i")?;
    for (count, want) in FILLINGS {
        let mut page = [9; PAGE_BYTES];
        make_rows(&mut page, count);
        assert!(rt; is_read_as_ones(&page, &schema, want), "{count}");
    }
    Ok(())
}

// The first byte that, flipped so, is told otherwise than point by point.
fn first_untold(whole: &[u8; 4096], flip: u8, schema: &Schema) -> Option<usize> {
    for at in 0..PAGE_BYTES {
        let mut page = *whole;
        page[at] ^= flip;
        if told(&page, 0, schema) != first_fault(&page) {
            return Some(at);
        }
    }
    None
}

// Whether each flipped byte of this page is told, for each of four flips.
fn is_told(whole: &[u8; 4096], schema: &Schema) -> bool {
    for flip in [1, 8, 0x80, 0xff] {
        if first_untold(whole, flip, schema).is_some() {
            return false;
        }
    }
    first_fault(whole).is_none()
}

#[test]
fn tells_each_flipped_byte(rt: HostRuntime) -> Result<(), Fail> {
    let schema = schema_of(rt.alloc(), "i")?;
    for count in [1, 3, 408] {
        assert!(rt; is_told(&page_of_rows(count), &schema), "{count}");
    }
    Ok(())
}

#[test]
fn tells_pages_of_other_numbers(rt: HostRuntime) -> Result<(), Fail> {
    let schema = schema_of(rt.alloc(), "i")?;
    for (number, want) in [(0, None), (1, Some(8)), (u32::MAX, Some(8))] {
        assert!(rt;
            told(&page_of(&ONE_ROW), number, &schema) == want,
            "{number}"
        );
    }
    Ok(())
}

#[test]
fn tells_pages_of_other_schemas(rt: HostRuntime) -> Result<(), Fail> {
    for kinds in ["ii", "t", "it"] {
        let schema = schema_of(rt.alloc(), kinds)?;
        assert!(rt; told(&page_of(&ONE_ROW), 0, &schema).is_some(), "{kinds}");
    }
    Ok(())
}

#[test]
fn tells_pages_that_are_none(rt: HostRuntime) -> Result<(), Fail> {
    let schema = schema_of(rt.alloc(), "i")?;
    for (page, want) in [
        ([0; PAGE_BYTES], 0),
        ([0xff; PAGE_BYTES], 0),
        (page_of(b"OD\x01\x01"), 4),
    ] {
        assert!(rt; told(&page, 0, &schema) == Some(want));
    }
    Ok(())
}

// Entries under a number and a text, and the place at fault.
const ENTRIES: [(&[u8], Option<usize>); 7] = [
    (b"1234567\x02\x02ab", None),
    (b"12345678\0", None),
    (b"1234567", Some(18)),
    (b"12345678", Some(26)),
    (b"12345678\x03ab", Some(26)),
    (b"12345678\x01\xff", Some(26)),
    (b"12345678\x01ab", Some(28)),
];

// The place that is told of the page of one entry, where it has room.
fn told_of_entry(entry: &[u8], schema: &Schema) -> Option<usize> {
    if entry.len() >= 4078 {
        return Some(PAGE_BYTES);
    }
    told(&page_of_entry(entry), 0, schema)
}

#[test]
fn tells_the_place_in_an_entry(rt: HostRuntime) -> Result<(), Fail> {
    let schema = schema_of(rt.alloc(), "it")?;
    for (entry, want) in ENTRIES {
        assert!(rt; told_of_entry(entry, &schema) == want);
    }
    Ok(())
}

// The entry of eight texts, all but the last of 255 bytes.
fn entry_of_texts(last: u8) -> [u8; 2048] {
    let mut entry = [b'a'; 2048];
    for text in 0..7usize {
        entry[256 * text] = 255;
    }
    entry[1792] = last;
    entry
}

#[test]
fn reads_rows_of_at_most_2000_bytes(rt: HostRuntime) -> Result<(), Fail> {
    let schema = schema_of(rt.alloc(), "tttttttt")?;
    for (last, want) in [(207, None), (208, Some(18)), (255, Some(18))] {
        let entry = entry_of_texts(last);
        let taken = &entry[..1793 + last as usize];
        assert!(rt; told_of_entry(taken, &schema) == want, "{last}");
    }
    Ok(())
}
