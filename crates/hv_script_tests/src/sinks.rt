// What a sink has that fails, and the pieces in which a report is handed over.
ghost use Rattle.std.specs.Prelude.{None};

use crate::reports::{WHOLE, bytes_of, report_on, row, whole};
use hv_io::{Failed, MemSink, PutAll, Sink};
use hv_model::{OutRows, Reply};
use hv_report::{Report, write_report};
use std::alloc::{AllocError, Global};
use std::test::Fail;

// Whether a sink that takes at most 7 bytes a call and fails at this one takes these bytes, and this is answered.
fn is_left(
    alloc: Global,
    told: &Report,
    call: u32,
    want: Result<(), PutAll>,
    bytes: &[u8],
) -> bool {
    let mut sink = MemSink::new(alloc, 7, Some(call));
    write_report(&mut sink, told) == want && sink.bytes() == bytes
}

#[test]
fn a_fault_leaves_a_prefix(rt: HostRuntime) -> Result<(), Fail> {
    let told = whole(rt.alloc())?;
    let all = WHOLE.as_bytes();
    for taken in 0..all.len().div_ceil(7) {
        let failed = Err(PutAll::Failed);
        let call = taken as u32 + 1;
        assert!(rt;
            is_left(rt.alloc(), &told, call, failed, &all[..7 * taken]),
            "{call}"
        );
    }
    Ok(())
}

#[test]
fn a_fault_behind_a_report_is_none(rt: HostRuntime) -> Result<(), Fail> {
    let told = whole(rt.alloc())?;
    let all = WHOLE.as_bytes();
    let call = all.len().div_ceil(7) as u32 + 1;
    assert!(rt; is_left(rt.alloc(), &told, call, Ok(()), all));
    Ok(())
}

// A sink that counts: it takes whole pieces, up to a number of them, and then nothing.
#[derive(Drop)]
struct Pieces {
    left: usize,
    bytes: usize,
    last: usize,
    zeros: u64,
}

impl Sink for Pieces {
    ghost taken = { λ _. None };

    ghost faults = { λ _. 0 };

    ghost zeros = { λ it. it.zeros };

    fn write(&mut self, piece: &[u8]) -> Result<usize, Failed> {
        if self.left == 0 {
            if !piece.is_empty() {
                self.zeros = self.zeros.saturating_add(1);
            }
            return Ok(0);
        }
        self.left -= 1;
        self.last = piece.len();
        self.bytes = self.bytes.saturating_add(piece.len());
        Ok(piece.len())
    }
}

// Whether a sink that takes so many pieces of a report is handed this, and this is answered.
fn is_handed(
    told: &Report,
    left: usize,
    want: Result<(), PutAll>,
    bytes: usize,
    last: usize,
) -> bool {
    let mut sink = Pieces {
        left,
        bytes: 0,
        last: 0,
        zeros: 0,
    };
    let answer = write_report(&mut sink, told);
    let is_counted = (sink.zeros > 0) == want.is_err();
    answer == want && is_counted && sink.bytes == bytes && sink.last == last
}

// A report of 40,045 bytes.
fn long_report(alloc: Global) -> Result<Report, AllocError> {
    let text = [b'x'; 20_000];
    let mut rows = OutRows::new(alloc);
    rows.push(row(alloc, 1, &text)?)?;
    rows.push(row(alloc, 2, &text)?)?;
    report_on(alloc, Reply::Rows { at: 0, rows })
}

// How many pieces of it a sink takes; the answer, and the bytes in all and of the last piece.
const PIECES: [(usize, Result<(), PutAll>, usize, usize); 4] = [
    (9, Ok(()), 40_045, 7_277),
    (3, Ok(()), 40_045, 7_277),
    (2, Err(PutAll::Zero), 32_768, 16_384),
    (0, Err(PutAll::Zero), 0, 0),
];

#[test]
fn a_long_report_is_told_in_pieces(rt: HostRuntime) -> Result<(), Fail> {
    let told = long_report(rt.alloc())?;
    for (left, want, bytes, last) in PIECES {
        assert!(rt; is_handed(&told, left, want, bytes, last), "{left}");
    }
    Ok(())
}

#[test]
fn a_long_report_has_all_its_bytes(rt: HostRuntime) -> Result<(), Fail> {
    let told = long_report(rt.alloc())?;
    assert!(rt; bytes_of(rt.alloc(), &told).len() == 40_045);
    Ok(())
}
