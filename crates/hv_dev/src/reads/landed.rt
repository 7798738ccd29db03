// What is noted of a read that landed.
ghost use Rattle.std.specs.Prelude.{◌≡◌};

use hv_frames::Frame;
use std::marker::Model;
use std::snapshot::Snapshot;

/// What is noted of a read that landed: clauses alone see the file and the bytes.
#[derive(Drop)]
pub struct Landed<F> {
    tag: u64,
    file: Snapshot<F>,
    page: u32,
    frame: Snapshot<Frame>,
}

impl<F> Model for Landed<F> {
    ghost use Rattle.hv_dev.specs.Reading.{Landing};
    ghost use Rattle.hv_dev.specs.Reads.{landing_code};

    ghost Value = { Landing F };

    ghost coded = { landing_code F.code };

    ghost view = { λ l. record { tag = l.tag; file = l.file.value; page = l.page; bytes = l.frame.value.bytes } };
}

impl<F> Landed<F> {
    pub fn new(tag: u64, file: &F, page: u32, frame: &Frame) -> Landed<F>
        ensures { result ≡ record { tag = tag; file = file.now; page = page; bytes = frame.now.bytes } }
    {
        Landed {
            tag,
            file: Snapshot::of(file),
            page,
            frame: Snapshot::of(frame),
        }
    }
}
