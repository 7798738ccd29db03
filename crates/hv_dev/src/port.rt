// Where pages are read.
ghost use Rattle.std.specs.Prelude.{◌≡◌, ℕ, [], ◌<◌, List, length, true, false};
ghost use Rattle.std.specs.Arc.{arc_value};
ghost use Rattle.hv_dev.specs.Reading.{IsFree, Reaps, submitted};

use crate::{PageFile, PageSink};
use hv_frames::Frame;
use std::alloc::Global;
use std::sync::Arc;

/// A read that came back: what it was called, its frame, and whether it landed.
pub struct Reaped {
    pub tag: u64,
    pub frame: Frame,
    pub landed: bool,
}

/// Where pages are read, by reads that are submitted and come back in any order.
pub trait Port: PageSink {
    /// Begins to read a page into a frame. Takes no memory.
    fn submit(&mut self, file: Arc<Self::File, Global>, number: u32, frame: Frame, tag: u64)
        requires room { length (Self.reading self.old).in_flight < (Self.reading self.old).room }
        requires free { IsFree tag (Self.reading self.old).in_flight }
        requires page { Self.File.tells ≡ true → number < length (Self.File.pages (arc_value file)) }
        ensures under_way { Self.reading self.new ≡ submitted (Self.reading self.old) (record { tag = tag; file = arc_value file; page = number; owner = frame.owner; frame = frame.number }) }
        ensures faults { Self.write_faults self.new ≡ Self.write_faults self.old }
        ensures kept { Self.written self.new ≡ Self.written self.old };

    /// Waits for one of the reads under way, any one, and gives back its frame.
    fn reap(&mut self) -> Reaped
        requires { 0 < length (Self.reading self.old).in_flight }
        ensures back { Reaps Self.File.tells Self.File.pages (Self.reading self.old) (Self.reading self.new) result.tag result.frame result.landed }
        ensures faults { Self.write_faults self.new ≡ Self.write_faults self.old }
        ensures kept { Self.written self.new ≡ Self.written self.old };

    /// How many reads were submitted, up to `MAX_COUNT`. Takes no memory.
    fn count_submits(&self) -> u64
        ensures { result ≡ (Self.reading self.now).submits };

    /// The most reads that were under way at one time. Takes no memory.
    fn count_most(&self) -> u32
        ensures { result ≡ (Self.reading self.now).most };
}
