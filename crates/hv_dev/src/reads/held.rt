// A read under way.
ghost use Rattle.std.specs.Prelude.{◌≡◌};
ghost use Rattle.std.specs.Arc.{arc_value};

use hv_frames::Frame;
use std::alloc::Global;
use std::marker::Model;
use std::sync::Arc;

/// A read under way, with the frame that it fills.
pub struct Held<F> {
    tag: u64,
    file: Arc<F, Global>,
    page: u32,
    frame: Frame,
}

impl<F> Model for Held<F> {
    ghost use Rattle.std.specs.Arc.{arc_value};
    ghost use Rattle.hv_dev.specs.Reading.{Flight};
    ghost use Rattle.hv_dev.specs.Reads.{flight_code};

    ghost Value = { Flight F };

    ghost coded = { flight_code F.code };

    ghost view = { λ h. record { tag = h.tag; file = arc_value h.file; page = h.page; owner = h.frame.owner; frame = h.frame.number } };
}

// A read that is dropped on its way loses its frame.
impl<F: Drop> Drop for Held<F> {
    fn drop(self) {
        let Held {
            tag: _,
            file,
            page: _,
            frame,
        } = self;
        drop(file);
        frame.lose();
    }
}

impl<F> Held<F> {
    pub fn new(file: Arc<F, Global>, page: u32, frame: Frame, tag: u64) -> Held<F>
        ensures { result ≡ record { tag = tag; file = arc_value file; page = page; owner = frame.owner; frame = frame.number } }
    {
        Held {
            tag,
            file,
            page,
            frame,
        }
    }

    /// What it was called, the file, the page's number and the frame.
    pub fn take_apart(self) -> (u64, Arc<F, Global>, u32, Frame)
        ensures tag { result.0 ≡ self.tag }
        ensures file { arc_value result.1 ≡ self.file }
        ensures page { result.2 ≡ self.page }
        ensures owner { result.3.owner ≡ self.owner }
        ensures number { result.3.number ≡ self.frame }
    {
        let Held {
            tag,
            file,
            page,
            frame,
        } = self;
        (tag, file, page, frame)
    }
}
