// The memory of one page.
ghost use Rattle.std.specs.Prelude.{◌≡◌, length, IfOk};
ghost use Rattle.std.specs.Borrow.{sem};
ghost use Rattle.hv_frames.specs.Frames.{fresh_frame};
ghost use Rattle.hv_frames.specs.Lending.{LendsBytes};

use std::alloc::{AllocError, Global};
use std::boxed::Box;
use std::marker::Model;
use std::snapshot::Snapshot;

/// How many bytes a frame has.
pub const FRAME_BYTES: usize = 4096;

/// The memory of one page, with its number among its owner's frames.
/// It has no `Drop`: it goes back with all others of its owner, to [`Owner::end`](crate::Owner::end).
#[must_use]
pub struct Frame {
    owner: Snapshot<Box<u8, Global>>,
    number: u32,
    page: Box<[u8; FRAME_BYTES], Global>,
}

impl Model for Frame {
    ghost use Rattle.hv_frames.specs.Frames.{Framed, framed_code};

    ghost Value = { Framed };

    ghost coded = { framed_code };

    ghost view = { λ f. record { owner = f.owner.value.ptr; number = f.number; bytes = f.page.value } };
}

impl Frame {
    // A frame of the owner that holds `mark`, with zero bytes.
    pub(crate) fn fresh(
        alloc: Global,
        mark: &Box<u8, Global>,
        number: u32,
    ) -> Result<Frame, AllocError>
        ensures { IfOk result (λ frame. frame ≡ fresh_frame mark.now.ptr number) }
    {
        let page = Box::new(alloc, [0; FRAME_BYTES])?;
        Ok(Frame {
            owner: Snapshot::of(mark),
            number,
            page,
        })
    }

    /// Its number among its owner's frames, counted from 0.
    pub fn number(&self) -> u32
        ensures { result ≡ self.now.number }
    {
        self.number
    }

    /// Its [`FRAME_BYTES`] bytes.
    pub fn bytes(&self) -> &[u8]
        ensures same { result.now ≡ self.now.bytes }
        ensures length { length result.now ≡ 4096 }
    {
        whole(&self.page)
    }

    /// Its [`FRAME_BYTES`] bytes, to write to.
    pub fn bytes_mut(&mut self) -> &mut [u8]
        ensures* writes_back { sem 𝓛 (LendsBytes self.entry result) }
        ensures same { result.now ≡ self.old.bytes }
        ensures length { length result.now ≡ 4096 }
    {
        // `as_mut_slice` does not say how many bytes there are, and `bytes` does.
        prove_eq!(self.bytes().len(), FRAME_BYTES);
        self.page.as_mut_slice()
    }

    /// Gives its memory back alone, where what holds it is dropped.
    /// Its owner then lacks it for ever, and can no longer end: [`Owner::end`](crate::Owner::end) takes all frames.
    pub fn lose(self) {
        self.end();
    }

    // Gives its memory back.
    pub(crate) fn end(self) {
        let Frame {
            owner,
            number: _,
            page,
        } = self;
        drop(owner);
        drop(page);
    }
}

// The bytes of a page.
fn whole(page: &[u8; FRAME_BYTES]) -> &[u8]
    ensures same { result.now ≡ page.now }
    ensures length { length result.now ≡ 4096 }
{
    &page[..]
}
