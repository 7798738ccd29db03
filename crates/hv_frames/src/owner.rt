// Whoever took the frames' memory, and gives it back.
ghost use Rattle.std.specs.Prelude.{◌≡◌, ◌≤◌, IfOk};
ghost use Rattle.hv_frames.specs.Frames.{fresh_frames, AreAll};

use crate::frame::Frame;
use std::alloc::{AllocError, Global};
use std::boxed::Box;
use std::marker::Model;

/// What tells one owner's frames from another's, and how many there are.
/// It has no `Drop`: it ends with all of its frames, by [`Owner::end`].
#[must_use]
pub struct Owner {
    mark: Box<u8, Global>,
    count: u32,
}

impl Model for Owner {
    ghost use Rattle.hv_frames.specs.Frames.{Owned, owned_code};

    ghost Value = { Owned };

    ghost coded = { owned_code };

    ghost view = { λ o. record { name = o.mark.ptr; count = o.count } };
}

/// Takes the memory of `n` frames, which are numbered from 0 in order and have zero bytes.
/// It fails where memory is wanting, and then keeps none.
pub fn make(alloc: Global, n: u32) -> Result<(Owner, Vec<Frame>), AllocError>
    requires { 1 ≤ n }
    ensures count { IfOk result (λ made. made.0.count ≡ n) }
    ensures frames { IfOk result (λ made. made.1.items ≡ fresh_frames made.0.name n) }
{
    let mark = Box::new(alloc, 0)?;
    let frames = take_frames(alloc, &mark, n)?;
    Ok((Owner { mark, count: n }, frames))
}

// The first `count` frames of the owner that holds `mark`.
fn take_frames(alloc: Global, mark: &Box<u8, Global>, count: u32) -> Result<Vec<Frame>, AllocError>
    ensures { IfOk result (λ frames. frames.items ≡ fresh_frames mark.now.ptr count) }
{
    let mut frames = Vec::with_capacity(alloc, count as usize)?;
    for number in 0..count {
        match Frame::fresh(alloc, mark, number) {
            Ok(frame) => frames.push_reserved(frame),
            Err(error) => {
                end_frames(frames);
                return Err(error);
            }
        }
    }
    Ok(frames)
}

// Gives the memory of each back.
fn end_frames(mut frames: Vec<Frame>) {
    while let Some(frame) = frames.pop() {
        frame.end();
    }
    frames.destroy_empty();
}

impl Owner {
    /// Gives the memory of all frames back.
    pub fn end(self, frames: Vec<Frame>)
        requires { AreAll self frames.items }
    {
        end_frames(frames);
        let Owner { mark, count: _ } = self;
        drop(mark);
    }
}
