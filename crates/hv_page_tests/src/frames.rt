// Frames as a caller sees them; the numbers and bytes that are wanted are written out.
ghost use Rattle.std.specs.Prelude.{◌≡◌, ◌<◌, length, slice_set};
ghost use Rattle.hv_frames.specs.Frames.{with_bytes};

use hv_frames::{Frame, make};
use std::test::Fail;

// A caller's write, as its contract says it.
fn put(frame: &mut Frame, at: usize, byte: u8)
    requires { at < 4096 }
    ensures { frame.new ≡ with_bytes frame.old (slice_set frame.old.bytes at byte) }
{
    frame.bytes_mut()[at] = byte;
}

// A caller's write of all bytes.
fn fill(frame: &mut Frame, bytes: &[u8])
    requires { length bytes.now ≡ 4096 }
    ensures { frame.new ≡ with_bytes frame.old bytes.now }
{
    frame.bytes_mut().copy_from_slice(bytes);
}

// Anything that may go to another thread.
fn sent<T: Send>(value: T) -> T
    ensures { result ≡ value }
{
    value
}

fn is_full_of(frame: &Frame, byte: u8) -> bool {
    frame.bytes() == [byte; 4096].as_slice()
}

#[test]
fn makes_one_frame(rt: HostRuntime) -> Result<(), Fail> {
    let (owner, frames) = make(rt.alloc(), 1)?;
    assert!(rt; are_written(frames.as_slice(), 1));
    owner.end(frames);
    Ok(())
}

#[test]
fn goes_to_another_thread(rt: HostRuntime) -> Result<(), Fail> {
    let (owner, frames) = make(rt.alloc(), 2)?;
    sent(owner).end(sent(frames));
    Ok(())
}

// The bytes of frame 2 once its last byte is 7, and of any other one.
fn wanted(number: usize) -> [u8; 4096] {
    let mut bytes = [0; 4096];
    if number == 2 {
        bytes[4095] = 7;
    }
    bytes
}

// Whether there are so many frames, each with its number and the bytes that are wanted.
fn are_written(frames: &[Frame], count: usize) -> bool {
    for (number, frame) in frames.iter().enumerate() {
        if frame.number() as usize != number || frame.bytes() != wanted(number).as_slice() {
            return false;
        }
    }
    frames.len() == count
}

#[test]
fn writes_to_one_of_five(rt: HostRuntime) -> Result<(), Fail> {
    let (owner, mut frames) = make(rt.alloc(), 5)?;
    put(&mut frames[2], 4095, 7);
    assert!(rt; are_written(frames.as_slice(), 5));
    fill(&mut frames[4], &[9; 4096]);
    assert!(rt; is_full_of(&frames[4], 9) && is_full_of(&frames[3], 0));
    frames.reverse();
    frames.swap(1, 2);
    owner.end(frames);
    Ok(())
}
