// A port, and the one frame that its reads fill.
ghost use Rattle.std.specs.Prelude.{◌≡◌, [], ◌<◌, length, vec_capacity, true};
ghost use Rattle.std.specs.Arc.{arc_value};
ghost use Rattle.hv_world.specs.Reads.{HasFrame, HasRead, first_bytes};

use hv_dev::{Port, Reaped};
use hv_frames::{Frame, Owner};
use std::alloc::Global;
use std::sync::Arc;

/// A port, and the one frame that its reads fill. It isn't dropped: `close` gives the port and lets the frame end.
#[must_use]
pub struct PageAccess<P> {
    pub port: P,
    owner: Owner,
    frames: Vec<Frame>,
    ghost has_frame: { HasFrame owner frames.items (vec_capacity frames) },
}

impl<P: Port> PageAccess<P> {
    /// The port with that frame, which is the only one of its owner.
    pub fn new(port: P, owner: Owner, frames: Vec<Frame>) -> PageAccess<P>
        requires { HasFrame owner frames.items (vec_capacity frames) }
        ensures { result.port ≡ port }
    {
        PageAccess {
            port,
            owner,
            frames,
        }
    }

    /// Reads a page of a file into the frame, alone; `false` exactly where the read failed. Takes no memory.
    pub fn read(&mut self, file: Arc<P::File, Global>, page: u32) -> bool
        requires room { 0 < (P.reading self.old.port).room }
        requires idle { (P.reading self.old.port).in_flight ≡ [] }
        requires page { P.File.tells ≡ true → page < length (P.File.pages (arc_value file)) }
        ensures read { HasRead P.File.tells P.File.pages (arc_value file) page (P.reading self.old.port) (P.reading self.new.port) (first_bytes self.new.frames.items) result }
        ensures faults { P.write_faults self.new.port ≡ P.write_faults self.old.port }
        ensures kept { P.written self.new.port ≡ P.written self.old.port }
    {
        let frame = self.frames.pop().unwrap();
        self.port.submit(file, page, frame, 0);
        let Reaped {
            tag: _,
            frame,
            landed,
        } = self.port.reap();
        self.frames.push_reserved(frame);
        landed
    }

    /// The bytes of the frame.
    pub fn bytes(&self) -> &[u8]
        ensures same { result.now ≡ first_bytes self.now.frames.items }
        ensures length { length result.now ≡ 4096 }
    {
        self.frames[0].bytes()
    }

    /// The port; the frame's memory is given back.
    pub fn close(self) -> P
        ensures { result ≡ self.port }
    {
        let PageAccess {
            port,
            owner,
            frames,
        } = self;
        owner.end(frames);
        port
    }
}
