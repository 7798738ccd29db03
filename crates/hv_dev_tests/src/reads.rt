// Files of pages and the reads of them, on a port of any kind.
ghost use Rattle.std.specs.Prelude.{◌≡◌, ◌+◌, ◌≤◌, ◌<◌, [], length, true, Some};
ghost use Rattle.std.specs.Arc.{arc_value};

use hv_dev::{PageSink, Port, Reaped};
use hv_frames::make;
use std::alloc::Global;
use std::process::Abort;
use std::sync::Arc;

// A read that came back, with the bytes in its frame.
#[derive(Drop)]
pub struct Seen {
    pub tag: u64,
    pub landed: bool,
    pub bytes: [u8; 4096],
}

// A file that has a page of each of these bytes.
pub fn file_of<P: PageSink>(
    rt: &impl Abort,
    alloc: Global,
    port: &mut P,
    fills: &[u8],
) -> Arc<P::File, Global>
    requires { P.written port.old ≡ Some [] }
    ensures pages { P.File.tells ≡ true → length (P.File.pages (arc_value result)) ≡ length fills.now }
    ensures next { P.written port.new ≡ Some [] }
    ensures kept { P.reading port.new ≡ P.reading port.old }
{
    for fill in fills {
        port.write(alloc, &[*fill; 4096]).expect(rt, "a write");
    }
    port.seal(alloc).expect(rt, "a seal")
}

// Reads so many pages at once, from one on, and tells how they came back, in the order in which they did.
// A read's tag is its place among those given.
pub fn read_run<P: Port>(
    rt: &impl Abort,
    alloc: Global,
    port: &mut P,
    file: &Arc<P::File, Global>,
    first: u32,
    count: u32,
) -> Vec<Seen>
    requires some { 1 ≤ count }
    requires numbers { first + count ≤ 4294967296 }
    requires pages { P.File.tells ≡ true → first + count ≤ length (P.File.pages (arc_value file.now)) }
    requires room { count ≤ (P.reading port.old).room }
    requires none { (P.reading port.old).in_flight ≡ [] }
    ensures room { (P.reading port.new).room ≡ (P.reading port.old).room }
    ensures none { (P.reading port.new).in_flight ≡ [] }
    ensures kept { P.written port.new ≡ P.written port.old }
{
    let mut seen = Vec::with_capacity(alloc, count as usize).expect(
        rt,
        "room for all that is seen",
    );
    let mut back = Vec::with_capacity(alloc, count as usize).expect(rt, "room for the frames");
    let (owner, mut frames) = make(alloc, count).expect(rt, "frames");
    'submits: for at in 0..count {
        let file = Arc::try_clone(file).expect(rt, "one owner more");
        let frame = frames.pop().unwrap();
        port.submit(file, first + at, frame, u64::from(at));
    }
    frames.destroy_empty();
    'reaps: for _ in 0..count {
        let Reaped { tag, frame, landed } = port.reap();
        let bytes = <[u8; 4096]>::try_from(frame.bytes()).expect(rt, "a page");
        seen.push_reserved(Seen { tag, landed, bytes });
        back.push_reserved(frame);
    }
    owner.end(back);
    seen
}
