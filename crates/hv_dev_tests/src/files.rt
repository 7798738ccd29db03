// A device over files as a caller sees it. Each test writes in a folder of its own, below the one in which it runs.
ghost use Rattle.std.specs.Prelude.{◌≡◌, [], Some};

use crate::reads::{file_of, read_run};
use hv_dev::{Device, FileDevice, Order, PageSink, PutFault};
use std::alloc::Global;
use std::fs;
use std::process::Abort;
use std::sync::Arc;

type HostPort = <FileDevice<HostRuntime> as Device>::Port;

type HostFile = Arc<<HostPort as PageSink>::File, Global>;

// A port with room for one read, with none under way and no page written since the last seal.
#[derive(Drop)]
struct Ready {
    rt: HostRuntime,
    port: HostPort,
    ghost room: { (⟦<HostPort as PageSink>⟧.reading port).room ≡ 1 },
    ghost none: { (⟦<HostPort as PageSink>⟧.reading port).in_flight ≡ [] },
    ghost open: { ⟦<HostPort as PageSink>⟧.written port ≡ Some [] },
}

// A device over a folder.
pub fn device_in(abort: &impl Abort, rt: HostRuntime, folder: &[u8]) -> FileDevice<HostRuntime> {
    let folder = folder
        .to_vec(rt.alloc())
        .expect(abort, "room for a folder's name");
    FileDevice::new(rt.alloc(), rt, folder).expect(abort, "a device")
}

// The next port of a device.
fn next_port(abort: &impl Abort, rt: HostRuntime, device: &mut FileDevice<HostRuntime>) -> Ready {
    let port = device
        .port(rt.alloc(), Order::Fifo, 1)
        .expect(abort, "a port");
    Ready { rt, port }
}

// The first port of a device over a folder.
fn port_in(abort: &impl Abort, rt: HostRuntime, folder: &str) -> Ready {
    next_port(abort, rt, &mut device_in(abort, rt, folder.as_bytes()))
}

fn is_there(abort: &impl Abort, rt: HostRuntime, path: &str) -> bool {
    fs::exists(&rt, path).expect(abort, "a look for a file")
}

fn write(abort: &impl Abort, rt: HostRuntime, path: &str, bytes: &[u8]) {
    fs::write(&rt, path, bytes).expect(abort, "a file");
}

pub fn remove_file(abort: &impl Abort, rt: HostRuntime, path: &str) {
    fs::remove_file(&rt, path).expect(abort, "a file's end");
}

// Removes a folder with its files.
fn remove(abort: &impl Abort, rt: HostRuntime, folder: &str) {
    fs::remove_dir_all(&rt, folder).expect(abort, "a folder's end");
}

// Anything that may go to another thread.
fn sent<T: Send>(value: T) -> T
    ensures { result ≡ value }
{
    value
}

impl Ready {
    // A file that has a page of each of these bytes.
    fn file_of(&mut self, rt: &impl Abort, fills: &[u8]) -> HostFile {
        file_of(rt, self.rt.alloc(), &mut self.port, fills)
    }

    // The bytes that a read of a page brings, where it lands.
    fn page(&mut self, rt: &impl Abort, file: &HostFile, number: u32) -> Option<[u8; 4096]> {
        let seen = read_run(rt, self.rt.alloc(), &mut self.port, file, number, 1);
        match seen.first() {
            Some(read) if read.landed => Some(read.bytes),
            _ => None,
        }
    }

    // Whether each page is full of the byte beside its number, or its read doesn't land where there is none.
    fn reads(&mut self, rt: &impl Abort, file: &HostFile, want: &[(u32, Option<u8>)]) -> bool {
        for (number, byte) in want {
            if self.page(rt, file, *number) != byte.map(|b| [b; 4096]) {
                return false;
            }
        }
        true
    }

    // Writes a page, and says whether there is such a file while it is open; then gives it up.
    fn begins_and_abandons(&mut self, rt: &impl Abort, path: &str) -> bool {
        let written = self.port.write(self.rt.alloc(), &[6; 4096]).is_ok();
        let begun = is_there(rt, self.rt, path);
        self.port.abandon();
        begun && written
    }

    // Whether a write fails, and then a seal.
    fn fails(&mut self) -> bool {
        let written = self.port.write(self.rt.alloc(), &[1; 4096]) == Err(PutFault::Failed);
        self.port.abandon();
        let sealed = self.port.seal(self.rt.alloc()).err() == Some(PutFault::Failed);
        self.port.abandon();
        written && sealed
    }
}

#[test]
fn brings_each_page(rt: HostRuntime) {
    let folder = "hv_dev_pages_test";
    let mut port = port_in(&rt, rt, folder);
    let file = port.file_of(&rt, &[1, 8, 9]);
    assert!(rt; port.reads(&rt, &file, &[(2, Some(9)), (0, Some(1)), (1, Some(8))]));
    remove(&rt, rt, folder);
}

#[test]
fn a_page_that_a_file_lacks_is_a_fault(rt: HostRuntime) {
    let folder = "hv_dev_lacking_test";
    let mut port = port_in(&rt, rt, folder);
    let file = port.file_of(&rt, &[1]);
    assert!(rt; port.reads(&rt, &file, &[(1, None), (u32::MAX, None)]));
    remove(&rt, rt, folder);
}

#[test]
fn an_empty_file_is_one_of_its_own(rt: HostRuntime) {
    let folder = "hv_dev_empty_test";
    let mut port = port_in(&rt, rt, folder);
    let file = port.file_of(&rt, &[1]);
    let empty = port.file_of(&rt, &[]);
    assert!(rt; port.reads(&rt, &empty, &[(0, None)]));
    assert!(rt; port.reads(&rt, &file, &[(0, Some(1))]));
    remove(&rt, rt, folder);
}

#[test]
fn writes_over_what_an_earlier_run_left(rt: HostRuntime) {
    let folder = "hv_dev_over_test";
    let _ = port_in(&rt, rt, folder).file_of(&rt, &[1, 2]);
    let mut port = port_in(&rt, rt, folder);
    let file = port.file_of(&rt, &[4]);
    assert!(rt; port.reads(&rt, &file, &[(0, Some(4)), (1, None)]));
    remove(&rt, rt, folder);
}

#[test]
fn ports_have_files_of_their_own(rt: HostRuntime) {
    let folder = "hv_dev_ports_test";
    let mut device = device_in(&rt, rt, folder.as_bytes());
    let mut first = next_port(&rt, rt, &mut device);
    let file = first.file_of(&rt, &[1]);
    let _ = next_port(&rt, rt, &mut device).file_of(&rt, &[2]);
    assert!(rt; first.reads(&rt, &file, &[(0, Some(1))]));
    assert!(rt; is_there(&rt, rt, "hv_dev_ports_test/1-0.pages"));
    remove(&rt, rt, folder);
}

#[test]
fn a_changed_bit_is_brought(rt: HostRuntime) {
    let folder = "hv_dev_changed_test";
    let mut port = port_in(&rt, rt, folder);
    let file = port.file_of(&rt, &[7]);
    let mut changed = [7; 4096];
    changed[4000] = 5;
    write(&rt, rt, "hv_dev_changed_test/0-0.pages", &changed);
    assert!(rt; port.page(&rt, &file, 0) == Some(changed));
    remove(&rt, rt, folder);
}

#[test]
fn a_file_cut_short_is_a_fault(rt: HostRuntime) {
    let folder = "hv_dev_cut_test";
    let mut port = port_in(&rt, rt, folder);
    let file = port.file_of(&rt, &[7]);
    write(&rt, rt, "hv_dev_cut_test/0-0.pages", &[7; 4095]);
    assert!(rt; port.reads(&rt, &file, &[(0, None)]));
    remove(&rt, rt, folder);
}

#[test]
fn a_file_taken_away_is_a_fault(rt: HostRuntime) {
    let folder = "hv_dev_taken_test";
    let mut port = port_in(&rt, rt, folder);
    let file = port.file_of(&rt, &[7]);
    remove_file(&rt, rt, "hv_dev_taken_test/0-0.pages");
    assert!(rt; port.reads(&rt, &file, &[(0, None)]));
    remove(&rt, rt, folder);
}

// Below a file, without a name, in no text and with a byte that no path has.
const NO_FOLDERS: [&[u8]; 4] = [b"hv_dev_plain_test/pages", b"", b"\xff", b"\0"];

// Whether a port over a folder fails; the port comes back to its device, after faults too.
fn fails_in(abort: &impl Abort, rt: HostRuntime, folder: &[u8]) -> bool {
    let mut device = device_in(abort, rt, folder);
    let mut ready = next_port(abort, rt, &mut device);
    let failed = ready.fails();
    device.back(ready.port);
    failed
}

#[test]
fn a_folder_that_cannot_be_made_is_a_fault(rt: HostRuntime) {
    write(&rt, rt, "hv_dev_plain_test", b"");
    for folder in NO_FOLDERS {
        assert!(rt; fails_in(&rt, rt, folder));
    }
    remove_file(&rt, rt, "hv_dev_plain_test");
}

#[test]
fn an_abandoned_file_is_gone(rt: HostRuntime) {
    let (folder, path) = ("hv_dev_abandoned_test", "hv_dev_abandoned_test/0-0.pages");
    let mut port = port_in(&rt, rt, folder);
    assert!(rt; port.begins_and_abandons(&rt, path));
    assert!(rt; !is_there(&rt, rt, path));
    remove(&rt, rt, folder);
}

// The next file has another name, also where the one before was abandoned. The port and its file may go to other threads.
#[test]
fn goes_on_after_a_fault(rt: HostRuntime) {
    let folder = "hv_dev_fault_test";
    write(&rt, rt, folder, b"");
    let mut port = sent(port_in(&rt, rt, folder));
    assert!(rt; port.fails());
    remove_file(&rt, rt, folder);
    assert!(rt; port.begins_and_abandons(&rt, "hv_dev_fault_test/0-0.pages"));
    let file = sent(port.file_of(&rt, &[7]));
    assert!(rt; port.reads(&rt, &file, &[(0, Some(7))]));
    assert!(rt; is_there(&rt, rt, "hv_dev_fault_test/0-1.pages"));
    remove(&rt, rt, folder);
}
