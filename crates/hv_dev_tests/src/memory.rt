// Devices in memory as a caller sees them; what is wanted of each is written out.
ghost use Rattle.std.specs.Prelude.{◌≡◌, [], Some};
ghost use Rattle.hv_dev.specs.Reading.{unread};

use crate::reads::{Seen, file_of, read_run};
use hv_dev::{
    CleanDevice, Device, Fail, FailKind, MemDevice, Order, PageSink, Port, PutFault, Rotten,
};
use std::alloc::{AllocError, Global};
use std::process::Abort;

type CleanPort = <CleanDevice as Device>::Port;

// The port of that number of a device that was just made, with room for eight reads.
fn nth_port<D: Device>(
    rt: &impl Abort,
    alloc: Global,
    device: &mut D,
    order: Order,
    number: u32,
) -> D::Port
    ensures fresh { D.Port.reading result ≡ unread D.Port.File 8 }
    ensures open { D.Port.written result ≡ Some [] }
{
    for _ in 0..number {
        let _ = device.port(alloc, order, 8).expect(rt, "a port");
    }
    device.port(alloc, order, 8).expect(rt, "a port")
}

// A device whose port 0 fails at one call.
pub fn failing(rt: &impl Abort, alloc: Global, kind: FailKind, nth: u32) -> MemDevice {
    let mut fails = Vec::new(alloc);
    let fail = Fail { port: 0, kind, nth };
    fails.push(fail).expect(rt, "room for a call that fails");
    MemDevice::new(fails)
}

// What a port that never fails has counted, whatever it did.
fn counts_nothing(port: &CleanPort)
    ensures writes { ⟦<CleanPort as PageSink>⟧.write_faults port.now ≡ 0 }
    ensures reads { (⟦<CleanPort as PageSink>⟧.reading port.now).read_faults ≡ 0 }
{
    let _ = port;
}

// What its device has counted of the ports that came back.
fn counts_none_back(device: &CleanDevice)
    ensures { (⟦<CleanDevice as Device>⟧.returned device.now).faults ≡ 0 }
{
    let _ = device;
}

// Whether a read is that one of a file's reads, and its page is full of a byte.
fn is_of(seen: &Seen, tag: u64, byte: u8) -> bool {
    seen.landed && seen.tag == tag && seen.bytes.as_slice() == [byte; 4096].as_slice()
}

// Whether these are the pages of a file, page n full of n + 1, in that order.
fn are_in_order(seen: &[Seen], want: &[u8]) -> bool {
    for (read, byte) in seen.iter().zip(want.iter()) {
        if !is_of(read, u64::from(*byte).wrapping_sub(1), *byte) {
            return false;
        }
    }
    seen.len() == want.len()
}

// The orders of the seeds were worked out by hand from PCG32's definition, apart from this code: `seed_from_u64` of the seed and
// the port's number, and each word modulo how many reads are left.
const ORDERS: [(Order, u32, [u8; 5]); 8] = [
    (Order::Fifo, 0, [1, 2, 3, 4, 5]),
    (Order::Lifo, 0, [5, 4, 3, 2, 1]),
    (Order::Seed(0), 0, [3, 5, 4, 1, 2]),
    (Order::Seed(7), 0, [3, 4, 2, 1, 5]),
    (Order::Seed(7), 1, [1, 5, 2, 4, 3]),
    (Order::Seed(7), 2, [5, 4, 1, 3, 2]),
    (Order::Seed(8), 0, [1, 5, 2, 4, 3]),
    (Order::Seed(u64::MAX), 1, [3, 5, 4, 1, 2]),
];

// Five reads of a clean device's port.
fn five_reads(rt: &impl Abort, alloc: Global, order: Order, number: u32) -> Vec<Seen> {
    let mut port = nth_port(rt, alloc, &mut CleanDevice::new(), order, number);
    let file = file_of(rt, alloc, &mut port, &[1, 2, 3, 4, 5]);
    let seen = read_run(rt, alloc, &mut port, &file, 0, 5);
    counts_nothing(&port);
    seen
}

#[test]
fn lands_in_order(rt: HostRuntime) {
    for (order, number, want) in ORDERS {
        let seen = five_reads(&rt, rt.alloc(), order, number);
        assert!(rt;
            are_in_order(seen.as_slice(), &want),
            "{order:?}, port {number}"
        );
    }
}

#[test]
fn reads_page_by_page(rt: HostRuntime) {
    let alloc = rt.alloc();
    let mut port = nth_port(&rt, alloc, &mut CleanDevice::new(), Order::Fifo, 0);
    let file = file_of(&rt, alloc, &mut port, &[7, 8, 9]);
    let first = read_run(&rt, alloc, &mut port, &file, 0, 1);
    let second = read_run(&rt, alloc, &mut port, &file, 1, 1);
    let third = read_run(&rt, alloc, &mut port, &file, 2, 1);
    assert!(rt; are_all(first.as_slice(), 1, 7));
    assert!(rt; are_all(second.as_slice(), 1, 8));
    assert!(rt; are_all(third.as_slice(), 1, 9));
}

// Whether so many reads landed, in the order of their submits, and all their pages are full of a byte.
fn are_all(seen: &[Seen], count: usize, byte: u8) -> bool {
    for (tag, read) in seen.iter().enumerate() {
        if !is_of(read, tag as u64, byte) {
            return false;
        }
    }
    seen.len() == count
}

#[test]
fn abandons_all_pages(rt: HostRuntime) {
    let alloc = rt.alloc();
    let mut port = nth_port(&rt, alloc, &mut CleanDevice::new(), Order::Fifo, 0);
    port.write(alloc, &[7; 4096]).expect(&rt, "a write");
    port.abandon();
    let file = file_of(&rt, alloc, &mut port, &[8]);
    let seen = read_run(&rt, alloc, &mut port, &file, 0, 1);
    assert!(rt; are_all(seen.as_slice(), 1, 8));
}

// A device that doesn't tell may be asked for a page that the file lacks.
#[test]
fn brings_zeros_for_a_page_that_a_file_lacks(rt: HostRuntime) {
    let alloc = rt.alloc();
    let mut port = nth_port(&rt, alloc, &mut Rotten::new(1, 1, 0), Order::Fifo, 0);
    let _ = port.write(alloc, &[7; 4096]);
    port.abandon();
    let file = file_of(&rt, alloc, &mut port, &[8]);
    let seen = read_run(&rt, alloc, &mut port, &file, 1, 2);
    assert!(rt; are_all(seen.as_slice(), 2, 0));
}

#[test]
fn counts_submits_and_the_most(rt: HostRuntime) {
    let alloc = rt.alloc();
    let mut port = nth_port(&rt, alloc, &mut CleanDevice::new(), Order::Lifo, 0);
    assert!(rt; port.count_submits() == 0 && port.count_most() == 0);
    let file = file_of(&rt, alloc, &mut port, &[1, 1, 1]);
    let _ = read_run(&rt, alloc, &mut port, &file, 0, 3);
    let _ = read_run(&rt, alloc, &mut port, &file, 0, 2);
    assert!(rt; port.count_submits() == 5 && port.count_most() == 3);
}

// Those of the first four writes that fail, as the digits of a number.
fn failed_writes<P: PageSink>(alloc: Global, port: &mut P) -> u32 {
    let mut failed = 0u32;
    for call in 1..5u32 {
        port.abandon();
        if port.write(alloc, &[1; 4096]) == Err(PutFault::Failed) {
            failed = failed.wrapping_mul(10).wrapping_add(call);
        }
    }
    failed
}

// Those of the first four seals that fail, as the digits of a number.
fn failed_seals<P: PageSink>(alloc: Global, port: &mut P) -> u32 {
    let mut failed = 0u32;
    for call in 1..5u32 {
        port.abandon();
        if port.seal(alloc).err() == Some(PutFault::Failed) {
            failed = failed.wrapping_mul(10).wrapping_add(call);
        }
    }
    failed
}

#[test]
fn a_write_fails_at_the_call_told(rt: HostRuntime) {
    for nth in 1..4 {
        let mut device = failing(&rt, rt.alloc(), FailKind::Write, nth);
        let mut port = nth_port(&rt, rt.alloc(), &mut device, Order::Fifo, 0);
        assert!(rt; failed_writes(rt.alloc(), &mut port) == nth);
    }
}

#[test]
fn a_seal_fails_at_the_call_told(rt: HostRuntime) {
    for nth in 1..4 {
        let mut device = failing(&rt, rt.alloc(), FailKind::Seal, nth);
        let mut port = nth_port(&rt, rt.alloc(), &mut device, Order::Fifo, 0);
        assert!(rt; failed_seals(rt.alloc(), &mut port) == nth);
    }
}

#[test]
fn other_ports_do_not_fail(rt: HostRuntime) {
    let mut device = failing(&rt, rt.alloc(), FailKind::Write, 1);
    let mut port = nth_port(&rt, rt.alloc(), &mut device, Order::Fifo, 1);
    assert!(rt; port.write(rt.alloc(), &[1; 4096]) == Ok(()));
}

// Whether the reads came back in that order, and which of them landed.
fn are_told(seen: &[Seen], want: &[(u64, bool)]) -> bool {
    for (read, (tag, landed)) in seen.iter().zip(want.iter()) {
        if read.tag != *tag || read.landed != *landed {
            return false;
        }
    }
    seen.len() == want.len()
}

const FAILED_READS: [(Order, u32, [(u64, bool); 3]); 5] = [
    (Order::Fifo, 1, [(0, false), (1, true), (2, true)]),
    (Order::Fifo, 2, [(0, true), (1, false), (2, true)]),
    (Order::Fifo, 3, [(0, true), (1, true), (2, false)]),
    (Order::Lifo, 1, [(2, false), (1, true), (0, true)]),
    (Order::Fifo, 4, [(0, true), (1, true), (2, true)]),
];

// Three reads of one port of a device.
fn three_reads<D: Device>(
    rt: &impl Abort,
    alloc: Global,
    device: &mut D,
    order: Order,
    number: u32,
) -> Vec<Seen> {
    let mut port = nth_port(rt, alloc, device, order, number);
    let file = file_of(rt, alloc, &mut port, &[6, 6, 6]);
    read_run(rt, alloc, &mut port, &file, 0, 3)
}

#[test]
fn reads_fail_by_the_order_of_landing(rt: HostRuntime) {
    for (order, nth, want) in FAILED_READS {
        let mut device = failing(&rt, rt.alloc(), FailKind::Read, nth);
        let seen = three_reads(&rt, rt.alloc(), &mut device, order, 0);
        assert!(rt; are_told(seen.as_slice(), &want), "{order:?}, told {nth}");
    }
}

// Whether the pages are full of 6, but for byte 100 of one read.
fn are_sixes(seen: &[Seen], rotten: usize) -> bool {
    for (at, read) in seen.iter().enumerate() {
        let mut want = [6; 4096];
        if at == rotten {
            want[100] = 7;
        }
        if !read.landed || read.bytes.as_slice() != want.as_slice() {
            return false;
        }
    }
    seen.len() == 3
}

#[test]
fn one_bit_rots(rt: HostRuntime) {
    // The port's number, the read that is told, and the one of three that rots.
    for (number, nth, rotten) in [(1, 1, 0), (1, 2, 1), (1, 4, 3), (0, 1, 3)] {
        let mut device = Rotten::new(1, nth, 100);
        let seen = three_reads(&rt, rt.alloc(), &mut device, Order::Fifo, number);
        assert!(rt;
            are_sixes(seen.as_slice(), rotten),
            "port {number}, told {nth}"
        );
    }
}

// A port goes out and comes back.
fn goes_and_comes<D: Device>(alloc: Global, device: &mut D, order: Order, room: u32) -> bool {
    match device.port(alloc, order, room) {
        Ok(port) => {
            device.back(port);
            true
        }
        Err(AllocError) => false,
    }
}

#[test]
fn takes_ports_back(rt: HostRuntime) {
    let alloc = rt.alloc();
    let mut device = CleanDevice::new();
    assert!(rt; goes_and_comes(alloc, &mut device, Order::Fifo, 1));
    counts_none_back(&device);
    let mut device = MemDevice::new(Vec::new(alloc));
    assert!(rt; goes_and_comes(alloc, &mut device, Order::Seed(3), 0));
    let mut device = Rotten::new(0, 1, 4095);
    assert!(rt; goes_and_comes(alloc, &mut device, Order::Lifo, u32::MAX / 4096));
}
