// Sources and sinks that give or take little at a call, and fail at each call in turn.
ghost use Rattle.std.specs.Prelude.{◌<◌};

use super::{FIRST, ORDERED, REPORT, Taken, meets, ran, source_of};
use crate::status::Status;
use hv_dev::CleanDevice;
use hv_io::MemSink;
use std::alloc::{AllocError, Global};
use std::test::Fail;

// Runs a script whose sink takes so many bytes at a call, and fails at one if it is named.
fn ran_into(alloc: Global, script: &str, cut: usize, fail: Option<u32>) -> Result<Taken, AllocError>
    requires { 0 < cut }
{
    let source = source_of(alloc, script.as_bytes(), 1000, None)?;
    ran(
        alloc,
        source,
        MemSink::new(alloc, cut, fail),
        &mut CleanDevice::new(),
    )
}

// Runs a script whose source gives so many bytes at a call, and fails at one if it is named.
fn ran_from(
    alloc: Global,
    script: &str,
    give: usize,
    fail: Option<u32>,
) -> Result<Taken, AllocError>
    requires { 0 < give }
{
    let source = source_of(alloc, script.as_bytes(), give, fail)?;
    ran(
        alloc,
        source,
        MemSink::new(alloc, 100, None),
        &mut CleanDevice::new(),
    )
}

#[test]
fn sinks_fail_at_each_byte(rt: HostRuntime) -> Result<(), Fail> {
    for (k, call) in (0..REPORT.len()).zip(1_u32..) {
        let taken = REPORT.as_bytes().get(..k).ok_or("a shorter report")?;
        let got = ran_into(rt.alloc(), FIRST, 1, Some(call))?;
        meets(&rt, &got, Status::SinkFault, taken);
    }
    let whole = ran_into(rt.alloc(), FIRST, 1, None)?;
    meets(&rt, &whole, Status::Fine, REPORT.as_bytes());
    Ok(())
}

#[test]
fn sources_fail_at_each_read(rt: HostRuntime) -> Result<(), Fail> {
    for call in 1..78_u32 {
        let got = ran_from(rt.alloc(), FIRST, 1, Some(call))?;
        meets(&rt, &got, Status::SourceFault, b"");
    }
    for fail in [None, Some(78)] {
        let whole = ran_from(rt.alloc(), FIRST, 1, fail)?;
        meets(&rt, &whole, Status::Fine, REPORT.as_bytes());
    }
    Ok(())
}

#[test]
fn calls_that_fail_are_told_of_each_script(rt: HostRuntime) -> Result<(), Fail> {
    for script in [FIRST, ORDERED] {
        let cut = ran_into(rt.alloc(), script, 10, Some(2))?;
        meets(&rt, &cut, Status::SinkFault, b"session ma");
        let unread = ran_from(rt.alloc(), script, 1000, Some(1))?;
        meets(&rt, &unread, Status::SourceFault, b"");
    }
    Ok(())
}
