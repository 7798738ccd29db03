// Sources that give little at a time, or fail.
use crate::made::read_pieces;
use crate::scripts::has_statements;
use hv_script::ReadScriptFault;
use std::alloc::{AllocError, Global};
use std::test::Fail;

const TEXT: &[u8] = b"IMPORT INTO t LINES 1;\n7\nSELECT * FROM t;";

const STATEMENTS: &str = "1[IMPORT INTO t LINES 1|7\n]2[SELECT * FROM t|]";

fn text(alloc: Global) -> Result<Vec<u8>, AllocError> {
    Ok(Vec::from_slice(alloc, TEXT)?)
}

#[test]
fn sources_are_read_to_their_end(rt: HostRuntime) -> Result<(), Fail> {
    for cut in [1, 5, 100_000] {
        let script = read_pieces(rt.alloc(), text(rt.alloc())?, cut, None)?;
        assert!(rt; has_statements(rt.alloc(), &script, STATEMENTS)?, "{cut}");
    }
    Ok(())
}

// The fault of a source that gives a byte a call and fails at this one.
fn fault_at(alloc: Global, call: u32) -> Result<Option<ReadScriptFault>, AllocError> {
    Ok(read_pieces(alloc, text(alloc)?, 1, Some(call)).err())
}

#[test]
fn sources_that_fail_are_told(rt: HostRuntime) -> Result<(), Fail> {
    for call in [1, 3] {
        assert!(rt;
            fault_at(rt.alloc(), call)? == Some(ReadScriptFault::Source),
            "{call}"
        );
    }
    Ok(())
}
