// The script of most statements and the longest, and what is told past them.
use crate::made::{blanks, full, is_fault, read_pieces, statements};
use hv_model::{FaultName, Script, ScriptFault};
use hv_script::{MAX_SCRIPT_BYTES, MAX_STATEMENTS, ReadScriptFault, read_statements};
use std::alloc::{AllocError, Global};
use std::test::Fail;

fn count(script: &Script) -> Option<usize> {
    Some(statements(script)?.len())
}

#[test]
fn most_statements_are_read(rt: HostRuntime) -> Result<(), Fail> {
    let text = full(rt.alloc(), b";\n")?;
    let script = read_statements(rt.alloc(), text.as_slice())?;
    assert!(rt; count(&script) == Some(MAX_STATEMENTS));
    Ok(())
}

// What stands behind the most statements, and its fault.
const BEHIND: [(&[u8], FaultName, u32); 7] = [
    (b"a;", FaultName::TooManyStatements, 2_000_000),
    (b" ;a;b", FaultName::TooManyStatements, 2_000_002),
    (
        b"a;IMPORT INTO t LINES 1000001;",
        FaultName::TooManyStatements,
        2_000_000,
    ),
    (b"a", FaultName::Unended, 2_000_000),
    (
        b"IMPORT INTO t LINES 1000001;",
        FaultName::LongImport,
        2_000_000,
    ),
    (b"IMPORT INTO t LINES 1;", FaultName::ShortImport, 2_000_000),
    (b"a;\xFF", FaultName::NotUtf8, 2_000_002),
];

#[test]
fn faults_behind_most_statements_are_told(rt: HostRuntime) -> Result<(), Fail> {
    for (behind, name, byte) in BEHIND {
        let text = full(rt.alloc(), behind)?;
        assert!(rt;
            is_fault(rt.alloc(), text.as_slice(), name, byte),
            "{name:?} at {byte}"
        );
    }
    Ok(())
}

#[test]
fn a_fault_before_too_many_statements_is_told(rt: HostRuntime) -> Result<(), Fail> {
    let mut text = Vec::from_slice(rt.alloc(), b"IMPORT INTO t LINES 1000001;")?;
    text.extend_from_slice(full(rt.alloc(), b"a;")?.as_slice())?;
    assert!(rt; is_fault(rt.alloc(), text.as_slice(), FaultName::LongImport, 0));
    Ok(())
}

// The fault of a source of so many blanks.
fn fault_of_blanks(alloc: Global, len: usize) -> Result<Option<ReadScriptFault>, AllocError> {
    Ok(read_pieces(alloc, blanks(alloc, len)?, MAX_SCRIPT_BYTES, None).err())
}

const TOO_LONG: ReadScriptFault = ReadScriptFault::Found(ScriptFault {
    name: FaultName::TooLong,
    byte: 67_108_864,
});

#[test]
fn the_longest_source_is_read(rt: HostRuntime) -> Result<(), Fail> {
    assert!(rt; fault_of_blanks(rt.alloc(), MAX_SCRIPT_BYTES)?.is_none());
    Ok(())
}

#[test]
fn a_longer_source_is_refused(rt: HostRuntime) -> Result<(), Fail> {
    assert!(rt; fault_of_blanks(rt.alloc(), MAX_SCRIPT_BYTES + 2)? == Some(TOO_LONG));
    Ok(())
}

#[test]
fn too_long_is_told_before_no_utf8(rt: HostRuntime) -> Result<(), Fail> {
    let mut text = blanks(rt.alloc(), MAX_SCRIPT_BYTES - 1)?;
    text.push(b'\xFF')?;
    assert!(rt; is_fault(rt.alloc(), text.as_slice(), FaultName::NotUtf8, 67_108_863));
    text.push(b'a')?;
    assert!(rt; is_fault(rt.alloc(), text.as_slice(), FaultName::TooLong, 67_108_864));
    Ok(())
}
