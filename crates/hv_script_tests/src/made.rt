// Scripts of many bytes, and what is told of scripts.
ghost use Rattle.std.specs.Prelude.{◌<◌};

use hv_io::MemSource;
use hv_model::{FaultName, Script, ScriptFault, Statement};
use hv_script::{BytesFault, MAX_STATEMENTS, ReadScriptFault, read_script, read_statements};
use std::alloc::{AllocError, Global};

// The statements of a script, where it has one session and one phase.
pub fn statements(script: &Script) -> Option<&[Statement]> {
    match script.phases.as_slice() {
        [phase] if script.sessions.len() == 1 => Some(phase.as_slice()),
        _ => None,
    }
}

// Whether this is the fault of a script, told at this byte.
pub fn is_fault(alloc: Global, text: &[u8], name: FaultName, byte: u32) -> bool {
    match read_statements(alloc, text) {
        Err(BytesFault::Found(fault)) => fault == ScriptFault { name, byte },
        _ => false,
    }
}

// What is read of a source that gives at most `cut` bytes a call, and fails at the call that `fail` names.
pub fn read_pieces(
    alloc: Global,
    bytes: Vec<u8>,
    cut: usize,
    fail: Option<u32>,
) -> Result<Script, ReadScriptFault>
    requires { 0 < cut }
{
    let mut source = MemSource::new(bytes, cut, fail);
    read_script(alloc, &mut source)
}

// As many statements as a script has, with this behind them.
pub fn full(alloc: Global, behind: &[u8]) -> Result<Vec<u8>, AllocError> {
    let mut script = Vec::new(alloc);
    for _ in 0..MAX_STATEMENTS {
        script.extend_from_slice(b"a;")?;
    }
    script.extend_from_slice(behind)?;
    Ok(script)
}

// So many blanks.
pub fn blanks(alloc: Global, len: usize) -> Result<Vec<u8>, AllocError> {
    vec![in alloc; b' '; len]
}
