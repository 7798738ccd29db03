// The statements of a script.
ghost use Rattle.std.specs.Prelude.{◌≡◌, ◌≤◌, length, IfOk, IfErr, IsUtf8};
ghost use Rattle.hv_model.specs.Script.{most_bytes, IsScript};
ghost use Rattle.hv_script.specs.declared.fault.BytesFault.TheVariants.{Found};
ghost use Rattle.hv_script.specs.Fault.{IsFaultOf, TellsAt};

use crate::fault::BytesFault;
use crate::so_far::SoFar;
use crate::statement::{Next, find_next};
use hv_model::{FaultName, Script, ScriptFault};
use std::alloc::Global;

/// The most bytes of a script.
pub const MAX_SCRIPT_BYTES: usize = 67_108_864;

/// The script that the bytes are. `Err` is their first fault, told at a byte counted from 0, or `Memory` for want of memory at any point.
pub fn read_statements(alloc: Global, bytes: &[u8]) -> Result<Script, BytesFault>
    ensures script { IfOk result (λ script. IsScript bytes.now script) }
    ensures fault { IfErr result (λ fault. IsFaultOf bytes.now fault) }
{
    test_bytes(bytes)?;
    let mut so_far = SoFar::new(alloc)?;
    let mut rest = bytes;
    loop {
        match find_next(rest) {
            Next::End => return Ok(so_far.into_script()?),
            Next::Unended(from) => return Err(fault_at(FaultName::Unended, bytes, from)),
            Next::Long(from) => return Err(fault_at(FaultName::LongImport, bytes, from)),
            Next::Short(from) => return Err(fault_at(FaultName::ShortImport, bytes, from)),
            Next::Found {
                from,
                text,
                lines,
                after,
            } => {
                if let Some(fault) = so_far.take_text(alloc, text, lines)? {
                    return Err(fault_at(fault, bytes, from));
                }
                rest = after;
            }
        }
    }
}

// Whether the bytes are few enough, and UTF-8.
fn test_bytes(bytes: &[u8]) -> Result<(), BytesFault>
    ensures short { IfOk result (λ _. length bytes.now ≤ most_bytes) }
    ensures utf8 { IfOk result (λ _. IsUtf8 bytes.now) }
    ensures fault { IfErr result (λ fault. IsFaultOf bytes.now fault) }
{
    if bytes.len() > MAX_SCRIPT_BYTES {
        return Err(told(FaultName::TooLong, MAX_SCRIPT_BYTES));
    }
    match str::from_utf8(bytes) {
        Ok(_) => Ok(()),
        Err(error) => Err(told(FaultName::NotUtf8, error.valid_up_to())),
    }
}

// A fault at this byte.
fn told(name: FaultName, byte: usize) -> BytesFault
    requires { byte ≤ most_bytes }
    ensures { result ≡ Found (record { name = name; byte = byte }) }
{
    BytesFault::Found(ScriptFault {
        name,
        byte: byte as u32,
    })
}

// A fault at the first byte of the rest.
fn fault_at(name: FaultName, bytes: &[u8], rest: &[u8]) -> BytesFault
    requires short { length bytes.now ≤ most_bytes }
    requires within { length rest.now ≤ length bytes.now }
    ensures { TellsAt name bytes.now rest.now result }
{
    told(name, bytes.len() - rest.len())
}
