// Handing over all of a byte string.
ghost use Rattle.std.specs.Prelude.{OnOk, IfErr};
ghost use Rattle.hv_io.specs.Seen.{seen};
ghost use Rattle.hv_io.specs.Putting.{TookAll, Stopped};

use crate::sink::Sink;

/// Why a sink did not take all bytes.
#[derive(Debug, Clone, Copy, PartialEq, Eq)]
pub enum PutAll {
    /// A write failed.
    Failed,
    /// A write took nothing of a piece that was not empty.
    Zero,
}

/// Hands all bytes over, piece by piece, up to the first write that fails or takes nothing. Takes no memory.
pub fn put<K: Sink>(out: &mut K, bytes: &[u8]) -> Result<(), PutAll>
    ensures all { OnOk result (TookAll (seen K.Sink out.old) bytes.now (seen K.Sink out.new)) }
    ensures part { IfErr result (λ cause. Stopped (seen K.Sink out.old) bytes.now (seen K.Sink out.new) cause) }
{
    let mut rest = bytes;
    while !rest.is_empty() {
        match out.write(rest) {
            Err(_) => return Err(PutAll::Failed),
            Ok(0) => return Err(PutAll::Zero),
            Ok(n) => rest = rest.split_at(n).1,
        }
    }
    Ok(())
}
