// Reading a script from a source.
ghost use Rattle.std.specs.Prelude.{◌≡◌, ℕ, ◌+◌, ◌<◌, ◌≤◌, List, [], length, Option, Some, IfSome, IfOk, OnOk, IfErr, vec_len};
ghost use Rattle.hv_io.specs.Bytes.{Consumes};
ghost use Rattle.hv_model.specs.Script.{IsScript, IsFault};
ghost use Rattle.hv_script.specs.Fault.{CountsFaults, IfFound};
ghost use Rattle.hv_script.specs.Reading.{IsRead};

use crate::fault::ReadScriptFault;
use crate::script::{MAX_SCRIPT_BYTES, read_statements};
use hv_io::Source;
use hv_model::Script;
use std::alloc::{AllocError, Global};

/// The most bytes that are asked of the source at a time.
pub const READ_BYTES: usize = 65_536;

/// The script that the source gives, read to the source's end; the first byte past the most that a script has ends it too.
/// No statement is found before all is read, and what was read is let go before the script is answered.
/// `Err` is the first fault of the bytes, `Source` where a read failed, or `Memory` for want of memory at any point.
pub fn read_script<S: Source>(alloc: Global, source: &mut S) -> Result<Script, ReadScriptFault>
    ensures script { IfOk result (λ script. IfSome (S.left source.old) (λ bytes. IsScript bytes script)) }
    ensures ended { IfOk result (λ _. IfSome (S.left source.old) (λ _. S.left source.new ≡ Some [])) }
    ensures some_bytes { IfOk result (λ script. (bytes : List ℕ) × IsScript bytes script) }
    ensures found { IfErr result (λ fault. IfFound fault (λ found. IfSome (S.left source.old) (λ bytes. IsFault bytes found.name found.byte))) }
    ensures counted { CountsFaults result (S.faults source.old) (S.faults source.new) }
{
    let all = read_all(alloc, source)?;
    Ok(read_statements(alloc, all.as_slice())?)
}

// All bytes of the source; of more than a script has, one byte more than that.
fn read_all<S: Source>(alloc: Global, source: &mut S) -> Result<Vec<u8>, ReadScriptFault>
    ensures all { IfOk result (λ all. IfSome (S.left source.old) (λ bytes. IsRead bytes (S.left source.new) all.items)) }
    ensures unread { IfErr result (λ fault. IfFound fault (λ _. ⊥)) }
    ensures counted { CountsFaults result (S.faults source.old) (S.faults source.new) }
{
    let mut piece = zeros(alloc, READ_BYTES)?;
    let mut all = Vec::new(alloc);
    while all.len() <= MAX_SCRIPT_BYTES {
        let room = READ_BYTES.min(MAX_SCRIPT_BYTES + 1 - all.len());
        if read_piece(source, &mut piece[..room], &mut all)? == 0 {
            return Ok(all);
        }
    }
    Ok(all)
}

// Puts the source's next bytes behind what was read so far, by way of the piece, and answers how many they are: 0 at the end.
fn read_piece<S: Source>(
    source: &mut S,
    piece: &mut [u8],
    all: &mut Vec<u8>,
) -> Result<usize, ReadScriptFault>
    requires { 0 < length piece.old }
    ensures longer { IfOk result (λ n. vec_len all.new ≡ vec_len all.old + n) }
    ensures within { IfOk result (λ n. n ≤ length piece.old) }
    ensures known { (before : Option (List ℕ)) → Consumes before (S.left source.old) all.old.items → OnOk result (Consumes before (S.left source.new) all.new.items) }
    ensures end { (before : Option (List ℕ)) → Consumes before (S.left source.old) all.old.items → IfOk result (λ n. n ≡ 0 → IfSome before (λ bytes. IsRead bytes (S.left source.new) all.new.items)) }
    ensures unread { IfErr result (λ fault. IfFound fault (λ _. ⊥)) }
    ensures counted { CountsFaults result (S.faults source.old) (S.faults source.new) }
{
    let Ok(n) = source.read(piece) else {
        return Err(ReadScriptFault::Source);
    };
    let (given, _) = piece.split_at(n);
    all.extend_from_slice(given)?;
    Ok(n)
}

// So many bytes that are 0.
fn zeros(alloc: Global, len: usize) -> Result<Vec<u8>, AllocError>
    ensures { IfOk result (λ bytes. vec_len bytes ≡ len) }
{
    vec![in alloc; 0; len]
}
