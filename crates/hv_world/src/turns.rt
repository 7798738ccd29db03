// Where the statements of each session stand in a script.
ghost use Rattle.std.specs.Prelude.{◌≡◌, ◌+◌, Some, IfOk, OnOk, slice_get};
ghost use Rattle.hv_model.specs.declared.script.Script.{Script};
ghost use Rattle.hv_model.specs.Sessions.{count_before};
ghost use Rattle.hv_world.specs.Turns.{AreTurns, AreTurnsTo};

use hv_model::{Script, Statement};
use hv_row::Bytes;
use std::alloc::{AllocError, Global};

/// The place of a statement: its phase, and its place there, both from 0.
#[derive(Debug, Clone, Copy, PartialEq, Eq)]
pub struct Turn {
    pub phase: usize,
    pub place: usize,
}

/// The places of the statements of a session, in order.
pub fn turns_of(alloc: Global, script: &Script, name: &Bytes) -> Result<Vec<Turn>, AllocError>
    ensures { IfOk result (λ turns. AreTurns script.now name.now turns.items) }
{
    let mut turns = Vec::new(alloc);
    for (at, phase) in script.phases.as_slice().iter().enumerate() {
        add_turns(at, phase.as_slice(), name, &mut turns)?;
    }
    Ok(turns)
}

// Puts those of one phase behind those of the phases before it.
fn add_turns(
    at: usize,
    phase: &[Statement],
    name: &Bytes,
    turns: &mut Vec<Turn>,
) -> Result<(), AllocError>
    ensures { OnOk result ((s : Script) → slice_get s.phases at ≡ Some phase.now → AreTurnsTo s name.now (count_before s name.now at) turns.old.items → AreTurnsTo s name.now (count_before s name.now (at + 1)) turns.new.items) }
{
    for (place, statement) in phase.iter().enumerate() {
        if statement.session.as_slice() == name.as_slice() {
            turns.push(Turn { phase: at, place })?;
        }
    }
    Ok(())
}
