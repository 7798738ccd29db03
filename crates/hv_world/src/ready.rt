// Which sessions can take a step.
ghost use Rattle.std.specs.Prelude.{◌≡◌, ◌≤◌, length, vec_capacity};
ghost use Rattle.hv_model.specs.declared.script.Script.{Script};
ghost use Rattle.hv_world.specs.World.{ready_from};
ghost use Rattle.hv_world.specs.Turns.{HaveTurns, IsNextPhase, earlier, is_due, replies_of};

use crate::session::Session;
use crate::turns::Turn;

/// The first phase in which a session has a statement left; `None` where none has one.
pub fn next_phase<P, F>(sessions: &[Session<P, F>]) -> Option<usize>
    ensures { IsNextPhase sessions.now result }
{
    let mut least = None;
    for session in sessions {
        least = earlier(least, session.next());
    }
    least
}

// The earlier of a phase and that of a statement.
fn earlier(least: Option<usize>, next: Option<Turn>) -> Option<usize>
    ensures { result ≡ earlier least next }
{
    match (least, next) {
        (None, None) => None,
        (None, Some(turn)) => Some(turn.phase),
        (Some(phase), None) => Some(phase),
        (Some(phase), Some(turn)) => Some(phase.min(turn.phase)),
    }
}

/// Lists the places of the sessions that have statements left in a phase. Takes no memory.
pub fn fill_ready<P, F>(sessions: &[Session<P, F>], phase: usize, ready: &mut Vec<u32>)
    requires few { length sessions.now ≤ 64 }
    requires room { length sessions.now ≤ vec_capacity ready.old }
    ensures ready { (s : Script) → HaveTurns s s.sessions sessions.now → ready.new.items ≡ ready_from s phase 0 s.sessions (replies_of sessions.now) }
    ensures room { vec_capacity ready.new ≡ vec_capacity ready.old }
{
    ready.clear();
    for (at, session) in sessions.iter().enumerate() {
        if is_due(session.next(), phase) {
            ready.push_reserved(at as u32);
        }
    }
}

// Whether a next statement stands in the phases up to this one.
pub fn is_due(next: Option<Turn>, phase: usize) -> bool
    ensures { result ≡ is_due next phase }
{
    match next {
        Some(turn) => turn.phase <= phase,
        None => false,
    }
}
