// A pick: one step of one of the sessions that can take one.
ghost use Rattle.std.specs.Prelude.{◌≡◌, ◌<◌, ◌≤◌, ℕ, List, length, Some, IfSome, IfNone, vec_capacity, slice_get};
ghost use Rattle.hv_model.specs.Legal.{number_of};
ghost use Rattle.hv_model.specs.Sessions.{last_number};
ghost use Rattle.hv_model.specs.declared.script.Script.{Script};
ghost use Rattle.hv_model.specs.declared.script.Statement.{Statement};
ghost use Rattle.hv_world.specs.Look.{KeepsTables};
ghost use Rattle.hv_world.specs.Picks.{CanStep, HasStepped, IsNextOf, floor_of};
ghost use Rattle.hv_world.specs.Stored.{IsSound, AreFiles, HasFiles};
ghost use Rattle.hv_world.specs.Turns.{next_turn};

use crate::ready::{fill_ready, is_due, next_phase};
use crate::session::Session;
use crate::stage::{Stage, Step};
use crate::statement::take_step;
use crate::world::World;
use hv_catalogue::Catalogue;
use hv_chunk::Chunk;
use hv_dev::{Device, Port};
use hv_model::{Reply, Script};
use std::alloc::Global;
use std::mem;

impl<D: Device> World<D> {
    ghost use Rattle.std.specs.Prelude.{◌≡◌, ◌<◌, ◌%◌, ℕ, length, Some, slice_get};
    ghost use Rattle.hv_world.specs.World.{IsLegalSoFar, AreCausedSoFar, IsPick, ready_places};

    /// One step of the session whose place among those that can take one is `k`, counted round. Where the phase ends with it, the
    /// next phase that has a statement begins. Takes no memory but what the step takes.
    pub fn pick(&mut self, alloc: Global, k: u32)
        requires ready { 0 < length (ready_places self.old) }
        ensures pick { (at : ℕ) → slice_get (ready_places self.old) (k % length (ready_places self.old)) ≡ Some at → IsPick at self.old self.new }
        ensures legal { IsLegalSoFar D.Port.File.tells self.new }
        ensures causes { AreCausedSoFar D.Port.File.tells self.new }
    {
        let index = k as usize % self.unfinished.len();
        let at = self.unfinished[index];
        step_session(
            alloc,
            &self.script,
            self.barrier,
            &mut self.catalogue,
            &mut self.sessions[at as usize],
        );
        self.last = Some(at);
        if is_due(self.sessions[at as usize].next(), self.phase) {
            return;
        }
        self.unfinished.remove(index);
        if !self.unfinished.is_empty() {
            return;
        }
        if let Some(phase) = next_phase(self.sessions.as_slice()) {
            self.phase = phase;
            self.barrier = self.catalogue.length();
            self.last = None;
            fill_ready(self.sessions.as_slice(), phase, &mut self.unfinished);
        }
    }
}

// One step of a session's next statement.
fn step_session<P: Port>(
    alloc: Global,
    script: &Script,
    barrier: u32,
    catalogue: &mut Catalogue<Chunk<P::File>>,
    session: &mut Session<P, P::File>,
)
    requires sound { IsSound P.File.tells P.File.pages catalogue.old }
    requires can { CanStep P.File.tells P.File.pages P.PageSink script.now catalogue.old session.old }
    ensures step { (x : Statement) → IsNextOf script.now session.old x → HasStepped P.File.tells P.File.pages P.PageSink x (floor_of barrier session.old) catalogue.old catalogue.new session.old session.new }
    ensures files { (files : List P.File) → AreFiles catalogue.old files → HasFiles catalogue.new files }
    ensures sound { IsSound P.File.tells P.File.pages catalogue.new }
    ensures tables { KeepsTables catalogue.old catalogue.new }
{
    let turn = session.turns[session.replies.len()];
    let statement = &script.phases.as_slice()[turn.phase].as_slice()[turn.place];
    let floor = barrier.max(last_number(session.replies.as_slice()));
    let stage = mem::replace(&mut session.stage, Stage::Unbegun);
    match take_step(
        alloc,
        statement,
        stage,
        floor,
        catalogue,
        &mut session.access,
    ) {
        Step::Goes(next) => session.stage = next,
        Step::Answered(reply) => session.replies.push_reserved(reply),
    }
}

// The number that a session's last reply tells; 0 before the first.
fn last_number(replies: &[Reply]) -> u32
    ensures { result ≡ last_number replies.now }
{
    match replies.last() {
        Some(reply) => number_of(reply),
        None => 0,
    }
}

// The length of the history that a reply tells.
fn number_of(reply: &Reply) -> u32
    ensures { result ≡ number_of reply.now }
{
    match reply {
        Reply::Done { at, .. }
        | Reply::Rows { at, .. }
        | Reply::Refused { at, .. }
        | Reply::Failed { at, .. } => *at,
    }
}
