// Sessions whose statements interleave.
ghost use Rattle.std.specs.Prelude.{◌≡◌, ◌≤◌, nat_le, count_by, length};
ghost use Rattle.std.specs.List.Sorted.{IsNonDecreasingBy};

use crate::ready::{fill_ready, next_phase};
use crate::report::Blank;
use crate::session::{Session, open_sessions};
use hv_catalogue::{Catalogue, MAX_ENTRIES};
use hv_chunk::Chunk;
use hv_dev::{Device, Order, PageSink};
use hv_model::{Phase, Script};
use hv_report::Report;
use std::alloc::{AllocError, Global};
use std::marker::Model;

/// A world of sessions: one catalogue, and a port and a statement under way for each. It isn't dropped: `report` gives the ports back.
#[must_use]
pub struct World<D: Device> {
    pub(crate) script: Script,
    // The number of the present phase.
    pub(crate) phase: usize,
    // The length of the history at its beginning.
    pub(crate) barrier: u32,
    pub(crate) catalogue: Catalogue<Chunk<<D::Port as PageSink>::File>>,
    // In order of naming.
    pub(crate) sessions: Vec<Session<D::Port, <D::Port as PageSink>::File>>,
    // The places of the sessions that have statements left in the phase.
    pub(crate) unfinished: Vec<u32>,
    // The place of the session that was picked last in the phase.
    pub(crate) last: Option<u32>,
    // The memory for the report.
    pub(crate) blank: Blank,
}

impl<D: Device> Model for World<D> {
    ghost use Rattle.std.specs.Prelude.{vec_capacity};
    ghost use Rattle.hv_world.specs.World.{WorldSeen};
    ghost use Rattle.hv_world.specs.Turns.{IsKeptWorld, world_of};

    ghost Value = { WorldSeen D.Port.File };

    ghost view = { λ w. world_of D.Port.PageSink w.script w.phase w.catalogue w.sessions.items w.last };

    ghost invariant = { λ w. IsKeptWorld D.Port.File.tells D.Port.File.pages D.Port.PageSink w.script w.phase w.barrier w.catalogue w.sessions.items w.unfinished.items (vec_capacity w.unfinished) };
}

impl<D: Device> World<D> {
    ghost use Rattle.std.specs.Prelude.{◌≡◌, ◌<◌, ℕ, true, false, length, IfOk, OnOk, OnErr};
    ghost use Rattle.hv_model.specs.Legal.{Legal};
    ghost use Rattle.hv_model.specs.Sessions.{HasBounds, HasSessions};
    ghost use Rattle.hv_world.specs.Known.{Known};
    ghost use Rattle.hv_world.specs.Unused.{IsUnused};
    ghost use Rattle.hv_world.specs.World.{AreCausedSoFar, IsDone, IsFresh, IsLegalSoFar, all_back, landings_of, next_round, ports_out, ready_places, report_of};

    /// The sessions of a script before their first steps. Takes all memory but what a step takes; where it is wanting, no port is out.
    pub fn new(
        alloc: Global,
        script: Script,
        order: Order,
        dev: &mut D,
    ) -> Result<World<D>, AllocError>
        requires sessions { HasSessions script }
        requires bounds { HasBounds script }
        ensures fresh { IfOk result (λ w. IsFresh script w) }
        ensures legal { IfOk result (λ w. IsLegalSoFar D.Port.File.tells w) }
        ensures causes { IfOk result (λ w. AreCausedSoFar D.Port.File.tells w) }
        ensures out { OnOk result (D.returned dev.new ≡ ports_out (length script.sessions) (D.returned dev.old)) }
        ensures kept { OnErr result (IsUnused (D.returned dev.old) (D.returned dev.new)) }
    {
        let blank = Blank::new(alloc)?;
        let mut unfinished = Vec::with_capacity(alloc, script.sessions.len())?;
        let catalogue = Catalogue::new(alloc, most_entries(script.phases.as_slice()))?;
        let sessions = open_sessions(alloc, &script, order, dev)?;
        let phase = next_phase(sessions.as_slice()).unwrap_or(0);
        fill_ready(sessions.as_slice(), phase, &mut unfinished);
        Ok(World {
            script,
            phase,
            barrier: 0,
            catalogue,
            sessions,
            unfinished,
            last: None,
            blank,
        })
    }

    /// How many sessions can take a step: those that have statements left in the present phase. Takes no memory.
    pub fn ready(&self) -> u32
        ensures { result ≡ length (ready_places self.now) }
    {
        self.unfinished.len() as u32
    }

    /// Whether each statement has its reply. Takes no memory.
    pub fn done(&self) -> bool
        ensures done { result ≡ true → IsDone self.now }
        ensures undone { result ≡ false → ¬ (IsDone self.now) }
        ensures ready { result ≡ false → 0 < length (ready_places self.now) }
    {
        self.unfinished.is_empty()
    }

    /// Which of the sessions that can take a step is the next one going round from the one picked last. Takes no memory.
    pub fn next_round(&self) -> u32
        ensures { result ≡ next_round self.now self.now.last }
    {
        match self.last {
            None => 0,
            Some(last) => count_to(self.unfinished.as_slice(), last),
        }
    }

    /// The report, where each statement has its reply; the ports go back to the device in order of naming. Takes no memory.
    pub fn report(self, dev: &mut D) -> Report
        requires done { IsDone self }
        ensures report { result ≡ report_of self.script self.held.history self.replies }
        ensures legal { (max : ℕ) → Legal self.script max (Known D.Port.File.tells self.script self.held.history (landings_of self.ports)) self.held.history self.replies }
        ensures causes { AreCausedSoFar D.Port.File.tells self }
        ensures device { D.returned dev.new ≡ all_back (D.returned dev.old) self.ports }
    {
        let World {
            script,
            phase: _phase,
            barrier: _barrier,
            catalogue,
            sessions,
            unfinished: _unfinished,
            last: _last,
            blank,
        } = self;
        let Script {
            sessions: names,
            phases: _phases,
        } = script;
        let sessions = blank.filled(names.into_vec(), sessions, dev);
        Report {
            sessions,
            history: catalogue.history(),
            stats: None,
        }
    }
}

// The room for a history: as many entries as statements, up to a catalogue's most.
fn most_entries(phases: &[Phase]) -> u32
    ensures { result ≤ 65536 }
{
    let mut most = 0;
    for phase in phases {
        most += phase.len().min(MAX_ENTRIES as usize - most);
    }
    most as u32
}

// How many of rising places stand at or before one.
fn count_to(places: &[u32], last: u32) -> u32
    requires few { length places.now ≤ 64 }
    requires rising { IsNonDecreasingBy (λ at. at) places.now }
    ensures { result ≡ count_by (λ at. nat_le at last) places.now }
{
    places.partition_point(|at| *at <= last) as u32
}
