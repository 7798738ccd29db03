// The report's list of sessions.
ghost use Rattle.std.specs.Prelude.{◌≡◌, ◌≤◌, [], length, vec_capacity};
ghost use Rattle.hv_world.specs.World.{all_back, sessions_of};
ghost use Rattle.hv_world.specs.Turns.{AreIdle, ports_of, replies_of};

use crate::session::Session;
use hv_dev::{Device, PageSink};
use hv_report::SessionReport;
use hv_row::{Bytes, Listed};
use std::alloc::{AllocError, Global};

// The most sessions of a script.
const MAX_SESSIONS: usize = 64;

/// The memory for a report's list of sessions, which is taken before the first step.
#[derive(Drop)]
pub struct Blank {
    sessions: Vec<SessionReport>,
    ghost none: { sessions.items ≡ [] },
    ghost room: { 64 ≤ vec_capacity sessions },
}

impl Blank {
    pub fn new(alloc: Global) -> Result<Blank, AllocError> {
        Ok(Blank {
            sessions: Vec::with_capacity(alloc, MAX_SESSIONS)?,
        })
    }

    /// The sessions with their names and replies, whose ports go back to the device in the same order. Takes no memory.
    pub fn filled<D: Device>(
        self,
        names: Vec<Bytes>,
        sessions: Vec<Session<D::Port, <D::Port as PageSink>::File>>,
        dev: &mut D,
    ) -> Listed<SessionReport>
        requires few { length names.items ≤ 64 }
        requires paired { length sessions.items ≡ length names.items }
        requires idle { AreIdle D.Port.PageSink sessions.items }
        ensures sessions { result ≡ sessions_of names.items (replies_of sessions.items) }
        ensures device { D.returned dev.new ≡ all_back (D.returned dev.old) (ports_of D.Port.PageSink sessions.items) }
    {
        let Blank {
            sessions: mut reports,
        } = self;
        let mut names = names;
        let mut sessions = sessions;
        names.reverse();
        sessions.reverse();
        while let Some(session) = sessions.pop() {
            let name = names.pop().unwrap();
            let (port, replies) = session.close();
            dev.back(port);
            reports.push_reserved(SessionReport {
                name,
                replies: Listed::from_vec(replies),
            });
        }
        sessions.destroy_empty();
        Listed::from_vec(reports)
    }
}
