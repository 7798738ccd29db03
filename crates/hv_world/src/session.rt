// One session: its port, its statement under way, and its replies so far.
ghost use Rattle.std.specs.Prelude.{◌≡◌, length, IfOk, OnOk, OnErr};
ghost use Rattle.hv_dev.specs.Reading.{Back, went};
ghost use Rattle.hv_world.specs.Reads.{port_seen, fresh_port};
ghost use Rattle.hv_world.specs.World.{ports_out};
ghost use Rattle.hv_world.specs.Unused.{IsUnused};
ghost use Rattle.hv_world.specs.Turns.{AreFresh, AreUnread, IsFreshSession, next_turn};

use crate::access::PageAccess;
use crate::stage::Stage;
use crate::turns::{Turn, turns_of};
use hv_dev::{Device, Order, PageSink, Port};
use hv_frames::make;
use hv_model::{Reply, Script};
use hv_row::Bytes;
use std::alloc::{AllocError, Global};

/// A session. It isn't dropped: its port goes back to the device.
#[must_use]
pub struct Session<P, F> {
    pub access: PageAccess<P>,
    pub stage: Stage<F>,
    // With room for all of its statements.
    pub replies: Vec<Reply>,
    // The places of its statements, in order.
    pub turns: Vec<Turn>,
}

impl<P, F> Session<P, F> {
    /// The place of its next statement, if one is left.
    pub fn next(&self) -> Option<Turn>
        ensures { result ≡ next_turn self.now }
    {
        self.turns.get(self.replies.len()).copied()
    }
}

impl<P: Port> Session<P, P::File> {
    /// Its port and its replies; the memory of the rest is given back.
    pub fn close(self) -> (P, Vec<Reply>)
        ensures port { result.0 ≡ self.access.port }
        ensures replies { result.1 ≡ self.replies }
    {
        let Session {
            access,
            stage: _stage,
            replies,
            turns: _turns,
        } = self;
        (access.close(), replies)
    }
}

/// The sessions of a script, which have done nothing yet. Where memory is wanting, their ports went back.
pub fn open_sessions<D: Device>(
    alloc: Global,
    script: &Script,
    order: Order,
    dev: &mut D,
) -> Result<Vec<Session<D::Port, <D::Port as PageSink>::File>>, AllocError>
    ensures fresh { IfOk result (λ sessions. AreFresh D.Port.PageSink script.now script.now.sessions sessions.items) }
    ensures out { OnOk result (D.returned dev.new ≡ ports_out (length script.now.sessions) (D.returned dev.old)) }
    ensures kept { OnErr result (IsUnused (D.returned dev.old) (D.returned dev.new)) }
{
    let mut sessions = Vec::with_capacity(alloc, script.sessions.len())?;
    for name in script.sessions.as_slice() {
        match open_session(alloc, script, name, order, dev) {
            Ok(session) => sessions.push_reserved(session),
            Err(error) => {
                close_unread(sessions, dev);
                return Err(error);
            }
        }
    }
    Ok(sessions)
}

// A session that has done nothing yet.
fn open_session<D: Device>(
    alloc: Global,
    script: &Script,
    name: &Bytes,
    order: Order,
    dev: &mut D,
) -> Result<Session<D::Port, <D::Port as PageSink>::File>, AllocError>
    ensures fresh { IfOk result (λ session. IsFreshSession D.Port.PageSink script.now name.now session) }
    ensures out { OnOk result (D.returned dev.new ≡ went (D.returned dev.old)) }
    ensures kept { OnErr result (D.returned dev.new ≡ D.returned dev.old) }
{
    let turns = turns_of(alloc, script, name)?;
    let replies = Vec::with_capacity(alloc, turns.len())?;
    let access = open_access(alloc, order, dev)?;
    Ok(Session {
        access,
        stage: Stage::Unbegun,
        replies,
        turns,
    })
}

// A port with room for one read, and the frame that it fills.
fn open_access<D: Device>(
    alloc: Global,
    order: Order,
    dev: &mut D,
) -> Result<PageAccess<D::Port>, AllocError>
    ensures fresh { IfOk result (λ access. port_seen D.Port.PageSink access.port ≡ fresh_port D.Port.File) }
    ensures out { OnOk result (D.returned dev.new ≡ went (D.returned dev.old)) }
    ensures kept { OnErr result (D.returned dev.new ≡ D.returned dev.old) }
{
    let (owner, frames) = make(alloc, 1)?;
    match dev.port(alloc, order, 1) {
        Ok(port) => Ok(PageAccess::new(port, owner, frames)),
        Err(error) => {
            owner.end(frames);
            Err(error)
        }
    }
}

// Gives ports back that have read nothing.
fn close_unread<D: Device>(
    sessions: Vec<Session<D::Port, <D::Port as PageSink>::File>>,
    dev: &mut D,
)
    requires unread { AreUnread D.Port.PageSink sessions.items }
    ensures { (before : Back D.Port.File) → IsUnused (ports_out (length sessions.items) before) (D.returned dev.old) → IsUnused before (D.returned dev.new) }
{
    let mut sessions = sessions;
    while let Some(session) = sessions.pop() {
        let (port, _replies) = session.close();
        dev.back(port);
    }
    sessions.destroy_empty();
}
