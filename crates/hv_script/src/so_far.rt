// What was read of a script so far.
ghost use Rattle.std.specs.Prelude.{◌≡◌, ◌≤◌, [], ◌∷◌, ◌++◌, length, IfOk};
ghost use Rattle.std.specs.List.{position};
ghost use Rattle.hv_row.specs.Schema.{same_name};
ghost use Rattle.hv_model.specs.Script.{most_bytes, placed_first, end_phase, script_of};
ghost use Rattle.hv_script.specs.SoFar.{WasRead, placed_of, IsKept, Stands, IsSet, IsAdded, IsTaken};

use hv_model::{FaultName, Phase, Phases, Script, SessionName, SessionNames, Statement};
use hv_row::{Bytes, Copied, Listed};
use hv_sql::{Mark, mark_of};
use std::alloc::{AllocError, Global};
use std::mem;

/// The most sessions of a script.
pub const MAX_SESSIONS: usize = 64;

/// The most statements of a script, of all sessions together.
pub const MAX_STATEMENTS: usize = 1_000_000;

/// A session: its name, which its statements share, and how many they are so far.
#[derive(Drop)]
pub struct Member {
    name: SessionName,
    count: u32,
}

/// What was read of a script so far.
#[derive(Drop)]
pub struct SoFar {
    /// The names of the sessions, in the order of their first naming.
    names: SessionNames,
    /// The sessions, each at the place of its name.
    members: Vec<Member>,
    /// The place of the session of what follows.
    at: usize,
    /// The phases that have ended.
    ended: Phases,
    /// The statements of the one that has not.
    phase: Phase,
    /// How many statements all sessions have.
    count: usize,
}

impl SoFar {
    /// Before the first text.
    pub fn new(alloc: Global) -> Result<SoFar, AllocError>
        ensures { IfOk result (λ it. Stands it placed_first) }
    {
        let mut it = SoFar {
            names: Listed::new(alloc),
            members: Vec::new(alloc),
            at: 0,
            ended: Listed::new(alloc),
            phase: Listed::new(alloc),
            count: 0,
        };
        it.add_session(alloc, b"main")?;
        Ok(it)
    }

    /// What one more text says; the fault where it is one more than a script has.
    pub fn take_text(
        &mut self,
        alloc: Global,
        text: &[u8],
        lines: &[u8],
    ) -> Result<Option<FaultName>, AllocError>
        requires short { length text.now ≤ most_bytes }
        requires kept { IsKept self.old }
        requires read { WasRead (placed_of self.old) }
        ensures { IfOk result (λ fault. IsTaken (placed_of self.old) (record { text = text.now; lines = lines.now }) fault self.new) }
    {
        match mark_of(text) {
            Some(Mark::Session(name)) => self.set_session(alloc, name),
            Some(Mark::Barrier) => {
                self.end_phase(alloc)?;
                Ok(None)
            }
            None => self.add_statement(alloc, text, lines),
        }
    }

    /// What follows is of the session of this name; the fault where it is one more than a script has.
    pub fn set_session(
        &mut self,
        alloc: Global,
        name: &[u8],
    ) -> Result<Option<FaultName>, AllocError>
        requires kept { IsKept self.old }
        requires read { WasRead (placed_of self.old) }
        ensures { IfOk result (λ fault. IsSet (placed_of self.old) name.now fault self.new) }
    {
        match place_of(self.names.as_slice(), name) {
            Some(place) => self.at = place,
            None => {
                if self.names.len() == MAX_SESSIONS {
                    return Ok(Some(FaultName::TooManySessions));
                }
                self.add_session(alloc, name)?;
            }
        }
        Ok(None)
    }

    /// A phase ends.
    pub fn end_phase(&mut self, alloc: Global) -> Result<(), AllocError>
        requires { IsKept self.old }
        ensures { IfOk result (λ _. Stands self.new (end_phase (placed_of self.old))) }
    {
        let phase = mem::replace(&mut self.phase, Listed::new(alloc));
        self.ended.push(phase)
    }

    /// One more statement of the session; the fault where it is one more than a script has.
    pub fn add_statement(
        &mut self,
        alloc: Global,
        text: &[u8],
        lines: &[u8],
    ) -> Result<Option<FaultName>, AllocError>
        requires kept { IsKept self.old }
        requires read { WasRead (placed_of self.old) }
        ensures { IfOk result (λ fault. IsAdded (placed_of self.old) (record { text = text.now; lines = lines.now }) fault self.new) }
    {
        if self.count == MAX_STATEMENTS {
            return Ok(Some(FaultName::TooManyStatements));
        }
        let member = &mut self.members[self.at];
        member.count += 1;
        self.phase.push(Statement {
            session: member.name.copy(alloc)?,
            number: member.count,
            text: owned(alloc, text)?,
            lines: owned(alloc, lines)?,
        })?;
        self.count += 1;
        Ok(None)
    }

    /// The script, whose last phase ends.
    pub fn into_script(self) -> Result<Script, AllocError>
        ensures { IfOk result (λ script. script ≡ script_of (placed_of self)) }
    {
        let SoFar {
            names,
            mut ended,
            phase,
            ..
        } = self;
        ended.push(phase)?;
        Ok(Script {
            sessions: names,
            phases: ended,
        })
    }

    // One more session, which is that of what follows.
    fn add_session(&mut self, alloc: Global, name: &[u8]) -> Result<(), AllocError>
        ensures names { IfOk result (λ _. self.new.names ≡ self.old.names ++ name.now ∷ []) }
        ensures members { IfOk result (λ _. self.new.members.items ≡ self.old.members.items ++ (record { name = name.now; count = 0 }) ∷ []) }
        ensures at { IfOk result (λ _. self.new.at ≡ length self.old.names) }
        ensures ended { self.new.ended ≡ self.old.ended }
        ensures phase { self.new.phase ≡ self.old.phase }
        ensures count { self.new.count ≡ self.old.count }
    {
        let shared = SessionName::new(alloc, owned(alloc, name)?)?;
        self.at = self.names.len();
        self.names.push(owned(alloc, name)?)?;
        self.members.push(Member {
            name: shared,
            count: 0,
        })?;
        Ok(())
    }
}

// The place of a name.
fn place_of(names: &[Bytes], name: &[u8]) -> Option<usize>
    ensures { result ≡ position (λ other. same_name other name.now) names.now }
{
    names.iter().position(|other| other.as_slice() == name)
}

// The bytes, in memory of their own.
fn owned(alloc: Global, bytes: &[u8]) -> Result<Bytes, AllocError>
    ensures { IfOk result (λ copy. copy ≡ bytes.now) }
{
    Ok(Listed::from_vec(Vec::from_slice(alloc, bytes)?))
}
