// A script: phases of statements, each of a session.
use crate::session_name::SessionName;
use hv_row::{Bytes, Listed};

/// A statement: its session, its number there from 1, its text, and the data lines that it takes.
#[derive(Debug, Drop)]
pub struct Statement {
    pub session: SessionName,
    pub number: u32,
    pub text: Bytes,
    pub lines: Bytes,
}

/// The statements of a phase, in the order of the text.
pub type Phase = Listed<Statement>;

/// Phases in the order of the text.
pub type Phases = Listed<Phase>;

/// The names of sessions, in the order in which they are first named.
pub type SessionNames = Listed<Bytes>;

/// A script without a fault: `main` is the first of its sessions.
#[derive(Debug, Drop)]
pub struct Script {
    pub sessions: SessionNames,
    pub phases: Phases,
}

/// What is wrong with a script.
#[derive(Debug, Clone, Copy, PartialEq, Eq)]
pub enum FaultName {
    /// It has more than 67,108,864 bytes.
    TooLong,
    /// Its bytes are no UTF-8.
    NotUtf8,
    /// A statement with text has no ending `;`.
    Unended,
    /// An import wants more than 1,000,000 lines.
    LongImport,
    /// Fewer lines follow an import than it takes.
    ShortImport,
    /// It names more than 64 sessions.
    TooManySessions,
    /// It has more than 1,000,000 statements, of all sessions together.
    TooManyStatements,
}

/// The first fault of a script, and the byte at which it is reported, from the script's first byte.
#[derive(Debug, Clone, Copy, PartialEq, Eq)]
pub struct ScriptFault {
    pub name: FaultName,
    pub byte: u32,
}
