// What a run tells.
use hv_model::{Entries, Replies};
use hv_row::{Bytes, Listed};

/// How much a run had under way: `tasks` is the most tasks of one query that were live or lent at one time, `reads` the most
/// reads that one port had under way at one time, and `submits` the number of reads submitted, summed over the ports.
#[derive(Debug, Clone, Copy, PartialEq, Eq)]
pub struct Stats {
    pub tasks: u32,
    pub reads: u32,
    pub submits: u64,
}

/// A session and its replies, which stand by the numbers of its statements from 1.
#[derive(Debug, Drop)]
pub struct SessionReport {
    pub name: Bytes,
    pub replies: Replies,
}

/// Sessions in the order in which they are first named.
pub type SessionReports = Listed<SessionReport>;

/// What a run tells: its sessions' replies, the history, and the statistics where they are asked for.
#[derive(Debug, Drop)]
pub struct Report {
    pub sessions: SessionReports,
    pub history: Entries,
    pub stats: Option<Stats>,
}
