// Whether a report is one that the definitions allow, told by a plain reading of it.
use crate::asked::{Ask, Asked, session_name, table_name};
use crate::plain::{asked_by, front, made, numbers, refusal};
use hv_model::{Cell, Detail, Entry, Failure, OutRow, Reply};
use hv_report::{Report, SessionReport};
use std::alloc::{AllocError, Global};

/// The reply to a statement.
pub fn reply_to<'a>(report: &'a Report, statement: &Asked) -> Option<&'a Reply> {
    let session = report.sessions.as_slice().get(statement.session as usize)?;
    let place = statement.number.checked_sub(1)?;
    session.replies.as_slice().get(place as usize)
}

/// The length that a reply tells.
pub fn told_at(reply: &Reply) -> u32 {
    match reply {
        Reply::Done { at, .. }
        | Reply::Rows { at, .. }
        | Reply::Refused { at, .. }
        | Reply::Failed { at, .. } => *at,
    }
}

/// Whether each session has its name and a reply for each of its statements, each reply is right over the entries that it tells, the numbers
/// of a session and of phases rise, and each entry is the one of its statement.
pub fn is_allowed(alloc: Global, asked: &[Asked], report: &Report) -> Result<bool, AllocError> {
    let mut allowed = are_sessions(asked, report.sessions.as_slice())
        && are_entries(asked, report)
        && rise(asked, report);
    for statement in asked {
        allowed = allowed && is_answered(alloc, asked, report, statement)?;
    }
    Ok(allowed)
}

fn are_sessions(asked: &[Asked], sessions: &[SessionReport]) -> bool {
    sessions.len() == 3
        && (0_u32..)
            .zip(sessions)
            .all(|(place, session)| is_session(asked, place, session))
}

fn is_session(asked: &[Asked], place: u32, session: &SessionReport) -> bool {
    let mut count = 0_usize;
    for statement in asked {
        if statement.session == place {
            count = count.saturating_add(1);
        }
    }
    session.name.as_slice() == session_name(place).as_bytes() && session.replies.len() == count
}

// Each entry names a statement whose reply tells it as the last one.
fn are_entries(asked: &[Asked], report: &Report) -> bool {
    (1_u32..)
        .zip(report.history.as_slice())
        .all(|(at, entry)| is_entry(asked, report, at, entry))
}

fn is_entry(asked: &[Asked], report: &Report, place: u32, entry: &Entry) -> bool {
    match asked_by(asked, entry).and_then(|statement| reply_to(report, statement)) {
        Some(Reply::Done { at, .. }) => *at == place,
        _ => false,
    }
}

// A number is at least that of each statement before it in its session, and each length at a barrier before it.
fn rise(asked: &[Asked], report: &Report) -> bool {
    asked
        .iter()
        .all(|statement| rises(asked, report, statement))
}

fn rises(asked: &[Asked], report: &Report, statement: &Asked) -> bool {
    let Some(reply) = reply_to(report, statement) else {
        return false;
    };
    let at = told_at(reply);
    at as usize <= report.history.len()
        && asked
            .iter()
            .filter(|before| is_before(before, statement))
            .all(|before| is_told_by(report, before, at))
}

fn is_before(before: &Asked, statement: &Asked) -> bool {
    before.phase < statement.phase
        || (before.session == statement.session && before.number < statement.number)
}

fn is_told_by(report: &Report, before: &Asked, at: u32) -> bool {
    match reply_to(report, before) {
        Some(reply) => told_at(reply) <= at,
        None => false,
    }
}

// Whether the reply to a statement is right over the entries that it tells.
fn is_answered(
    alloc: Global,
    asked: &[Asked],
    report: &Report,
    statement: &Asked,
) -> Result<bool, AllocError> {
    let Some(reply) = reply_to(report, statement) else {
        return Ok(false);
    };
    let Some(entries) = front(report.history.as_slice(), told_at(reply)) else {
        return Ok(false);
    };
    match reply {
        Reply::Done { what, .. } => Ok(is_done(entries, statement, what)),
        Reply::Rows { rows, .. } => are_rows(alloc, asked, entries, statement, rows.as_slice()),
        Reply::Refused { cause, .. } => Ok(refusal(entries, statement) == Some(*cause)),
        Reply::Failed { cause, .. } => Ok(
            refusal(entries, statement).is_none() && may_fail(statement.ask, *cause),
        ),
    }
}

// Whether the last entry is that of a statement which the database before it accepts.
fn is_done(entries: &[Entry], statement: &Asked, what: &Detail) -> bool {
    match entries.split_last() {
        Some((entry, before)) => {
            refusal(before, statement).is_none()
                && entry.number == statement.number
                && entry.session.as_slice() == session_name(statement.session).as_bytes()
                && is_detail(before, statement, &entry.what)
                && is_detail(before, statement, what)
        }
        None => false,
    }
}

fn is_detail(before: &[Entry], statement: &Asked, what: &Detail) -> bool {
    let name = table_name(statement.table).as_bytes();
    match (statement.ask, what) {
        (Ask::Create, Detail::Create { table }) => table.as_slice() == name,
        (Ask::Import { rows: wanted, .. }, Detail::Import { table, chunk, rows }) => {
            table.as_slice() == name && *rows == wanted && *chunk == made(before).saturating_add(1)
        }
        (Ask::Purge { chunk: wanted }, Detail::Purge { table, chunk }) => {
            table.as_slice() == name && *chunk == wanted
        }
        _ => false,
    }
}

// Whether these are the rows of the table over the entries, in any order.
fn are_rows(
    alloc: Global,
    asked: &[Asked],
    entries: &[Entry],
    statement: &Asked,
    rows: &[OutRow],
) -> Result<bool, AllocError> {
    let wanted = numbers(alloc, asked, entries, statement.table)?;
    let mut got = Vec::new(alloc);
    for row in rows {
        if let [Cell::Num(number)] = row.as_slice() {
            got.push(*number)?;
        }
    }
    got.sort_unstable();
    Ok(
        matches!(statement.ask, Ask::Select)
            && refusal(entries, statement).is_none()
            && got.len() == rows.len()
            && got.as_slice() == wanted.as_slice(),
    )
}

// A read fails of a query alone, and a write of an import.
fn may_fail(ask: Ask, cause: Failure) -> bool {
    match ask {
        Ask::Select => cause == Failure::Read,
        Ask::Import { .. } => cause == Failure::Write,
        _ => false,
    }
}
