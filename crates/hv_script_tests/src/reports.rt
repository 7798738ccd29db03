// Reports that the tests are about, and their bytes.
use hv_io::MemSink;
use hv_model::{
    Cell, Detail, Entries, Entry, Failure, OutRow, OutRows, Replies, Reply, SessionName,
};
use hv_report::{Report, SessionReport, SessionReports, Stats, write_report};
use hv_row::Bytes;
use std::alloc::{AllocError, Global};

fn session(alloc: Global, name: &[u8], replies: Replies) -> Result<SessionReport, AllocError> {
    Ok(SessionReport {
        name: Bytes::from_slice(alloc, name)?,
        replies,
    })
}

// A session of these replies, and one without a reply behind it.
pub fn report(alloc: Global, replies: Replies) -> Result<Report, AllocError> {
    let mut sessions = SessionReports::new(alloc);
    sessions.push(session(alloc, b"main", replies)?)?;
    sessions.push(session(alloc, b"idle", Replies::new(alloc))?)?;
    Ok(Report {
        sessions,
        history: Entries::new(alloc),
        stats: None,
    })
}

// A report on one statement.
pub fn report_on(alloc: Global, reply: Reply) -> Result<Report, AllocError> {
    let mut replies = Replies::new(alloc);
    replies.push(reply)?;
    report(alloc, replies)
}

pub fn created(alloc: Global) -> Result<Detail, AllocError> {
    Ok(Detail::Create {
        table: Bytes::from_slice(alloc, b"t")?,
    })
}

pub fn imported(alloc: Global) -> Result<Detail, AllocError> {
    Ok(Detail::Import {
        table: Bytes::from_slice(alloc, b"t")?,
        chunk: 1,
        rows: 4_294_967_295,
    })
}

pub fn purged(alloc: Global) -> Result<Detail, AllocError> {
    Ok(Detail::Purge {
        table: Bytes::from_slice(alloc, b"t")?,
        chunk: 4_294_967_295,
    })
}

pub fn row(alloc: Global, number: i128, text: &[u8]) -> Result<OutRow, AllocError> {
    let mut row = OutRow::new(alloc);
    row.push(Cell::Num(number))?;
    row.push(Cell::Txt(Bytes::from_slice(alloc, text)?))?;
    Ok(row)
}

// The bytes of a report, by a sink that takes at most 5 a call.
pub fn bytes_of(alloc: Global, report: &Report) -> Vec<u8> {
    let mut sink = MemSink::new(alloc, 5, None);
    let _ = write_report(&mut sink, report);
    sink.into_vec()
}

// A reply of each kind but a refusal.
fn replies(alloc: Global) -> Result<Replies, AllocError> {
    let mut replies = Replies::new(alloc);
    replies.push(Reply::Done {
        at: 1,
        what: created(alloc)?,
    })?;
    replies.push(Reply::Failed {
        at: 1,
        cause: Failure::Memory,
    })?;
    replies.push(Reply::Rows {
        at: 1,
        rows: OutRows::new(alloc),
    })?;
    Ok(replies)
}

fn entry(alloc: Global, session: &[u8], number: u32, what: Detail) -> Result<Entry, AllocError> {
    Ok(Entry {
        session: SessionName::new(alloc, Bytes::from_slice(alloc, session)?)?,
        number,
        what,
    })
}

fn history(alloc: Global) -> Result<Entries, AllocError> {
    let mut history = Entries::new(alloc);
    history.push(entry(alloc, b"main", 1, created(alloc)?)?)?;
    history.push(entry(alloc, b"idle", 4_294_967_295, imported(alloc)?)?)?;
    history.push(entry(alloc, b"idle", 2, purged(alloc)?)?)?;
    Ok(history)
}

// A report with all its parts.
pub fn whole(alloc: Global) -> Result<Report, AllocError> {
    let mut told = report(alloc, replies(alloc)?)?;
    told.history = history(alloc)?;
    told.stats = Some(Stats {
        tasks: 1,
        reads: 20,
        submits: 18_446_744_073_709_551_615,
    });
    Ok(told)
}

// Its bytes.
pub const WHOLE: &str = "session main\n\
    1 ok @1 create t\n\
    2 failed @1 memory\n\
    3 rows @1 0\n\
    history 3\n\
    1 main 1 create t\n\
    2 idle 4294967295 import t chunk 1 rows 4294967295\n\
    3 idle 2 purge t chunk 4294967295\n\
    stats tasks 1 reads 20 submits 18446744073709551615\n";
