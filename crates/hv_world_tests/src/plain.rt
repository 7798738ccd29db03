// The database after each entry of a history, read of the entries alone.
use crate::asked::{Ask, Asked, session_name, table_name};
use hv_model::{Detail, Entry, Refusal};
use std::alloc::{AllocError, Global};

/// The entries up to a length.
pub fn front(history: &[Entry], at: u32) -> Option<&[Entry]> {
    history.get(..at as usize)
}

/// Whether a table stands.
pub fn stands(entries: &[Entry], table: u32) -> bool {
    entries.iter().any(|entry| creates(&entry.what, table))
}

fn creates(what: &Detail, table: u32) -> bool {
    match what {
        Detail::Create { table: name } => name.as_slice() == table_name(table).as_bytes(),
        _ => false,
    }
}

/// How many chunks were made.
pub fn made(entries: &[Entry]) -> u32 {
    let mut count = 0_u32;
    for entry in entries {
        if let Detail::Import { .. } = &entry.what {
            count = count.saturating_add(1);
        }
    }
    count
}

/// Whether a table has a chunk.
pub fn has(entries: &[Entry], table: u32, chunk: u32) -> bool {
    entries
        .iter()
        .any(|entry| imports(&entry.what, table, chunk))
        && !entries.iter().any(|entry| purges(&entry.what, chunk))
}

fn imports(what: &Detail, table: u32, number: u32) -> bool {
    match what {
        Detail::Import {
            table: name,
            chunk,
            ..
        } => *chunk == number && name.as_slice() == table_name(table).as_bytes(),
        _ => false,
    }
}

// No two chunks have one number.
fn purges(what: &Detail, number: u32) -> bool {
    match what {
        Detail::Purge { chunk, .. } => *chunk == number,
        _ => false,
    }
}

/// The statement that an entry names.
pub fn asked_by<'a>(asked: &'a [Asked], entry: &Entry) -> Option<&'a Asked> {
    asked.iter().find(|statement| {
        statement.number == entry.number
            && session_name(statement.session).as_bytes() == entry.session.as_slice()
    })
}

/// The numbers of a table's rows, sorted.
pub fn numbers(
    alloc: Global,
    asked: &[Asked],
    entries: &[Entry],
    table: u32,
) -> Result<Vec<i128>, AllocError> {
    let mut numbers = Vec::new(alloc);
    for entry in entries {
        if let Detail::Import { chunk, .. } = &entry.what
            && has(entries, table, *chunk)
            && let Some(statement) = asked_by(asked, entry)
        {
            put_numbers(&mut numbers, statement.ask)?;
        }
    }
    numbers.sort_unstable();
    Ok(numbers)
}

fn put_numbers(numbers: &mut Vec<i128>, ask: Ask) -> Result<(), AllocError> {
    if let Ask::Import { first, rows } = ask {
        for number in first..first.saturating_add(rows) {
            numbers.push(i128::from(number))?;
        }
    }
    Ok(())
}

/// Why a database refuses a statement, if it does.
pub fn refusal(entries: &[Entry], statement: &Asked) -> Option<Refusal> {
    let stands = stands(entries, statement.table);
    match statement.ask {
        Ask::Create => stands.then_some(Refusal::TableExists),
        Ask::Import { .. } => (!stands).then_some(Refusal::NoTable { byte: 12 }),
        Ask::Misspelled if stands => Some(Refusal::BadRow { row: 1, column: 1 }),
        Ask::Misspelled => Some(Refusal::NoTable { byte: 12 }),
        Ask::Purge { .. } if !stands => Some(Refusal::NoTable { byte: 17 }),
        Ask::Purge { chunk } => {
            (!has(entries, statement.table, chunk)).then_some(Refusal::NoChunk {
                chunk: u64::from(chunk),
            })
        }
        Ask::Select => (!stands).then_some(Refusal::NoTable { byte: 14 }),
        Ask::Broken => Some(Refusal::Syntax { byte: 0 }),
    }
}
