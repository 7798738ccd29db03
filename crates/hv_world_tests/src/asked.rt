// Scripts of three sessions and two tables, as what each statement asks.
use std::alloc::Global;
use std::test::Fail;

/// What a statement asks of a table, which is named by its number.
#[derive(Clone, Copy, Debug)]
pub enum Ask {
    Create,
    /// An import of rows of one number, from `first` on.
    Import { first: u32, rows: u32 },
    /// An import of one row that has no number.
    Misspelled,
    Purge { chunk: u32 },
    Select,
    /// No statement.
    Broken,
}

/// A statement: its session by its place, its number there, how many barriers stand before it, its table and what it asks.
#[derive(Clone, Copy, Debug)]
pub struct Asked {
    pub session: u32,
    pub number: u32,
    pub phase: u32,
    pub table: u32,
    pub ask: Ask,
}

/// The names of the sessions, by their places.
pub fn session_name(session: u32) -> &'static str {
    match session {
        0 => "main",
        1 => "s1",
        _ => "s2",
    }
}

/// The names of the tables, by their numbers.
pub fn table_name(table: u32) -> &'static str {
    if table == 0 { "t" } else { "u" }
}

/// The script of statements that stand by their phases.
pub fn script_of(alloc: Global, asked: &[Asked]) -> Result<String, Fail> {
    let mut text = String::new(alloc);
    writeln!(text, "SESSION s1;\nSESSION s2;")?;
    let mut phase = 0;
    for statement in asked {
        if statement.phase != phase {
            writeln!(text, "BARRIER;")?;
            phase = statement.phase;
        }
        writeln!(text, "SESSION {};", session_name(statement.session))?;
        put_ask(&mut text, table_name(statement.table), statement.ask)?;
    }
    Ok(text)
}

// Puts a statement, and the lines that it takes.
fn put_ask(text: &mut String, table: &str, ask: Ask) -> Result<(), Fail> {
    match ask {
        Ask::Create => writeln!(text, "CREATE TABLE {table} (a INT);")?,
        Ask::Import { first, rows } => put_import(text, table, first, rows)?,
        Ask::Misspelled => writeln!(text, "IMPORT INTO {table} LINES 1;\nx")?,
        Ask::Purge { chunk } => writeln!(text, "PURGE CHUNK {chunk} OF {table};")?,
        Ask::Select => writeln!(text, "SELECT a FROM {table};")?,
        Ask::Broken => writeln!(text, "SELEC a FROM {table};")?,
    }
    Ok(())
}

fn put_import(text: &mut String, table: &str, first: u32, rows: u32) -> Result<(), Fail> {
    writeln!(text, "IMPORT INTO {table} LINES {rows};")?;
    for number in first..first.saturating_add(rows) {
        writeln!(text, "{number}")?;
    }
    Ok(())
}
