// The catalogue: tables of chunks of rows, and the commands that change it.
use crate::session_name::SessionName;
use hv_row::{Bytes, Copied, Listed, Schema};
use std::alloc::{AllocError, Global};

/// A chunk: its number, which no other chunk ever has, and its content: its rows in order, say, or how many they are.
/// No code builds one: definitions and contracts speak of it.
#[derive(Debug, Drop)]
pub struct Chunk<C> {
    pub number: u32,
    pub content: C,
}

/// Chunks in a table's order.
pub type Chunks<C> = Listed<Chunk<C>>;

/// A table: its name, its schema, and its chunks in order. No code builds one, as no `Chunk`.
#[derive(Debug, Drop)]
pub struct Table<C> {
    pub name: Bytes,
    pub schema: Schema,
    pub chunks: Chunks<C>,
}

/// Tables in order of creation.
pub type Tables<C> = Listed<Table<C>>;

/// What a query has to know of a table: its number, which is its place in the order of creation, from 0; its name and its schema.
#[derive(Debug, Drop)]
pub struct TableHead {
    pub number: u32,
    pub name: Bytes,
    pub schema: Schema,
}

impl Copied for TableHead {
    fn copy(&self, alloc: Global) -> Result<TableHead, AllocError> {
        Ok(TableHead {
            number: self.number,
            name: self.name.copy(alloc)?,
            schema: self.schema.copy(alloc)?,
        })
    }
}

/// A database: its tables, how many chunks were ever made, and how many commands were accepted. No code builds one, as no `Chunk`.
#[derive(Debug, Drop)]
pub struct Database<C> {
    pub tables: Tables<C>,
    pub made: u32,
    pub length: u32,
}

/// A command that changes the catalogue; an import brings the content of its chunk. No code builds one, as no `Chunk`.
#[derive(Debug, Drop)]
pub enum Command<C> {
    Create { table: Bytes, schema: Schema },
    Import { table: Bytes, content: C },
    Purge { table: Bytes, chunk: u64 },
}

/// Why a database doesn't accept a command.
#[derive(Debug, Clone, Copy, PartialEq, Eq)]
pub enum StepRefusal {
    /// A table of this name stands.
    TableExists,
    /// As many tables stand as a database has.
    TooManyTables,
    /// No table of this name stands.
    NoTable,
    /// The table has as many chunks as a table has.
    TooManyChunks,
    /// The table has no chunk of this number.
    NoChunk { chunk: u64 },
    /// The history has as many entries as a history has.
    HistoryFull,
}

/// What an accepted command did.
#[derive(Debug, Drop)]
pub enum Detail {
    Create { table: Bytes },
    Import { table: Bytes, chunk: u32, rows: u32 },
    Purge { table: Bytes, chunk: u32 },
}

/// An entry of the history: the statement, by its session and its number there, and what it did.
#[derive(Debug, Drop)]
pub struct Entry {
    pub session: SessionName,
    pub number: u32,
    pub what: Detail,
}

/// The entries of a history, in order of commit.
pub type Entries = Listed<Entry>;
