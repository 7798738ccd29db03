// The catalogue.
ghost use Rattle.std.specs.Prelude.{◌≡◌, ℕ, ◌+◌, ◌<◌, ◌≤◌, [], ◌∷◌, ◌++◌, nat_le, length, slice_get, Some, None, true, false, IfOk, IfErr, IfSome, OnErr, OnOk, MatchOption};
ghost use Rattle.hv_model.specs.declared.catalogue.Table.{Table};
ghost use Rattle.hv_model.specs.declared.catalogue.Command.TheVariants as command;
ghost use Rattle.hv_model.specs.declared.catalogue.Detail.TheVariants as detail;
ghost use Rattle.hv_model.specs.Causes.{first_of};
ghost use Rattle.hv_view.specs.View.{IsBuilt};
ghost use Rattle.hv_model.specs.Command.{table_named};
ghost use Rattle.hv_model.specs.Selected.{head_of};
ghost use Rattle.hv_model.specs.Database.{most_entries, empty_database, table_number, has_chunk, with_table, with_chunk, with_purged, create_causes, import_causes, purge_causes};
ghost use Rattle.hv_catalogue.specs.Holding.{AreBuilt, BringsBuilt, IsApplied, IsKept, IsStepped, IsUnapplied, IsTaken, IsUntaken, fault_at, first_unnamed, heads_named, held_named, held_table, meant};

use crate::command::{ApplyFault, ChunkCommand};
use crate::stored::{
    Stored, add_chunk, add_table, chunk_count, head_at, held_at, holds_chunk, number_of,
    remove_chunk, schema_at,
};
use crate::taken::{SnapFault, TableHeads, Taken};
use hv_model::{Detail, Entries, Entry, Refusal, SessionName, StepRefusal, TableHead};
use hv_row::{Bytes, Copied, Schema, Shared};
use hv_view::{ChunkView, HeldTable, HeldTables, Snapshot};
use indexmap::IndexMap;
use std::alloc::{AllocError, Global};
use std::marker::Model;

/// The most tables of a database: this project's own.
pub const MAX_TABLES: usize = 64;

/// The most chunks of a table: this project's own.
pub const MAX_CHUNKS: usize = 1_024;

/// The most entries of a history: this project's own.
pub const MAX_ENTRIES: u32 = 65_536;

/// Tables of chunks, and the history of the commands that made them. Contracts see the database of the chunks, and the history.
#[derive(Drop)]
pub struct Catalogue<C> {
    // By name, in order of creation.
    tables: IndexMap<Bytes, Stored<C>>,
    made: u32,
    entries: Vec<Entry>,
}

impl<C> Model for Catalogue<C> {
    ghost use Rattle.hv_catalogue.specs.Holding.{Holding, IsKept};
    ghost use Rattle.hv_catalogue.specs.Stored.{holding_of};

    ghost Value = { Holding C };

    ghost view = { λ c. holding_of c.tables.entries c.made c.entries.items };

    ghost invariant = { λ c. IsKept (holding_of c.tables.entries c.made c.entries.items) };
}

impl<C: ChunkView> Catalogue<C> {
    /// The catalogue without a table, with the memory for so many entries taken. `Err` only for want of memory.
    pub fn new(alloc: Global, entries: u32) -> Result<Catalogue<C>, AllocError>
        ensures { IfOk result (λ c. c ≡ record { database = empty_database; history = [] }) }
    {
        let entries = Vec::with_capacity(alloc, entries as usize)?;
        Ok(Catalogue {
            tables: IndexMap::new(alloc),
            made: 0,
            entries,
        })
    }

    /// Carries out a command of a session's statement, and adds its entry: the new length of the history. A refusal is the first in the
    /// order of the command's causes; each fault leaves all as it was. Whatever memory is wanted is taken before anything changes.
    pub fn apply(
        &mut self,
        alloc: Global,
        session: &SessionName,
        number: u32,
        command: ChunkCommand<C>,
    ) -> Result<u32, ApplyFault>
        requires built { BringsBuilt C.viewed C.File.tells C.File.pages self.old.database command }
        ensures applied { IfOk result (λ at. IsApplied (λ c. (C.viewed c).row_count) self.old self.new session.now number (meant command) at) }
        ensures cause { IfErr result (λ fault. IsUnapplied self.old (meant command) fault) }
        ensures unchanged { OnErr result (self.new ≡ self.old) }
        ensures built { AreBuilt C.viewed C.File.tells C.File.pages self.old.database → AreBuilt C.viewed C.File.tells C.File.pages self.new.database }
    {
        match command {
            ChunkCommand::Create { table, schema } => {
                self.create(alloc, session, number, table, schema)
            }
            ChunkCommand::Import { table, chunk } => {
                self.import(alloc, session, number, table, chunk)
            }
            ChunkCommand::Purge { table, chunk } => {
                self.purge(alloc, session, number, table, chunk)
            }
        }
    }

    /// The tables of these names, at most four, at the present length: their heads and their chunks.
    pub fn snapshot(&self, alloc: Global, names: &[Bytes]) -> Result<Taken<C>, SnapFault>
        requires few { length names.now ≤ 4 }
        ensures taken { IfOk result (λ taken. IsTaken self.now names.now taken) }
        ensures cause { IfErr result (λ fault. IsUntaken self.now names.now fault) }
    {
        let at = self.length();
        if let Some(place) = self.first_unnamed(names) {
            return Err(SnapFault::NoTable {
                place: place as u8,
                at,
            });
        }
        Ok(self.taken(alloc, names)?)
    }

    /// How many entries the history has. Takes no memory.
    pub fn length(&self) -> u32
        ensures history { result ≡ length self.now.history }
        ensures database { result ≡ self.now.database.length }
        ensures kept { IsKept self.now }
    {
        self.entries.len() as u32
    }

    /// How many chunks were ever made, over all tables: the number of the last. Takes no memory.
    pub fn made(&self) -> u32
        ensures { result ≡ self.now.database.made }
    {
        self.made
    }

    /// The schema of the table of a name, where one stands. Takes no memory.
    pub fn schema(&self, name: &Bytes) -> Option<&Schema>
        ensures { MatchOption result (table_named self.now.database name.now ≡ None) (λ schema. (t : Table C) × (table_named self.now.database name.now ≡ Some t) × (schema.now ≡ t.schema)) }
    {
        let at = self.number(name)?;
        Some(schema_at(&self.tables, at))
    }

    /// The history. Takes no memory.
    pub fn history(self) -> Entries
        ensures { result ≡ self.history }
    {
        let Catalogue {
            tables: _tables,
            made: _made,
            entries,
        } = self;
        Entries::from_vec(entries)
    }

    // Why no further command is taken, whatever it is.
    fn is_full(&self) -> bool
        ensures { result ≡ nat_le most_entries self.now.database.length }
    {
        self.length() >= MAX_ENTRIES
    }

    fn table_count(&self) -> usize
        ensures { result ≡ length self.now.database.tables }
    {
        self.tables.len()
    }

    // The number of the table of a name.
    fn number(&self, name: &Bytes) -> Option<usize>
        ensures number { result ≡ table_number self.now.database name.now }
        ensures within { IfSome result (λ at. at < length self.now.database.tables) }
    {
        number_of(&self.tables, name)
    }

    // How many chunks the table of a number has.
    fn chunk_count(&self, at: usize) -> usize
        requires { at < length self.now.database.tables }
        ensures { (t : Table C) → slice_get self.now.database.tables at ≡ Some t → result ≡ length t.chunks }
    {
        chunk_count(&self.tables, at)
    }

    // The number as that of a chunk, where the table of a number has it.
    fn chunk_number(&self, at: usize, chunk: u64) -> Option<u32>
        requires { at < length self.now.database.tables }
        ensures { (t : Table C) → slice_get self.now.database.tables at ≡ Some t → MatchOption result (has_chunk chunk t ≡ false) (λ number. (number ≡ chunk) × (has_chunk chunk t ≡ true)) }
    {
        if chunk > self.made as u64 {
            return None;
        }
        let number = chunk as u32;
        if holds_chunk(&self.tables, at, number) {
            Some(number)
        } else {
            None
        }
    }

    // Why no table of this name is made, the first reason first.
    fn create_cause(&self, name: &Bytes) -> Option<StepRefusal>
        ensures { result ≡ first_of (create_causes name.now self.now.database) }
    {
        if self.number(name).is_some() {
            return Some(StepRefusal::TableExists);
        }
        if self.table_count() >= MAX_TABLES {
            return Some(StepRefusal::TooManyTables);
        }
        if self.is_full() {
            return Some(StepRefusal::HistoryFull);
        }
        None
    }

    // Why no chunk is added to the table of a number, the first reason first.
    fn import_cause(&self, at: usize) -> Option<StepRefusal>
        requires { at < length self.now.database.tables }
        ensures { (t : Table C) → slice_get self.now.database.tables at ≡ Some t → result ≡ first_of (import_causes t self.now.database) }
    {
        if self.chunk_count(at) >= MAX_CHUNKS {
            return Some(StepRefusal::TooManyChunks);
        }
        if self.is_full() {
            return Some(StepRefusal::HistoryFull);
        }
        None
    }

    fn create(
        &mut self,
        alloc: Global,
        session: &SessionName,
        number: u32,
        table: Bytes,
        schema: Schema,
    ) -> Result<u32, ApplyFault>
        ensures applied { IfOk result (λ at. IsApplied (λ c. (C.viewed c).row_count) self.old self.new session.now number (command.Create table schema) at) }
        ensures cause { IfErr result (λ fault. IsUnapplied self.old (command.Create table schema) fault) }
        ensures unchanged { OnErr result (self.new ≡ self.old) }
        ensures built { AreBuilt C.viewed C.File.tells C.File.pages self.old.database → AreBuilt C.viewed C.File.tells C.File.pages self.new.database }
    {
        if let Some(cause) = self.create_cause(&table) {
            return Err(fault_of(self.length(), cause));
        }
        self.put_table(alloc, session, number, table, schema)?;
        Ok(self.length())
    }

    fn import(
        &mut self,
        alloc: Global,
        session: &SessionName,
        number: u32,
        table: Bytes,
        chunk: Shared<C>,
    ) -> Result<u32, ApplyFault>
        requires built { (t : Table C) → table_named self.old.database table ≡ Some t → IsBuilt C.File.tells C.File.pages t.schema (C.viewed chunk).rows (C.viewed chunk) }
        ensures applied { IfOk result (λ at. IsApplied (λ c. (C.viewed c).row_count) self.old self.new session.now number (command.Import table chunk) at) }
        ensures cause { IfErr result (λ fault. IsUnapplied self.old (command.Import table chunk) fault) }
        ensures unchanged { OnErr result (self.new ≡ self.old) }
        ensures built { AreBuilt C.viewed C.File.tells C.File.pages self.old.database → AreBuilt C.viewed C.File.tells C.File.pages self.new.database }
    {
        let Some(at) = self.number(&table) else {
            return Err(ApplyFault::NoTable { at: self.length() });
        };
        if let Some(cause) = self.import_cause(at) {
            return Err(fault_of(self.length(), cause));
        }
        self.put_chunk(alloc, session, number, at, table, chunk)?;
        Ok(self.length())
    }

    fn purge(
        &mut self,
        alloc: Global,
        session: &SessionName,
        number: u32,
        table: Bytes,
        chunk: u64,
    ) -> Result<u32, ApplyFault>
        ensures applied { IfOk result (λ at. IsApplied (λ c. (C.viewed c).row_count) self.old self.new session.now number (command.Purge table chunk) at) }
        ensures cause { IfErr result (λ fault. IsUnapplied self.old (command.Purge table chunk) fault) }
        ensures unchanged { OnErr result (self.new ≡ self.old) }
        ensures built { AreBuilt C.viewed C.File.tells C.File.pages self.old.database → AreBuilt C.viewed C.File.tells C.File.pages self.new.database }
    {
        let Some(at) = self.number(&table) else {
            return Err(ApplyFault::NoTable { at: self.length() });
        };
        let Some(found) = self.chunk_number(at, chunk) else {
            return Err(fault_of(self.length(), StepRefusal::NoChunk { chunk }));
        };
        if self.is_full() {
            return Err(fault_of(self.length(), StepRefusal::HistoryFull));
        }
        self.take_chunk(alloc, session, number, at, table, found)?;
        Ok(self.length())
    }

    // Makes a table against which nothing stands, with its entry.
    fn put_table(
        &mut self,
        alloc: Global,
        session: &SessionName,
        number: u32,
        name: Bytes,
        schema: Schema,
    ) -> Result<(), AllocError>
        requires { first_of (create_causes name self.old.database) ≡ None }
        ensures ok { OnOk result (IsStepped self.old self.new (with_table name schema self.old.database) (record { session = session.now; number = number; what = detail.Create name })) }
        ensures err { OnErr result (self.new ≡ self.old) }
    {
        let what = Detail::Create {
            table: name.copy(alloc)?,
        };
        let entry = entry_of(alloc, session, number, what)?;
        self.entries.reserve(1)?;
        add_table(&mut self.tables, alloc, name, schema)?;
        self.entries.push_reserved(entry);
        Ok(())
    }

    // Adds a chunk against which nothing stands to the table of a number, with its entry.
    fn put_chunk(
        &mut self,
        alloc: Global,
        session: &SessionName,
        number: u32,
        at: usize,
        name: Bytes,
        chunk: Shared<C>,
    ) -> Result<(), AllocError>
        requires within { at < length self.old.database.tables }
        requires accepted { (t : Table C) → slice_get self.old.database.tables at ≡ Some t → first_of (import_causes t self.old.database) ≡ None }
        ensures ok { OnOk result ((t : Table C) → slice_get self.old.database.tables at ≡ Some t → IsStepped self.old self.new (with_chunk at t chunk self.old.database) (record { session = session.now; number = number; what = detail.Import name (self.old.database.made + 1) (C.viewed chunk).row_count })) }
        ensures err { OnErr result (self.new ≡ self.old) }
    {
        let made = self.made + 1;
        let what = Detail::Import {
            table: name,
            chunk: made,
            rows: chunk.get().row_count(),
        };
        let entry = entry_of(alloc, session, number, what)?;
        self.entries.reserve(1)?;
        add_chunk(&mut self.tables, at, made, chunk)?;
        self.made = made;
        self.entries.push_reserved(entry);
        Ok(())
    }

    // Takes a chunk that stands out of the table of a number, with the entry.
    fn take_chunk(
        &mut self,
        alloc: Global,
        session: &SessionName,
        number: u32,
        at: usize,
        name: Bytes,
        chunk: u32,
    ) -> Result<(), AllocError>
        requires within { at < length self.old.database.tables }
        requires accepted { (t : Table C) → slice_get self.old.database.tables at ≡ Some t → first_of (purge_causes t chunk self.old.database) ≡ None }
        ensures ok { OnOk result ((t : Table C) → slice_get self.old.database.tables at ≡ Some t → IsStepped self.old self.new (with_purged at t chunk self.old.database) (record { session = session.now; number = number; what = detail.Purge name chunk })) }
        ensures err { OnErr result (self.new ≡ self.old) }
    {
        let what = Detail::Purge { table: name, chunk };
        let entry = entry_of(alloc, session, number, what)?;
        self.entries.reserve(1)?;
        remove_chunk(&mut self.tables, at, chunk);
        self.entries.push_reserved(entry);
        Ok(())
    }

    // The place of the first of these names of which no table stands.
    fn first_unnamed(&self, names: &[Bytes]) -> Option<usize>
        ensures place { result ≡ first_unnamed self.now.database names.now }
        ensures within { IfSome result (λ place. place < length names.now) }
    {
        names.iter().position(|name| self.number(name).is_none())
    }

    // The tables of these names, each of which stands.
    fn taken(&self, alloc: Global, names: &[Bytes]) -> Result<Taken<C>, AllocError>
        requires { first_unnamed self.now.database names.now ≡ None }
        ensures { IfOk result (λ taken. IsTaken self.now names.now taken) }
    {
        let mut heads = TableHeads::with_capacity(alloc, names.len())?;
        let mut tables = HeldTables::with_capacity(alloc, names.len())?;
        for name in names {
            self.take_named(alloc, name, &mut heads, &mut tables)?;
        }
        Ok(Taken {
            at: self.length(),
            heads,
            view: Snapshot { tables },
        })
    }

    // Puts the table of this name behind the others, if it stands.
    fn take_named(
        &self,
        alloc: Global,
        name: &Bytes,
        heads: &mut TableHeads,
        tables: &mut HeldTables<C>,
    ) -> Result<(), AllocError>
        ensures heads { OnOk result (heads.new ≡ heads.old ++ heads_named self.now.database (name.now ∷ [])) }
        ensures tables { OnOk result (tables.new ≡ tables.old ++ held_named self.now.database (name.now ∷ [])) }
    {
        let Some(at) = self.number(name) else {
            return Ok(());
        };
        heads.push(self.head(alloc, at)?)?;
        tables.push(self.held(alloc, at)?)
    }

    fn head(&self, alloc: Global, at: usize) -> Result<TableHead, AllocError>
        requires { at < length self.now.database.tables }
        ensures { IfOk result (λ head. (t : Table C) → slice_get self.now.database.tables at ≡ Some t → head ≡ head_of at t) }
    {
        head_at(alloc, &self.tables, at)
    }

    fn held(&self, alloc: Global, at: usize) -> Result<HeldTable<C>, AllocError>
        requires { at < length self.now.database.tables }
        ensures { IfOk result (λ held. (t : Table C) → slice_get self.now.database.tables at ≡ Some t → held ≡ held_table t) }
    {
        held_at(alloc, &self.tables, at)
    }
}

// The entry of a session's statement.
fn entry_of(
    alloc: Global,
    session: &SessionName,
    number: u32,
    what: Detail,
) -> Result<Entry, AllocError>
    ensures { IfOk result (λ entry. entry ≡ record { session = session.now; number = number; what = what }) }
{
    Ok(Entry {
        session: session.copy(alloc)?,
        number,
        what,
    })
}

// The fault for a refusal, at this length of the history.
fn fault_of(at: u32, cause: StepRefusal) -> ApplyFault
    ensures { result ≡ fault_at at cause }
{
    let cause = match cause {
        StepRefusal::NoTable => return ApplyFault::NoTable { at },
        StepRefusal::TableExists => Refusal::TableExists,
        StepRefusal::TooManyTables => Refusal::TooManyTables,
        StepRefusal::TooManyChunks => Refusal::TooManyChunks,
        StepRefusal::NoChunk { chunk } => Refusal::NoChunk { chunk },
        StepRefusal::HistoryFull => Refusal::HistoryFull,
    };
    ApplyFault::Refused { at, cause }
}
