// What the tests share: tables of one column of numbers, chunks of the numbers from 0 on, and commands told by cases.
ghost use Rattle.std.specs.Prelude.{◌≡◌, [], Some};
ghost use Rattle.hv_row.specs.Row.{RowFits};
ghost use Rattle.hv_model.specs.declared.catalogue.Table.{Table};
ghost use Rattle.hv_model.specs.Command.{table_named};
ghost use Rattle.hv_view.specs.View.{IsBuilt};

use hv_catalogue::{ApplyFault, Catalogue, ChunkCommand, SnapFault};
use hv_chunk::{Chunk, ChunkBuilder};
use hv_dev::PageSink;
use hv_model::{Detail, Entry, SessionName};
use hv_row::{Bytes, ColType, Column, Columns, Copied, Row, Schema, Shared, Value, row_fits};
use hv_view::ChunkView;
use std::alloc::Global;
use std::process::Abort;

/// What is asked of a catalogue; a table is named by one byte.
#[derive(Clone, Copy, Debug)]
pub enum Step {
    Create(u8),
    /// A chunk of so many rows.
    Import(u8, u16),
    Purge(u8, u64),
}

/// A statement of a session, whose name is one byte, and what it is told.
#[derive(Clone, Copy, Debug)]
pub struct Case {
    pub session: u8,
    pub number: u32,
    pub step: Step,
    pub told: Result<u32, ApplyFault>,
}

/// What an entry of the history has to say.
#[derive(Clone, Copy, Debug)]
pub enum Did {
    Create(u8),
    /// A chunk of this number, of so many rows.
    Import(u8, u32, u32),
    Purge(u8, u32),
}

/// The name of one byte.
pub fn name_of(rt: &impl Abort, alloc: Global, byte: u8) -> Bytes {
    Bytes::from_slice(alloc, &[byte]).expect(rt, "a name")
}

/// The schema of one column of numbers.
pub fn numbers(rt: &impl Abort, alloc: Global) -> Schema {
    let column = Column::plain(alloc, b"a", ColType::Int).expect(rt, "a column");
    let mut columns = Columns::new(alloc);
    columns.push(column).expect(rt, "room for a column");
    Schema::checked(columns).expect(rt, "a schema")
}

// The schema of the table of a name, where it stands.
fn schema_in<C: ChunkView>(
    rt: &impl Abort,
    alloc: Global,
    catalogue: &Catalogue<C>,
    name: &Bytes,
) -> Schema
    ensures { (t : Table C) → table_named catalogue.now.database name.now ≡ Some t → result ≡ t.schema }
{
    let names = [name.copy(alloc).expect(rt, "a name's copy")];
    match catalogue.snapshot(alloc, &names) {
        Ok(taken) => {
            let head = taken.heads.get(0).expect(rt, "a head");
            head.schema.copy(alloc).expect(rt, "a schema's copy")
        }
        Err(SnapFault::NoTable { .. }) => numbers(rt, alloc),
        Err(SnapFault::Memory) => rt.panic("no snapshot"),
    }
}

// A row of one number, which fits the schema.
fn row_of(rt: &impl Abort, alloc: Global, schema: &Schema, number: u16) -> Row
    ensures { RowFits schema.now result }
{
    let mut row = Row::new(alloc);
    let value = Value::Int(i64::from(number));
    row.push(value).expect(rt, "room for a value");
    assert!(rt; row_fits(row.as_slice(), schema.columns()));
    row
}

// A chunk of so many rows.
fn chunk_of<P: PageSink>(
    rt: &impl Abort,
    alloc: Global,
    port: &mut P,
    schema: &Schema,
    count: u16,
) -> Chunk<P::File>
    requires { P.written port.old ≡ Some [] }
    ensures open { P.written port.new ≡ Some [] }
    ensures built { IsBuilt P.File.tells P.File.pages schema.now result.rows result }
{
    let schema_copy = schema.copy(alloc).expect(rt, "a schema's copy");
    let mut builder = ChunkBuilder::new(alloc, schema_copy).expect(rt, "a builder");
    for number in 0..count {
        let row = row_of(rt, alloc, schema, number);
        builder.push(alloc, row, port).expect(rt, "a row more");
    }
    builder.finish(alloc, port).expect(rt, "a chunk")
}

// Imports a chunk of so many rows under the schema of its table.
fn import<P: PageSink>(
    rt: &impl Abort,
    alloc: Global,
    port: &mut P,
    catalogue: &mut Catalogue<Chunk<P::File>>,
    session: &SessionName,
    number: u32,
    table: Bytes,
    rows: u16,
) -> Result<u32, ApplyFault>
    requires { P.written port.old ≡ Some [] }
    ensures { P.written port.new ≡ Some [] }
{
    let schema = schema_in(rt, alloc, catalogue, &table);
    let chunk = chunk_of(rt, alloc, port, &schema, rows);
    let chunk = Shared::new(alloc, chunk).expect(rt, "a shared chunk");
    let command = ChunkCommand::Import { table, chunk };
    catalogue.apply(alloc, session, number, command)
}

/// Asks a step of a session's statement.
pub fn ask<P: PageSink>(
    rt: &impl Abort,
    alloc: Global,
    port: &mut P,
    catalogue: &mut Catalogue<Chunk<P::File>>,
    session: u8,
    number: u32,
    step: Step,
) -> Result<u32, ApplyFault>
    requires { P.written port.old ≡ Some [] }
    ensures { P.written port.new ≡ Some [] }
{
    let name = name_of(rt, alloc, session);
    let session = SessionName::new(alloc, name).expect(rt, "a session's name");
    match step {
        Step::Create(table) => {
            let table = name_of(rt, alloc, table);
            let schema = numbers(rt, alloc);
            let command = ChunkCommand::Create { table, schema };
            catalogue.apply(alloc, &session, number, command)
        }
        Step::Import(table, rows) => {
            let table = name_of(rt, alloc, table);
            import(rt, alloc, port, catalogue, &session, number, table, rows)
        }
        Step::Purge(table, chunk) => {
            let table = name_of(rt, alloc, table);
            let command = ChunkCommand::Purge { table, chunk };
            catalogue.apply(alloc, &session, number, command)
        }
    }
}

/// Asks each case in turn, and compares what is told.
pub fn ask_all<P: PageSink>(
    rt: &impl Abort,
    alloc: Global,
    port: &mut P,
    catalogue: &mut Catalogue<Chunk<P::File>>,
    cases: &[Case],
)
    requires { P.written port.old ≡ Some [] }
    ensures { P.written port.new ≡ Some [] }
{
    for case in cases {
        let Case {
            session,
            number,
            step,
            told,
        } = *case;
        let answer = ask(rt, alloc, port, catalogue, session, number, step);
        assert!(rt; answer == told, "{step:?}: {answer:?}");
    }
}

/// Whether an entry is that of a session's statement, and says this.
pub fn is_entry(entry: &Entry, session: u8, number: u32, did: Did) -> bool {
    let is_said = match (&entry.what, did) {
        (Detail::Create { table }, Did::Create(name)) => table.as_slice() == [name].as_slice(),
        (Detail::Import { table, chunk, rows }, Did::Import(name, wanted, count)) => {
            table.as_slice() == [name].as_slice() && *chunk == wanted && *rows == count
        }
        (Detail::Purge { table, chunk }, Did::Purge(name, wanted)) => {
            table.as_slice() == [name].as_slice() && *chunk == wanted
        }
        _ => false,
    };
    is_said && entry.session.as_slice() == [session].as_slice() && entry.number == number
}
