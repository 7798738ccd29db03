// The steps of an import.
ghost use Rattle.std.specs.Prelude.{◌≡◌, ℕ, List, Some, false, length, IfOk, OnErr};
ghost use Rattle.hv_view.specs.View.{Viewed, IsBuilt};
ghost use Rattle.hv_catalogue.specs.Holding.{Holding};
ghost use Rattle.hv_model.specs.Settled.{Settles};
ghost use Rattle.hv_world.specs.Damage.{IsUnfailed};
ghost use Rattle.hv_world.specs.Look.{Imports, ImportsRows};
ghost use Rattle.hv_world.specs.Reads.{PortSeen, port_seen, IsIdle};
ghost use Rattle.hv_world.specs.Stored.{database_of, IsSound, AreFiles, HasFiles};
ghost use Rattle.hv_world.specs.Stage.{IsLookedUp, IsBuilding, IsSealed};
ghost use Rattle.hv_world.specs.Step.{IsStep};
ghost use Rattle.hv_world.specs.declared.stage.Stage.TheVariants as stage;

use crate::command::carry_out;
use crate::look::{failed, look_at, refused};
use crate::stage::{Look, Stage, Step};
use hv_catalogue::{Catalogue, ChunkCommand};
use hv_chunk::{Chunk, JobTurn};
use hv_dev::{PageFile, PageSink};
use hv_import::{ImportJob, RowsFault, rows_of};
use hv_model::{Detail, Failure, Refusal, Reply, Statement, Word};
use hv_row::{Copied, Shared};
use hv_view::ChunkView;
use std::alloc::{AllocError, Global};

/// Begins an import: its table is looked up. Takes no memory.
pub fn begin_import<F: PageFile>(
    statement: &Statement,
    table: Word,
    catalogue: &Catalogue<Chunk<F>>,
) -> Step<F>
    requires is { Imports statement.now table }
    requires sound { IsSound F.tells F.pages catalogue.now }
    ensures step { (floor : ℕ) (port : PortSeen F) → IsIdle port → IsStep F.tells F.pages statement.now floor catalogue.now catalogue.now stage.Unbegun port port result }
{
    let byte = table.byte;
    let Some(_schema) = catalogue.schema(&table.name) else {
        return Step::Answered(refused(catalogue, Refusal::NoTable { byte }));
    };
    Step::Goes(Stage::Rows {
        table,
        look: look_at(catalogue),
    })
}

/// Reads the rows of an import whose table stands.
pub fn read_import<F: PageFile>(
    alloc: Global,
    statement: &Statement,
    table: Word,
    look: Look<F>,
    catalogue: &Catalogue<Chunk<F>>,
) -> Step<F>
    requires sound { IsSound F.tells F.pages catalogue.now }
    ensures step { (floor : ℕ) (port : PortSeen F) → IsLookedUp F.tells F.pages statement.now catalogue.now table look port → IsStep F.tells F.pages statement.now floor catalogue.now catalogue.now (stage.Rows table look) port port result }
{
    let now = look_at(catalogue);
    let Some(schema) = catalogue.schema(&table.name) else {
        // A table that stood stands.
        return Step::Answered(failed(&now, Failure::Memory));
    };
    match rows_of(alloc, statement.lines.as_slice(), schema) {
        Ok(rows) => match ImportJob::new(alloc, rows) {
            Ok(job) => Step::Goes(Stage::Building {
                table,
                look: now,
                job,
            }),
            Err(_) => Step::Answered(failed(&now, Failure::Memory)),
        },
        Err(RowsFault::BadRow { row, column }) => {
            Step::Answered(refused(catalogue, Refusal::BadRow { row, column }))
        }
        Err(RowsFault::LongRow { row }) => {
            Step::Answered(refused(catalogue, Refusal::LongRow { row }))
        }
        Err(RowsFault::Memory) => Step::Answered(failed(&now, Failure::Memory)),
    }
}

/// One turn of the job that writes the rows of an import. After a failure the open file is given up.
pub fn turn_import<P: PageSink>(
    alloc: Global,
    statement: &Statement,
    table: Word,
    look: Look<P::File>,
    job: ImportJob,
    port: &mut P,
) -> Step<P::File>
    requires going { job.over ≡ false }
    requires mine { P.written port.old ≡ Some job.pages }
    ensures step { (floor : ℕ) (now : Holding (Viewed P.File)) → IsBuilding P.File.tells P.File.pages statement.now now table look job (port_seen P.PageSink port.old) → IsStep P.File.tells P.File.pages statement.now floor now now (stage.Building table look job) (port_seen P.PageSink port.old) (port_seen P.PageSink port.new) result }
{
    let mut job = job;
    match job.turn(alloc, port) {
        JobTurn::Went => Step::Goes(Stage::Building { table, look, job }),
        JobTurn::Made(chunk) => Step::Goes(Stage::Made { table, look, chunk }),
        JobTurn::WriteFault => Step::Answered(failed(&look, Failure::Write)),
        JobTurn::Waits | JobTurn::ReadFault | JobTurn::Damaged { .. } | JobTurn::Memory => {
            Step::Answered(failed(&look, Failure::Memory))
        }
    }
}

/// Commits the chunk of an import, or has it refused; a chunk that is refused is dropped, and its file with it.
pub fn commit_import<F: PageFile>(
    alloc: Global,
    statement: &Statement,
    table: Word,
    chunk: Chunk<F>,
    catalogue: &mut Catalogue<Chunk<F>>,
) -> Result<Reply, AllocError>
    requires sound { IsSound F.tells F.pages catalogue.old }
    requires imports { ImportsRows statement.now table catalogue.old chunk.schema chunk.rows }
    requires built { IsBuilt F.tells F.pages chunk.schema chunk.rows chunk }
    ensures settles { IfOk result (λ reply. (max : ℕ) → Settles statement.now max (Unit {0}) (database_of catalogue.old) catalogue.old.history reply (database_of catalogue.new) catalogue.new.history) }
    ensures unfailed { IfOk result (λ reply. IsUnfailed reply) }
    ensures keeps { OnErr result (catalogue.new ≡ catalogue.old) }
    ensures files { (files : List F) → AreFiles catalogue.old files → HasFiles catalogue.new files }
    ensures sound { IsSound F.tells F.pages catalogue.new }
{
    let byte = table.byte;
    // A history has no fewer entries than chunks were made, so the next number fits.
    let _entries = catalogue.length();
    let what = Detail::Import {
        table: table.name.copy(alloc)?,
        chunk: catalogue.made() + 1,
        rows: chunk.row_count(),
    };
    let command = ChunkCommand::Import {
        table: table.name,
        chunk: Shared::new(alloc, chunk)?,
    };
    carry_out(alloc, statement, byte, command, what, catalogue)
}
