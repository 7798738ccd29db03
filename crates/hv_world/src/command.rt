// The answers to statements that change the catalogue.
ghost use Rattle.std.specs.Prelude.{◌≡◌, ◌<◌, ℕ, List, [], length, Some, Ok, IfOk, IfErr, OnOk, OnErr};
ghost use Rattle.std.specs.Option.{option_map};
ghost use Rattle.hv_model.specs.declared.catalogue.Database.{Database};
ghost use Rattle.hv_model.specs.declared.tree.Ast.TheVariants as ast;
ghost use Rattle.hv_model.specs.Causes.{first_of};
ghost use Rattle.hv_model.specs.Command.{column_causes, step_cause, told_of};
ghost use Rattle.hv_model.specs.Database.{step};
ghost use Rattle.hv_model.specs.Settled.{Settles};
ghost use Rattle.hv_model.specs.Parsed.{parsed};
ghost use Rattle.hv_view.specs.View.{Viewed};
ghost use Rattle.hv_catalogue.specs.Holding.{BringsBuilt, meant};
ghost use Rattle.hv_world.specs.Answer.{Carried, count_of};
ghost use Rattle.hv_world.specs.Stored.{database_of, IsSound, AreFiles, HasFiles};
ghost use Rattle.hv_world.specs.Damage.{IsUnfailed};

use crate::look::refused;
use hv_catalogue::{ApplyFault, Catalogue, ChunkCommand};
use hv_chunk::Chunk;
use hv_dev::PageFile;
use hv_model::{Detail, Refusal, Reply, Statement, Word};
use hv_row::{Columns, Copied, MAX_COLUMNS, Schema, first_repeated};
use std::alloc::{AllocError, Global};

/// Answers a CREATE. The first repeated column is looked for among at most 32.
pub fn create<F: PageFile>(
    alloc: Global,
    statement: &Statement,
    table: Word,
    columns: Columns,
    catalogue: &mut Catalogue<Chunk<F>>,
) -> Result<Reply, AllocError>
    requires is { parsed statement.now.text ≡ Ok (ast.Create table columns) }
    requires some { 0 < length columns }
    requires sound { IsSound F.tells F.pages catalogue.old }
    ensures settles { IfOk result (λ reply. (max : ℕ) → Settles statement.now max (Unit {0}) (database_of catalogue.old) catalogue.old.history reply (database_of catalogue.new) catalogue.new.history) }
    ensures unfailed { IfOk result (λ reply. IsUnfailed reply) }
    ensures keeps { OnErr result (catalogue.new ≡ catalogue.old) }
    ensures files { (files : List F) → AreFiles catalogue.old files → HasFiles catalogue.new files }
    ensures sound { IsSound F.tells F.pages catalogue.new }
{
    if let Some(cause) = column_refusal(&columns) {
        return Ok(refused(catalogue, cause));
    }
    let what = Detail::Create {
        table: table.name.copy(alloc)?,
    };
    let command = ChunkCommand::Create {
        table: table.name,
        schema: Schema::new(columns),
    };
    carry_out(alloc, statement, table.byte, command, what, catalogue)
}

// Why these are not the columns of a table, the first reason first.
fn column_refusal(columns: &Columns) -> Option<Refusal>
    ensures { result ≡ first_of (column_causes columns.now) }
{
    if columns.len() > MAX_COLUMNS {
        return Some(Refusal::TooManyColumns);
    }
    let place = first_repeated(columns.as_slice())?;
    Some(Refusal::DuplicateColumn {
        column: place as u8 + 1,
    })
}

/// Answers a PURGE. The chunk's file is given up with the last that holds the chunk.
pub fn purge<F: PageFile>(
    alloc: Global,
    statement: &Statement,
    chunk: u64,
    table: Word,
    catalogue: &mut Catalogue<Chunk<F>>,
) -> Result<Reply, AllocError>
    requires is { parsed statement.now.text ≡ Ok (ast.Purge chunk table) }
    requires sound { IsSound F.tells F.pages catalogue.old }
    ensures settles { IfOk result (λ reply. (max : ℕ) → Settles statement.now max (Unit {0}) (database_of catalogue.old) catalogue.old.history reply (database_of catalogue.new) catalogue.new.history) }
    ensures unfailed { IfOk result (λ reply. IsUnfailed reply) }
    ensures keeps { OnErr result (catalogue.new ≡ catalogue.old) }
    ensures files { (files : List F) → AreFiles catalogue.old files → HasFiles catalogue.new files }
    ensures sound { IsSound F.tells F.pages catalogue.new }
{
    // A number that a chunk has is none past those made, so it fits; another is refused.
    let _entries = catalogue.length();
    let what = Detail::Purge {
        table: table.name.copy(alloc)?,
        chunk: chunk.min(u64::from(u32::MAX)) as u32,
    };
    let command = ChunkCommand::Purge {
        table: table.name,
        chunk,
    };
    carry_out(alloc, statement, table.byte, command, what, catalogue)
}

/// Has the catalogue carry out the command of a statement, whose table's name is at this byte; `what` is told of it where it is accepted.
pub fn carry_out<F: PageFile>(
    alloc: Global,
    statement: &Statement,
    byte: u32,
    command: ChunkCommand<Chunk<F>>,
    what: Detail,
    catalogue: &mut Catalogue<Chunk<F>>,
) -> Result<Reply, AllocError>
    requires sound { IsSound F.tells F.pages catalogue.old }
    requires built { BringsBuilt (λ c. c) F.tells F.pages catalogue.old.database command }
    requires told { (after : Database (Viewed F)) → step catalogue.old.database (meant command) ≡ Ok after → what ≡ told_of count_of catalogue.old.database (meant command) }
    ensures carried { IfOk result (λ reply. Carried statement.now byte (meant command) catalogue.old catalogue.new reply) }
    ensures unfailed { IfOk result (λ reply. IsUnfailed reply) }
    ensures keeps { OnErr result (catalogue.new ≡ catalogue.old) }
    ensures sound { IsSound F.tells F.pages catalogue.new }
{
    match catalogue.apply(alloc, &statement.session, statement.number, command) {
        Ok(at) => Ok(Reply::Done { at, what }),
        Err(ApplyFault::NoTable { at }) => Ok(Reply::Refused {
            at,
            cause: Refusal::NoTable { byte },
        }),
        Err(ApplyFault::Refused { at, cause }) => Ok(Reply::Refused { at, cause }),
        Err(ApplyFault::Memory) => Err(AllocError),
    }
}
