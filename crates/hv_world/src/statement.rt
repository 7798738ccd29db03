// One step of a statement.
ghost use Rattle.std.specs.Prelude.{◌≡◌, ◌≤◌, ℕ, List, length, Ok, IfOk, OnErr};
ghost use Rattle.hv_view.specs.View.{Viewed};
ghost use Rattle.hv_catalogue.specs.Holding.{Holding};
ghost use Rattle.hv_model.specs.declared.reply.Reply.TheVariants as reply;
ghost use Rattle.hv_model.specs.declared.reply.Failure.TheVariants as failure;
ghost use Rattle.hv_model.specs.declared.tree.Ast.TheVariants as ast;
ghost use Rattle.hv_model.specs.Fault.{IsStatement};
ghost use Rattle.hv_model.specs.Lexed as lexed;
ghost use Rattle.hv_model.specs.Parsed.{parsed};
ghost use Rattle.hv_world.specs.Look.{KeepsTables};
ghost use Rattle.hv_world.specs.Reads.{PortSeen, port_seen, IsIdle};
ghost use Rattle.hv_world.specs.Stage.{IsStaged};
ghost use Rattle.hv_world.specs.Step.{IsStep};
ghost use Rattle.hv_world.specs.Stored.{IsSound, AreFiles, HasFiles};
ghost use Rattle.hv_world.specs.declared.stage.Stage.TheVariants as stage;
ghost use Rattle.hv_world.specs.declared.stage.Step.TheVariants as step;

use crate::access::PageAccess;
use crate::command::{create, purge};
use crate::import::{begin_import, commit_import, read_import, turn_import};
use crate::look::{failed, look_at, refused};
use crate::select::{begin_select, turn_select};
use crate::stage::{Stage, Step};
use hv_bind::BindFault;
use hv_catalogue::Catalogue;
use hv_chunk::Chunk;
use hv_dev::{PageFile, Port};
use hv_model::{Ast, Failure, Refusal, Reply, SelectAst, Statement};
use hv_sql::{SqlFault, parse};
use std::alloc::{AllocError, Global};

/// Takes one step of a statement at a stage. `floor` is the least length that its session may tell.
pub fn take_step<P: Port>(
    alloc: Global,
    statement: &Statement,
    stage: Stage<P::File>,
    floor: u32,
    catalogue: &mut Catalogue<Chunk<P::File>>,
    access: &mut PageAccess<P>,
) -> Step<P::File>
    requires text { length statement.now.text ≤ 67108864 }
    requires sound { IsSound P.File.tells P.File.pages catalogue.old }
    requires staged { IsStaged P.File.tells P.File.pages statement.now catalogue.old stage (port_seen P.PageSink access.old.port) }
    ensures step { IsStep P.File.tells P.File.pages statement.now floor catalogue.old catalogue.new stage (port_seen P.PageSink access.old.port) (port_seen P.PageSink access.new.port) result }
    ensures files { (files : List P.File) → AreFiles catalogue.old files → HasFiles catalogue.new files }
    ensures sound { IsSound P.File.tells P.File.pages catalogue.new }
    ensures tables { KeepsTables catalogue.old catalogue.new }
{
    match stage {
        Stage::Unbegun => begin(alloc, statement, floor, catalogue),
        Stage::Rows { table, look } => read_import(alloc, statement, table, look, catalogue),
        Stage::Building { table, look, job } => {
            turn_import(alloc, statement, table, look, job, &mut access.port)
        }
        Stage::Made { table, chunk, .. } => {
            let answer = commit_import(alloc, statement, table, chunk, catalogue);
            answered(answer, catalogue)
        }
        Stage::Reading { job } => turn_select(alloc, statement, job, access),
    }
}

// The first step of a statement: its text is read.
fn begin<F: PageFile>(
    alloc: Global,
    statement: &Statement,
    floor: u32,
    catalogue: &mut Catalogue<Chunk<F>>,
) -> Step<F>
    requires text { length statement.now.text ≤ 67108864 }
    requires sound { IsSound F.tells F.pages catalogue.old }
    ensures step { (port : PortSeen F) → IsIdle port → IsStep F.tells F.pages statement.now floor catalogue.old catalogue.new stage.Unbegun port port result }
    ensures files { (files : List F) → AreFiles catalogue.old files → HasFiles catalogue.new files }
    ensures sound { IsSound F.tells F.pages catalogue.new }
{
    match parse(alloc, statement.text.as_slice()) {
        Ok(tree) => begin_tree(alloc, statement, tree, catalogue),
        Err(SqlFault::Syntax { byte }) => {
            Step::Answered(refused(catalogue, Refusal::Syntax { byte }))
        }
        Err(SqlFault::Memory) => Step::Answered(Reply::Failed {
            at: floor,
            cause: Failure::Memory,
        }),
    }
}

// The first step of a statement whose text was read as this tree. From here on want of memory is told at the present length.
fn begin_tree<F: PageFile>(
    alloc: Global,
    statement: &Statement,
    tree: Ast,
    catalogue: &mut Catalogue<Chunk<F>>,
) -> Step<F>
    requires is { parsed statement.now.text ≡ Ok tree }
    requires found { IsStatement (lexed.lexemes statement.now.text) tree }
    requires sound { IsSound F.tells F.pages catalogue.old }
    ensures step { (floor : ℕ) (port : PortSeen F) → IsIdle port → IsStep F.tells F.pages statement.now floor catalogue.old catalogue.new stage.Unbegun port port result }
    ensures files { (files : List F) → AreFiles catalogue.old files → HasFiles catalogue.new files }
    ensures sound { IsSound F.tells F.pages catalogue.new }
{
    match tree {
        Ast::Create { table, columns } => {
            let answer = create(alloc, statement, table, columns, catalogue);
            answered(answer, catalogue)
        }
        Ast::Import { table, .. } => begin_import(statement, table, catalogue),
        Ast::Purge { chunk, table } => {
            let answer = purge(alloc, statement, chunk, table, catalogue);
            answered(answer, catalogue)
        }
        Ast::Select(tree) => read_tables(alloc, statement, &tree, catalogue),
        Ast::Merge { .. } | Ast::Session { .. } | Ast::Barrier => {
            Step::Answered(refused(catalogue, Refusal::Unbuilt))
        }
    }
}

// The first step of a select.
fn read_tables<F: PageFile>(
    alloc: Global,
    statement: &Statement,
    tree: &SelectAst,
    catalogue: &Catalogue<Chunk<F>>,
) -> Step<F>
    requires is { parsed statement.now.text ≡ Ok (ast.Select tree.now) }
    requires sound { IsSound F.tells F.pages catalogue.now }
    ensures step { (floor : ℕ) (port : PortSeen F) → IsIdle port → IsStep F.tells F.pages statement.now floor catalogue.now catalogue.now stage.Unbegun port port result }
{
    match begin_select(alloc, statement, tree, catalogue) {
        Ok(job) => Step::Goes(Stage::Reading { job }),
        Err(BindFault::Refused(cause)) => Step::Answered(refused(catalogue, cause)),
        Err(BindFault::Memory) => Step::Answered(failed(&look_at(catalogue), Failure::Memory)),
    }
}

// The last step of a command, which has this answer; want of memory is told at the present length.
fn answered<F: PageFile>(
    answer: Result<Reply, AllocError>,
    catalogue: &Catalogue<Chunk<F>>,
) -> Step<F>
    ensures told { IfOk answer (λ r. result ≡ step.Answered r) }
    ensures wants { OnErr answer (result ≡ step.Answered (reply.Failed (length catalogue.now.history) failure.Memory)) }
{
    match answer {
        Ok(reply) => Step::Answered(reply),
        Err(_) => Step::Answered(failed(&look_at(catalogue), Failure::Memory)),
    }
}
