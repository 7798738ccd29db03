// A query that reads its tables page by page.
ghost use Rattle.std.specs.Prelude.{◌≡◌, ℕ, ◌+◌, ◌^◌, ◌<◌, List, [], ◌∷◌, ◌++◌, length, true, false, Ok, OnOk, IfOk, IfErr};
ghost use Rattle.hv_dev.specs.Reading.{Landing};
ghost use Rattle.hv_view.specs.View.{Viewed};
ghost use Rattle.hv_bind.specs.Cause.{IsFirstRefusal};
ghost use Rattle.hv_catalogue.specs.Holding.{Holding};
ghost use Rattle.hv_model.specs.Parsed.{parsed};
ghost use Rattle.hv_model.specs.Selected.{select_refusal};
ghost use Rattle.hv_model.specs.declared.tree.Ast.TheVariants as ast;
ghost use Rattle.hv_world.specs.Reads.{port_seen, IsIdle};
ghost use Rattle.hv_world.specs.Selecting.{IsAtPage, IsPlaced, IsSelecting, Keeps, ReadsNext, Replies};
ghost use Rattle.hv_world.specs.Stage.{IsReading};
ghost use Rattle.hv_world.specs.Step.{IsStep};
ghost use Rattle.hv_world.specs.Stored.{database_of, IsSound};
ghost use Rattle.hv_world.specs.declared.stage.Stage.TheVariants as stage;

use crate::access::PageAccess;
use crate::binding::{Selected, select_tables};
use crate::look::{failed, look_at};
use crate::pages::read_rows;
use crate::stage::{Look, Stage, Step};
use crate::tables::{count_pages, next_page, place_of};
use hv_bind::BindFault;
use hv_catalogue::Catalogue;
use hv_chunk::Chunk;
use hv_dev::{PageFile, Port};
use hv_expr::{NaiveFault, naive};
use hv_model::{BoundQuery, Failure, PlainTables, Refusal, Reply, SelectAst, Statement};
use hv_row::{Copied, Rows};
use hv_view::Snapshot;
use std::alloc::{AllocError, Global};
use std::mem;

/// A query under way: the tables of its places as they stood when it looked, and the rows that it has read so far. A table that
/// has several places is read once.
#[derive(Drop)]
pub struct SelectJob<F> {
    pub look: Look<F>,
    pub query: BoundQuery,
    pub view: Snapshot<Chunk<F>>,
    // The rows of the tables of the first places.
    pub tables: PlainTables,
    // The rows of the next place's table as far as they are read: those of its first chunks, and of the next one's first pages.
    pub rows: Rows,
    pub chunk: usize,
    pub page: u32,
    // How many pages are left to read, at most: the pages of a table that has several places count once a place.
    pub left: u64,
}

/// Begins a select: its query over the tables as they stand now, or its refusal but for what its rows decide.
pub fn begin_select<F: PageFile>(
    alloc: Global,
    statement: &Statement,
    tree: &SelectAst,
    catalogue: &Catalogue<Chunk<F>>,
) -> Result<SelectJob<F>, BindFault>
    requires is { parsed statement.now.text ≡ Ok (ast.Select tree.now) }
    requires sound { IsSound F.tells F.pages catalogue.now }
    ensures job { IfOk result (λ job. (landings : List (Landing F)) → IsSelecting F.tells F.pages statement.now job landings) }
    ensures looks { IfOk result (λ job. job.look.held.value ≡ catalogue.now) }
    ensures fits { IfOk result (λ job. job.left < 2 ^ 64) }
    ensures refused { IfErr result (λ fault. IsFirstRefusal (select_refusal tree.now (database_of catalogue.now)) fault) }
{
    let Selected { query, view } = select_tables(alloc, tree, catalogue)?;
    let left = count_pages(view.tables.as_slice());
    Ok(SelectJob {
        look: look_at(catalogue),
        query,
        view,
        tables: PlainTables::new(alloc),
        rows: Rows::new(alloc),
        chunk: 0,
        page: 0,
        left,
    })
}

/// One turn: reads the next page, or, where none is left, answers.
pub fn turn_select<P: Port>(
    alloc: Global,
    statement: &Statement,
    job: SelectJob<P::File>,
    access: &mut PageAccess<P>,
) -> Step<P::File>
    requires reading { IsReading P.File.tells P.File.pages statement.now job (port_seen P.PageSink access.old.port) }
    ensures step { (floor : ℕ) (now : Holding (Viewed P.File)) → IsStep P.File.tells P.File.pages statement.now floor now now (stage.Reading job) (port_seen P.PageSink access.old.port) (port_seen P.PageSink access.new.port) result }
{
    let mut job = job;
    match settle(alloc, &mut job) {
        Ok(true) => {}
        Ok(false) => return Step::Answered(reply(alloc, &job)),
        Err(_) => return Step::Answered(failed(&job.look, Failure::Memory)),
    }
    match read_next(alloc, &mut job, access) {
        Ok(()) => Step::Goes(Stage::Reading { job }),
        Err(cause) => Step::Answered(failed(&job.look, cause)),
    }
}

// Goes on to the next page to read; `false` where none is left.
fn settle<F: PageFile>(alloc: Global, job: &mut SelectJob<F>) -> Result<bool, AllocError>
    requires placed { IsPlaced F.tells F.pages job.old }
    ensures keeps { OnOk result (Keeps F.tells F.pages job.old job.new) }
    ensures look { job.new.look ≡ job.old.look }
    ensures reached { result ≡ Ok true → IsAtPage job.new }
    ensures whole { result ≡ Ok false → length job.new.tables ≡ length job.new.query.places }
{
    while job.tables.len() < job.query.places.len() {
        if advance(alloc, job)? {
            return Ok(true);
        }
    }
    Ok(false)
}

// Goes on to the next page of the table of the place under way; `false` where that has none left, or an earlier place has the
// table: then its rows are complete, and the next place is under way.
fn advance<F: PageFile>(alloc: Global, job: &mut SelectJob<F>) -> Result<bool, AllocError>
    requires placed { IsPlaced F.tells F.pages job.old }
    requires within { length job.old.tables < length job.old.query.places }
    ensures keeps { OnOk result (Keeps F.tells F.pages job.old job.new) }
    ensures look { job.new.look ≡ job.old.look }
    ensures reached { result ≡ Ok true → IsAtPage job.new }
    ensures longer { result ≡ Ok false → length job.new.tables ≡ length job.old.tables + 1 }
{
    let place = job.tables.len();
    let places = job.query.places.as_slice();
    let here = places[place];
    if let Some(earlier) = place_of(&places[..place], here) {
        let rows = job.tables.as_slice()[earlier].copy(alloc)?;
        end_table(alloc, job, rows)?;
        return Ok(false);
    }
    match next_page(&job.view.tables.as_slice()[place], job.chunk, job.page) {
        Some((chunk, page)) => {
            job.chunk = chunk;
            job.page = page;
            Ok(true)
        }
        None => {
            let rows = mem::replace(&mut job.rows, Rows::new(alloc));
            end_table(alloc, job, rows)?;
            Ok(false)
        }
    }
}

// Ends the table of the place under way with these rows.
fn end_table<F>(alloc: Global, job: &mut SelectJob<F>, rows: Rows) -> Result<(), AllocError>
    ensures ended { OnOk result (job.new ≡ record job.old { tables = job.old.tables ++ rows ∷ []; rows = []; chunk = 0; page = 0 }) }
    ensures look { job.new.look ≡ job.old.look }
{
    job.tables.push(rows)?;
    job.rows = Rows::new(alloc);
    job.chunk = 0;
    job.page = 0;
    Ok(())
}

// Reads the next page.
fn read_next<P: Port>(
    alloc: Global,
    job: &mut SelectJob<P::File>,
    access: &mut PageAccess<P>,
) -> Result<(), Failure>
    requires placed { IsPlaced P.File.tells P.File.pages job.old }
    requires at { IsAtPage job.old }
    requires some { 0 < job.old.left }
    requires idle { IsIdle (port_seen P.PageSink access.old.port) }
    ensures look { job.new.look ≡ job.old.look }
    ensures read { ReadsNext P.File.tells job.old job.new (port_seen P.PageSink access.old.port) (port_seen P.PageSink access.new.port) result }
{
    let held = &job.view.tables.as_slice()[job.tables.len()]
        .chunks
        .as_slice()[job.chunk];
    read_rows(
        alloc,
        held.chunk,
        held.view.get(),
        job.page,
        access,
        &mut job.rows,
    )?;
    job.page += 1;
    job.left -= 1;
    Ok(())
}

// The answer over the rows of all tables.
fn reply<F>(alloc: Global, job: &SelectJob<F>) -> Reply
    ensures { Replies job.now result }
{
    match naive(alloc, &job.query, &job.tables) {
        Ok(rows) => Reply::Rows {
            at: job.look.at,
            rows,
        },
        Err(NaiveFault::EmptyAggregate) => Reply::Refused {
            at: job.look.at,
            cause: Refusal::EmptyAggregate,
        },
        Err(NaiveFault::Memory) => failed(&job.look, Failure::Memory),
    }
}
