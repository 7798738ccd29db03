//! `oodb_bench WORK TIMES`: does one kind of work on a full page so many times, for `bench/pages`, which takes the time; and
//! `oodb_bench text|lex|parse KIND SIZE` reads texts of statements of so many bytes, for `bench/sql`; and
//! `oodb_bench [whole] table|order|group|count ROWS` makes a table of so many rows, answers a query over it and looks at the first row of the
//! answer, or at the whole of it, for `bench/queries`.
//! The page has 214 rows of (INT, TEXT of 8 bytes). The program prints a sum over what it did, so that no work falls away.
#![tactic(auto)]

mod chunk;
mod query;
mod sql;
mod work;

use chunk::{build, make_rows, write_plainly};
use query::{Look, Query, ask};
use sql::{Kind, Reading, read};
use std::env::Args;
use std::io::Write;
use std::process::ExitCode;
use std::{env, io};
use work::{Bench, Work};

fn main(rt: HostRuntime) -> ExitCode {
    let Ok(args) = env::args(&rt) else {
        return ExitCode::from(2);
    };
    let Some((asked, times)) = read_args(args) else {
        return ExitCode::from(2);
    };
    let Ok(bench) = Bench::new(rt.alloc()) else {
        return ExitCode::from(6);
    };
    let done = match asked {
        Asked::Page(work) => bench.run(rt.alloc(), work, times),
        Asked::Chunk if times > MAX_ROWS => return ExitCode::from(2),
        Asked::Chunk => build(rt.alloc(), rt, &bench, times),
        Asked::Rows => make_rows(rt.alloc(), &bench.schema, times),
        Asked::Plain => write_plainly(rt.alloc(), rt, &bench, times),
        Asked::Texts(reading, kind) => read(rt.alloc(), reading, kind, times),
        Asked::Query(query, look) => ask(rt.alloc(), query, look, times),
    };
    let Ok(sum) = done else {
        return ExitCode::from(6);
    };
    match println!(rt; "{sum}") {
        Ok(()) => ExitCode::from(0),
        Err(_) => ExitCode::from(5),
    }
}

// The most rows of a chunk.
const MAX_ROWS: u32 = 1_000_000;

// What is asked for.
#[derive(Clone, Copy, Debug)]
enum Asked {
    /// Work on one page, so many times.
    Page(Work),
    /// A chunk of so many rows.
    Chunk,
    /// The rows of such a chunk alone.
    Rows,
    /// So many pages, hashed and written by a plain loop.
    Plain,
    /// Texts of statements, of so many bytes.
    Texts(Reading, Kind),
    /// A query over a table of so many rows, and what is looked at of its answer.
    Query(Query, Look),
}

// What is asked for, and how often.
fn read_args(args: Args) -> Option<(Asked, u32)> {
    let mut args = args.skip(1);
    let asked = match args.next()?.as_str() {
        "chunk" => Asked::Chunk,
        "rows" => Asked::Rows,
        "plain" => Asked::Plain,
        "whole" => Asked::Query(Query::named(args.next()?.as_str())?, Look::Whole),
        name => match Reading::named(name) {
            Some(reading) => Asked::Texts(reading, Kind::named(args.next()?.as_str())?),
            None => asked_of(name)?,
        },
    };
    let times = args.next()?.parse().ok()?;
    Some((asked, times))
}

// What a word asks for that has no other word behind it.
fn asked_of(name: &str) -> Option<Asked> {
    match Query::named(name) {
        Some(query) => Some(Asked::Query(query, Look::First)),
        None => Some(Asked::Page(Work::named(name)?)),
    }
}
