// Queries with their answers, which follow from the rules of the language; none is the program's own answer.
ghost use Rattle.std.specs.Prelude.{◌≡◌, length, IfOk};

mod comparing;
mod grouping;
mod joining;
mod ordering;
mod refusing;
mod selecting;

use crate::asked::answer_text;
use crate::database::{Database, copied, parsed};
use crate::written::refusal_text;
use comparing::{COMPARISON_CASES, CONDITION_CASES, TEXT_CASES};
use grouping::{EMPTY_CASES, GROUP_CASES, SUM_CASES};
use hv_bind::{BindFault, bind, places};
use hv_model::{Ast, BoundQuery, PlaceAst, PlainTables, Refusal, SelectAst, TableHead, is_grouped};
use hv_row::{Copied, Listed};
use hv_sql::SqlFault;
use joining::{JOIN_CASES, SELF_JOIN_CASES};
use ordering::{ORDER_CASES, SHORT_ORDER_CASES};
use refusing::{FIRST_REFUSAL_CASES, NO_TABLE_CASES, REFUSAL_CASES};
use selecting::{SAME_ROW_CASES, SELECT_CASES};
use std::alloc::Global;
use std::process::Abort;
use std::test::Fail;

// The most FROM places of a select.
const MAX_PLACES: u8 = 4;

// The number of the first FROM place, among the first four, whose table doesn't stand.
fn absent(database: &Database, places: &[PlaceAst]) -> Option<u8> {
    for at in 0..MAX_PLACES {
        if let Some(place) = places.get(usize::from(at)) {
            if database.head(&place.table.name).is_none() {
                return Some(at);
            }
        }
    }
    None
}

// The heads of the tables of FROM places.
fn heads_of(
    alloc: Global,
    database: &Database,
    places: &[PlaceAst],
) -> Result<Listed<TableHead>, Fail>
    ensures { IfOk result (λ heads. length heads ≡ length places.now) }
{
    let mut heads = Listed::new(alloc);
    for place in places {
        let head = database.head(&place.table.name).ok_or("no table")?;
        heads.push(copied(alloc, head)?)?;
    }
    Ok(heads)
}

// The rows of each FROM place of a query.
fn tables_of(alloc: Global, database: &Database, query: &BoundQuery) -> Result<PlainTables, Fail> {
    let mut tables = PlainTables::new(alloc);
    for number in query.places.iter() {
        let rows = database.rows(*number).ok_or("no table")?;
        tables.push(rows.copy(alloc)?)?;
    }
    Ok(tables)
}

// The answer of a query as text: its rows, or why it is refused.
fn answer(alloc: Global, database: &Database, query: &str) -> Result<String, Fail> {
    match parsed(alloc, query) {
        Ok(Ast::Select(select)) => select_answer(alloc, database, &select),
        Ok(_) => Err(Fail::from("no SELECT")),
        Err(SqlFault::Syntax { byte }) => refusal_text(alloc, Refusal::Syntax { byte }),
        Err(SqlFault::Memory) => Err(Fail::from("no memory")),
    }
}

// The answer of a select: its places first, then its names.
fn select_answer(alloc: Global, database: &Database, select: &SelectAst) -> Result<String, Fail> {
    match places(select, absent(database, select.places.as_slice())) {
        Some(refusal) => refusal_text(alloc, refusal),
        None => answer_over_places(alloc, database, select),
    }
}

// The answer of a select whose places all stand.
fn answer_over_places(
    alloc: Global,
    database: &Database,
    select: &SelectAst,
) -> Result<String, Fail> {
    let heads = heads_of(alloc, database, select.places.as_slice())?;
    if is_grouped(select) && heads.len() != 1 {
        return Err(Fail::from("groups of several places"));
    }
    if places(select, None).is_some() {
        return Err(Fail::from("places are refused"));
    }
    match bind(alloc, select, heads.as_slice()) {
        Ok(query) => query_answer(alloc, database, &query),
        Err(BindFault::Refused(refusal)) => refusal_text(alloc, refusal),
        Err(BindFault::Memory) => Err(Fail::from("no memory")),
    }
}

// The answer of a bound query.
fn query_answer(alloc: Global, database: &Database, query: &BoundQuery) -> Result<String, Fail> {
    answer_text(alloc, query, &tables_of(alloc, database, query)?)
}

// A line of cases begins a table or a query, or stands indented below one: a row of the table, or a line of the answer.
#[derive(Drop)]
struct Reader<'a> {
    database: Database,
    query: Option<&'a str>,
    wanted: String,
}

impl<'a> Reader<'a> {
    fn line(&mut self, rt: &impl Abort, alloc: Global, line: &'a str) -> Result<(), Fail> {
        match (line.strip_prefix("    "), self.query) {
            (Some(row), None) => self.database.add(alloc, row),
            (Some(row), Some(_)) => self.want(row),
            (None, _) => self.begin(rt, alloc, line),
        }
    }

    // A further line of the answer.
    fn want(&mut self, line: &str) -> Result<(), Fail> {
        if !self.wanted.is_empty() {
            self.wanted.push_str("\n")?;
        }
        self.wanted.push_str(line)?;
        Ok(())
    }

    // A table or a query begins.
    fn begin(&mut self, rt: &impl Abort, alloc: Global, line: &'a str) -> Result<(), Fail> {
        self.meet(rt, alloc)?;
        if line.starts_with("CREATE") {
            self.database.create(alloc, line)
        } else {
            self.query = Some(line);
            Ok(())
        }
    }

    // Answers the query, if one stands, and compares.
    fn meet(&mut self, rt: &impl Abort, alloc: Global) -> Result<(), Fail> {
        if let Some(query) = self.query {
            let got = answer(alloc, &self.database, query)?;
            assert!(rt; got.as_str() == self.wanted.as_str(), "{query}");
            self.wanted.clear();
            self.query = None;
        }
        Ok(())
    }
}

// Meets each query of these cases, over the tables that stand before it.
fn meet(rt: &impl Abort, alloc: Global, cases: &str) -> Result<(), Fail> {
    let mut reader = Reader {
        database: Database::new(alloc),
        query: None,
        wanted: String::new(alloc),
    };
    for line in cases.split("\n") {
        reader.line(rt, alloc, line)?;
    }
    reader.meet(rt, alloc)
}

#[test]
fn slow_answers(rt: HostRuntime) -> Result<(), Fail> {
    for cases in [
        SELECT_CASES,
        SAME_ROW_CASES,
        EMPTY_CASES,
        SUM_CASES,
        GROUP_CASES,
        COMPARISON_CASES,
        CONDITION_CASES,
        TEXT_CASES,
        JOIN_CASES,
        SELF_JOIN_CASES,
        ORDER_CASES,
        SHORT_ORDER_CASES,
        REFUSAL_CASES,
        FIRST_REFUSAL_CASES,
        NO_TABLE_CASES,
    ] {
        meet(&rt, rt.alloc(), cases)?;
    }
    Ok(())
}
