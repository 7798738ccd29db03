// The statements other than SELECT.
ghost use Rattle.std.specs.Prelude.{◌≡◌};
ghost use Rattle.hv_model.specs.SqlReading.{create_at, import_at, purge_at, part_at, merge_at, session_at, barrier_at};
ghost use Rattle.hv_sql.specs.Code.{Gives};

use crate::rest::Rest;
use crate::rule::{Rule, list_of};
use crate::stop::Stop;
use crate::terminal::{MAX_NUMBER, keyword, name, number_up_to, symbol};
use hv_model::{Ast, Keyword, Symbol};
use std::alloc::Global;

/// `CREATE TABLE name ( column { , column } )`.
#[tactic(auto, unfolding(hv_model::specs::SqlReading::create_at))]
pub fn create<'a>(alloc: Global, lexemes: Rest<'a>) -> Result<(Ast, Rest<'a>), Stop<'a>>
    ensures { Gives result (create_at lexemes.entry) }
{
    let (_, rest) = keyword(Keyword::Create, lexemes)?;
    let (_, rest) = keyword(Keyword::Table, rest)?;
    let (table, rest) = name(alloc, rest)?;
    let (_, rest) = symbol(Symbol::Open, rest)?;
    let (columns, rest) = list_of(alloc, rest)?;
    let (_, rest) = symbol(Symbol::Close, rest)?;
    Ok((Ast::Create { table, columns }, rest))
}

/// `IMPORT INTO name LINES number`.
#[tactic(auto, unfolding(hv_model::specs::SqlReading::import_at))]
pub fn import<'a>(alloc: Global, lexemes: Rest<'a>) -> Result<(Ast, Rest<'a>), Stop<'a>>
    ensures { Gives result (import_at lexemes.entry) }
{
    let (_, rest) = keyword(Keyword::Import, lexemes)?;
    let (_, rest) = keyword(Keyword::Into, rest)?;
    let (table, rest) = name(alloc, rest)?;
    let (_, rest) = keyword(Keyword::Lines, rest)?;
    let (number, rest) = number_up_to(MAX_NUMBER, rest)?;
    let lines = number.value;
    Ok((Ast::Import { table, lines }, rest))
}

/// `PURGE CHUNK number OF name`.
#[tactic(auto, unfolding(hv_model::specs::SqlReading::purge_at))]
pub fn purge<'a>(alloc: Global, lexemes: Rest<'a>) -> Result<(Ast, Rest<'a>), Stop<'a>>
    ensures { Gives result (purge_at lexemes.entry) }
{
    let (_, rest) = keyword(Keyword::Purge, lexemes)?;
    let (_, rest) = keyword(Keyword::Chunk, rest)?;
    let (number, rest) = number_up_to(MAX_NUMBER, rest)?;
    let (_, rest) = keyword(Keyword::Of, rest)?;
    let (table, rest) = name(alloc, rest)?;
    let chunk = number.value;
    Ok((Ast::Purge { chunk, table }, rest))
}

impl Rule for u64 {
    ghost use Rattle.hv_model.specs.SqlReading.{part_at};

    ghost reader = { part_at };

    /// The number of a part.
    #[tactic(auto, unfolding(hv_model::specs::SqlReading::part_at))]
    fn read<'a>(_alloc: Global, lexemes: Rest<'a>) -> Result<(u64, Rest<'a>), Stop<'a>> {
        let (number, rest) = number_up_to(MAX_NUMBER, lexemes)?;
        Ok((number.value, rest))
    }
}

/// `MERGE CHUNKS number , number { , number } OF name`.
#[tactic(auto, unfolding(hv_model::specs::SqlReading::merge_at))]
pub fn merge<'a>(alloc: Global, lexemes: Rest<'a>) -> Result<(Ast, Rest<'a>), Stop<'a>>
    ensures { Gives result (merge_at lexemes.entry) }
{
    let (_, rest) = keyword(Keyword::Merge, lexemes)?;
    let (_, rest) = keyword(Keyword::Chunks, rest)?;
    let (first, rest) = u64::read(alloc, rest)?;
    let (_, rest) = symbol(Symbol::Comma, rest)?;
    let (mut parts, rest) = list_of(alloc, rest)?;
    let (_, rest) = keyword(Keyword::Of, rest)?;
    let (table, rest) = name(alloc, rest)?;
    parts.insert(0, first)?;
    Ok((Ast::Merge { parts, table }, rest))
}

/// `SESSION name`.
#[tactic(auto, unfolding(hv_model::specs::SqlReading::session_at))]
pub fn session<'a>(alloc: Global, lexemes: Rest<'a>) -> Result<(Ast, Rest<'a>), Stop<'a>>
    ensures { Gives result (session_at lexemes.entry) }
{
    let (_, rest) = keyword(Keyword::Session, lexemes)?;
    let (name, rest) = name(alloc, rest)?;
    Ok((Ast::Session { name }, rest))
}

/// `BARRIER`.
#[tactic(auto, unfolding(hv_model::specs::SqlReading::barrier_at))]
pub fn barrier<'a>(lexemes: Rest<'a>) -> Result<(Ast, Rest<'a>), Stop<'a>>
    ensures { Gives result (barrier_at lexemes.entry) }
{
    let (_, rest) = keyword(Keyword::Barrier, lexemes)?;
    Ok((Ast::Barrier, rest))
}
