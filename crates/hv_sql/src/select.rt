// SELECT.
ghost use Rattle.std.specs.Prelude.{◌≡◌};
ghost use Rattle.hv_model.specs.SqlReading.{select_at};
ghost use Rattle.hv_sql.specs.Code.{Gives};

use crate::condition::where_part;
use crate::item::items;
use crate::order::{groups_of, order_part};
use crate::place::places;
use crate::rest::Rest;
use crate::stop::Stop;
use crate::terminal::keyword;
use hv_model::{Ast, Keyword, SelectAst};
use std::alloc::Global;

/// `SELECT` with its items, places, condition, groups and order.
#[tactic(auto, unfolding(hv_model::specs::SqlReading::select_at))]
pub fn select<'a>(alloc: Global, lexemes: Rest<'a>) -> Result<(Ast, Rest<'a>), Stop<'a>>
    ensures { Gives result (select_at lexemes.entry) }
{
    let (_, rest) = keyword(Keyword::Select, lexemes)?;
    let (items, rest) = items(alloc, rest)?;
    let (_, rest) = keyword(Keyword::From, rest)?;
    let (places, rest) = places(alloc, &items, rest)?;
    let (cond, rest) = where_part(alloc, rest)?;
    let (groups, rest) = groups_of(alloc, &places, rest)?;
    let ((order, limit), rest) = order_part(alloc, rest)?;
    Ok((
        Ast::Select(SelectAst {
            items,
            places,
            cond,
            groups,
            order,
            limit,
        }),
        rest,
    ))
}
