// References, keys of an order and places: the rules of one tree each.
ghost use Rattle.std.specs.Prelude.{◌≡◌};
ghost use Rattle.hv_model.specs.SqlReading.{ref_at, ref_behind_at};
ghost use Rattle.hv_sql.specs.Code.{Gives};

use crate::rest::Rest;
use crate::stop::Stop;
use crate::terminal::{name, next_symbol, symbol};
use hv_model::{RefAst, Symbol, Word};
use std::alloc::Global;

/// What may stand behind the first name of a reference: `[ . name ]`.
#[tactic(auto, unfolding(hv_model::specs::SqlReading::ref_behind_at))]
fn ref_behind<'a>(
    alloc: Global,
    first: Word,
    lexemes: Rest<'a>,
) -> Result<(RefAst, Rest<'a>), Stop<'a>>
    ensures { Gives result (ref_behind_at first lexemes.entry) }
{
    let Word { name: bytes, byte } = first;
    if next_symbol(Symbol::Dot, &lexemes) {
        let (_, rest) = symbol(Symbol::Dot, lexemes)?;
        let (column, rest) = name(alloc, rest)?;
        let alias = Some(bytes);
        let column = column.name;
        Ok((
            RefAst {
                alias,
                column,
                byte,
            },
            rest,
        ))
    } else {
        let alias = None;
        let column = bytes;
        Ok((
            RefAst {
                alias,
                column,
                byte,
            },
            lexemes,
        ))
    }
}

/// `name [ . name ]`.
#[tactic(auto, unfolding(hv_model::specs::SqlReading::ref_at))]
pub fn reference<'a>(alloc: Global, lexemes: Rest<'a>) -> Result<(RefAst, Rest<'a>), Stop<'a>>
    ensures { Gives result (ref_at lexemes.entry) }
{
    let (first, rest) = name(alloc, lexemes)?;
    ref_behind(alloc, first, rest)
}
