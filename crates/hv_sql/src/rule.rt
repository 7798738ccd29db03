// Lists of trees with commas between them.
ghost use Rattle.std.specs.Prelude.{◌≡◌, [], ◌∷◌};
ghost use Rattle.hv_model.specs.declared.lexeme.Kind.TheVariants as kinds;
ghost use Rattle.hv_model.specs.Reading.{more_up_to_at, list_of_at, list_of_up_to_at};
ghost use Rattle.hv_model.specs.Sql.{most_behind};
ghost use Rattle.hv_model.specs.SqlReading.{symbol_at};
ghost use Rattle.hv_sql.specs.Code.{Gives, with_front};
ghost use Rattle.hv_model.specs.declared.lexeme.Symbol.TheVariants.{Comma};

use crate::rest::Rest;
use crate::stop::Stop;
use crate::terminal::{next_symbol, symbol};
use hv_model::Symbol;
use hv_row::Listed;
use std::alloc::Global;

/// The most items, group columns or order keys of a select behind the first.
const MAX_BEHIND: usize = 127;

/// A tree that lists have.
pub trait Rule: Drop {
    ghost use Rattle.hv_model.specs.Reading.{Reader};
    ghost use Rattle.hv_sql.specs.Code.{Gives};

    /// The reader of its rule.
    ghost reader: { Reader Self };

    /// Reads one.
    fn read<'a>(alloc: Global, lexemes: Rest<'a>) -> Result<(Self, Rest<'a>), Stop<'a>>
        ensures { Gives result (Self.reader lexemes.entry) };
}

/// `{ , R }` behind a first tree, at most so many times.
fn more<'a, T: Rule>(
    alloc: Global,
    first: T,
    room: usize,
    lexemes: Rest<'a>,
) -> Result<(Listed<T>, Rest<'a>), Stop<'a>>
    ensures { Gives result (with_front (first ∷ []) (more_up_to_at room (kinds.Symbol Comma) (symbol_at Comma) T.reader lexemes.entry)) }
{
    let mut list = Listed::new(alloc);
    list.push(first)?;
    let mut left = room;
    let mut rest = lexemes;
    while left > 0 && next_symbol(Symbol::Comma, &rest) {
        let (_, behind) = symbol(Symbol::Comma, rest)?;
        let (tree, behind) = T::read(alloc, behind)?;
        list.push(tree)?;
        rest = behind;
        left -= 1;
    }
    Ok((list, rest))
}

/// `R { , R }`.
pub fn list_of<'a, T: Rule>(
    alloc: Global,
    lexemes: Rest<'a>,
) -> Result<(Listed<T>, Rest<'a>), Stop<'a>>
    ensures { Gives result (list_of_at (kinds.Symbol Comma) (symbol_at Comma) T.reader lexemes.entry) }
{
    let (first, rest) = T::read(alloc, lexemes)?;
    let room = rest.len();
    more(alloc, first, room, rest)
}

/// `R { , R }`, of at most 128.
pub fn short_list_of<'a, T: Rule>(
    alloc: Global,
    lexemes: Rest<'a>,
) -> Result<(Listed<T>, Rest<'a>), Stop<'a>>
    ensures { Gives result (list_of_up_to_at most_behind (kinds.Symbol Comma) (symbol_at Comma) T.reader lexemes.entry) }
{
    let (first, rest) = T::read(alloc, lexemes)?;
    more(alloc, first, MAX_BEHIND, rest)
}
