// Columns of CREATE TABLE.
ghost use Rattle.std.specs.Prelude.{◌≡◌};
ghost use Rattle.hv_model.specs.SqlReading.{column_type_at};
ghost use Rattle.hv_sql.specs.Code.{Gives};

use crate::rest::Rest;
use crate::rule::Rule;
use crate::stop::Stop;
use crate::terminal::{given, keyword, name, next_word};
use hv_model::Keyword;
use hv_row::{ColType, Column};
use std::alloc::Global;

/// `INT | TEXT`.
#[tactic(auto, unfolding(hv_model::specs::SqlReading::column_type_at))]
fn column_type<'a>(lexemes: Rest<'a>) -> Result<(ColType, Rest<'a>), Stop<'a>>
    ensures { Gives result (column_type_at lexemes.entry) }
{
    if next_word(Keyword::Int, &lexemes) {
        let (_, rest) = keyword(Keyword::Int, lexemes)?;
        Ok((ColType::Int, rest))
    } else {
        let (_, rest) = keyword(Keyword::Text, lexemes)?;
        Ok((ColType::Text, rest))
    }
}

impl Rule for Column {
    ghost use Rattle.hv_model.specs.SqlReading.{column_at};

    ghost reader = { column_at };

    /// `name ( INT | TEXT ) [ INDEX ] [ RANGE ]`.
    #[tactic(auto, unfolding(hv_model::specs::SqlReading::column_at))]
    fn read<'a>(alloc: Global, lexemes: Rest<'a>) -> Result<(Column, Rest<'a>), Stop<'a>> {
        let (word, rest) = name(alloc, lexemes)?;
        let (kind, rest) = column_type(rest)?;
        let (index, rest) = given(Keyword::Index, rest)?;
        let (range, rest) = given(Keyword::Range, rest)?;
        let name = word.name;
        Ok((
            Column {
                name,
                kind,
                index,
                range,
            },
            rest,
        ))
    }
}
