// Groups, order and limit of a select.
ghost use Rattle.std.specs.Prelude.{◌≡◌};
ghost use Rattle.hv_model.specs.SqlReading.{group_part_at, groups_of_at, key_by_at, direction_at, key_at, limit_part_at, order_part_at};
ghost use Rattle.hv_sql.specs.Code.{Gives};

use crate::reference::reference;
use crate::rest::Rest;
use crate::rule::{Rule, short_list_of};
use crate::stop::Stop;
use crate::terminal::{MAX_NUMBER, given, keyword, next_is, next_word, number_up_to};
use hv_model::{KeyAst, KeyAsts, KeyBy, Keyword, Kind, PlaceAsts, RefAst, RefAsts};
use hv_row::Listed;
use std::alloc::Global;

impl Rule for RefAst {
    ghost use Rattle.hv_model.specs.SqlReading.{ref_at};

    ghost reader = { ref_at };

    fn read<'a>(alloc: Global, lexemes: Rest<'a>) -> Result<(RefAst, Rest<'a>), Stop<'a>> {
        reference(alloc, lexemes)
    }
}

/// `[ GROUP BY ref { , ref } ]`, of at most 128.
#[tactic(auto, unfolding(hv_model::specs::SqlReading::group_part_at))]
fn group_part<'a>(alloc: Global, lexemes: Rest<'a>) -> Result<(RefAsts, Rest<'a>), Stop<'a>>
    ensures { Gives result (group_part_at lexemes.entry) }
{
    if next_word(Keyword::Group, &lexemes) {
        let (_, rest) = keyword(Keyword::Group, lexemes)?;
        let (_, rest) = keyword(Keyword::By, rest)?;
        let (groups, rest) = short_list_of(alloc, rest)?;
        Ok((groups, rest))
    } else {
        Ok((Listed::new(alloc), lexemes))
    }
}

/// GROUP BY may stand behind one place alone.
#[tactic(auto, unfolding(hv_model::specs::SqlReading::groups_of_at))]
pub fn groups_of<'a>(
    alloc: Global,
    places: &PlaceAsts,
    lexemes: Rest<'a>,
) -> Result<(RefAsts, Rest<'a>), Stop<'a>>
    ensures { Gives result (groups_of_at places.now lexemes.entry) }
{
    match places.as_slice() {
        [_] => group_part(alloc, lexemes),
        _ => Ok((Listed::new(alloc), lexemes)),
    }
}

/// What a key names, and its byte.
#[tactic(auto, unfolding(hv_model::specs::SqlReading::key_by_at))]
fn key_by<'a>(alloc: Global, lexemes: Rest<'a>) -> Result<((KeyBy, u32), Rest<'a>), Stop<'a>>
    ensures { Gives result (key_by_at lexemes.entry) }
{
    if next_is(Kind::Number, &lexemes) {
        let (number, rest) = number_up_to(MAX_NUMBER, lexemes)?;
        Ok(((KeyBy::Number(number.value), number.byte), rest))
    } else {
        let (column, rest) = reference(alloc, lexemes)?;
        let byte = column.byte;
        Ok(((KeyBy::Col(column), byte), rest))
    }
}

/// `[ ASC | DESC ]`, whether it is DESC.
#[tactic(auto, unfolding(hv_model::specs::SqlReading::direction_at))]
fn direction<'a>(lexemes: Rest<'a>) -> Result<(bool, Rest<'a>), Stop<'a>>
    ensures { Gives result (direction_at lexemes.entry) }
{
    if next_word(Keyword::Asc, &lexemes) {
        let (_, rest) = keyword(Keyword::Asc, lexemes)?;
        Ok((false, rest))
    } else {
        given(Keyword::Desc, lexemes)
    }
}

impl Rule for KeyAst {
    ghost use Rattle.hv_model.specs.SqlReading.{key_at};

    ghost reader = { key_at };

    /// `( number | ref ) [ ASC | DESC ]`.
    #[tactic(auto, unfolding(hv_model::specs::SqlReading::key_at))]
    fn read<'a>(alloc: Global, lexemes: Rest<'a>) -> Result<(KeyAst, Rest<'a>), Stop<'a>> {
        let ((by, byte), rest) = key_by(alloc, lexemes)?;
        let (down, rest) = direction(rest)?;
        Ok((KeyAst { by, byte, down }, rest))
    }
}

/// `[ LIMIT number ]`.
#[tactic(auto, unfolding(hv_model::specs::SqlReading::limit_part_at))]
fn limit_part<'a>(lexemes: Rest<'a>) -> Result<(Option<u64>, Rest<'a>), Stop<'a>>
    ensures { Gives result (limit_part_at lexemes.entry) }
{
    if next_word(Keyword::Limit, &lexemes) {
        let (_, rest) = keyword(Keyword::Limit, lexemes)?;
        let (number, rest) = number_up_to(MAX_NUMBER, rest)?;
        Ok((Some(number.value), rest))
    } else {
        Ok((None, lexemes))
    }
}

/// `[ ORDER BY key { , key } [ LIMIT number ] ]`, of at most 128 keys.
#[tactic(auto, unfolding(hv_model::specs::SqlReading::order_part_at))]
pub fn order_part<'a>(
    alloc: Global,
    lexemes: Rest<'a>,
) -> Result<((KeyAsts, Option<u64>), Rest<'a>), Stop<'a>>
    ensures { Gives result (order_part_at lexemes.entry) }
{
    if next_word(Keyword::Order, &lexemes) {
        let (_, rest) = keyword(Keyword::Order, lexemes)?;
        let (_, rest) = keyword(Keyword::By, rest)?;
        let (keys, rest) = short_list_of(alloc, rest)?;
        let (limit, rest) = limit_part(rest)?;
        Ok(((keys, limit), rest))
    } else {
        Ok(((Listed::new(alloc), None), lexemes))
    }
}
