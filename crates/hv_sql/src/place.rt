// The places of a select.
ghost use Rattle.std.specs.Prelude.{◌≡◌, true};
ghost use Rattle.std.specs.List.{list_any};
ghost use Rattle.hv_model.specs.Sql.{is_aggregate};
ghost use Rattle.hv_model.specs.SqlReading.{alias_at, place_at, places_at};
ghost use Rattle.hv_sql.specs.Code.{Gives};

use crate::rest::Rest;
use crate::rule::{Rule, list_of};
use crate::stop::Stop;
use crate::terminal::{keyword, name, next_is, next_word};
use hv_model::{ItemAsts, Keyword, Kind, PlaceAst, PlaceAsts, Word, has_aggregate};
use hv_row::Listed;
use std::alloc::Global;

/// `[ [ AS ] name ]`.
#[tactic(auto, unfolding(hv_model::specs::SqlReading::alias_at))]
fn alias<'a>(alloc: Global, lexemes: Rest<'a>) -> Result<(Option<Word>, Rest<'a>), Stop<'a>>
    ensures { Gives result (alias_at lexemes.entry) }
{
    if next_word(Keyword::As, &lexemes) {
        let (_, rest) = keyword(Keyword::As, lexemes)?;
        let (word, rest) = name(alloc, rest)?;
        Ok((Some(word), rest))
    } else if next_is(Kind::Name, &lexemes) {
        let (word, rest) = name(alloc, lexemes)?;
        Ok((Some(word), rest))
    } else {
        Ok((None, lexemes))
    }
}

impl Rule for PlaceAst {
    ghost use Rattle.hv_model.specs.SqlReading.{place_at};

    ghost reader = { place_at };

    /// `name [ [ AS ] name ]`.
    #[tactic(auto, unfolding(hv_model::specs::SqlReading::place_at))]
    fn read<'a>(alloc: Global, lexemes: Rest<'a>) -> Result<(PlaceAst, Rest<'a>), Stop<'a>> {
        let (table, rest) = name(alloc, lexemes)?;
        let (alias, rest) = alias(alloc, rest)?;
        Ok((PlaceAst { table, alias }, rest))
    }
}

/// One place alone.
#[tactic(auto, unfolding(hv_model::specs::SqlReading::places_at))]
fn only_place<'a>(alloc: Global, lexemes: Rest<'a>) -> Result<(PlaceAsts, Rest<'a>), Stop<'a>>
    ensures { Gives result (places_at true lexemes.entry) }
{
    let (place, rest) = PlaceAst::read(alloc, lexemes)?;
    let mut places = Listed::new(alloc);
    places.push(place)?;
    Ok((places, rest))
}

/// `place { , place }`; behind items with an aggregate, one place alone.
#[tactic(auto, unfolding(hv_model::specs::SqlReading::places_at))]
pub fn places<'a>(
    alloc: Global,
    items: &ItemAsts,
    lexemes: Rest<'a>,
) -> Result<(PlaceAsts, Rest<'a>), Stop<'a>>
    ensures { Gives result (places_at (list_any is_aggregate items.now) lexemes.entry) }
{
    if has_aggregate(items.as_slice()) {
        only_place(alloc, lexemes)
    } else {
        list_of(alloc, lexemes)
    }
}
