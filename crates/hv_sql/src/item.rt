// The items of a select.
ghost use Rattle.std.specs.Prelude.{◌≡◌};
ghost use Rattle.hv_model.specs.SqlReading.{counted_at, count_at, ref_in_at, item_at, star_at, items_at};
ghost use Rattle.hv_sql.specs.Code.{Gives};

use crate::reference::reference;
use crate::rest::Rest;
use crate::rule::{Rule, short_list_of};
use crate::stop::Stop;
use crate::terminal::{keyword, next_symbol, next_word, symbol};
use hv_model::{ItemAst, ItemAsts, Keyword, RefAst, Symbol};
use hv_row::Listed;
use std::alloc::Global;

/// `*` or a reference, within `COUNT ( )`.
#[tactic(auto, unfolding(hv_model::specs::SqlReading::counted_at))]
fn counted<'a>(alloc: Global, lexemes: Rest<'a>) -> Result<(ItemAst, Rest<'a>), Stop<'a>>
    ensures { Gives result (counted_at lexemes.entry) }
{
    if next_symbol(Symbol::Star, &lexemes) {
        let (_, rest) = symbol(Symbol::Star, lexemes)?;
        Ok((ItemAst::Count, rest))
    } else {
        let (of, rest) = reference(alloc, lexemes)?;
        Ok((ItemAst::CountOf(of), rest))
    }
}

/// `COUNT ( * ) | COUNT ( ref )`.
#[tactic(auto, unfolding(hv_model::specs::SqlReading::count_at))]
fn count<'a>(alloc: Global, lexemes: Rest<'a>) -> Result<(ItemAst, Rest<'a>), Stop<'a>>
    ensures { Gives result (count_at lexemes.entry) }
{
    let (_, rest) = keyword(Keyword::Count, lexemes)?;
    let (_, rest) = symbol(Symbol::Open, rest)?;
    let (item, rest) = counted(alloc, rest)?;
    let (_, rest) = symbol(Symbol::Close, rest)?;
    Ok((item, rest))
}

/// A keyword, and a reference in parentheses.
#[tactic(auto, unfolding(hv_model::specs::SqlReading::ref_in_at))]
fn ref_in<'a>(
    alloc: Global,
    which: Keyword,
    lexemes: Rest<'a>,
) -> Result<(RefAst, Rest<'a>), Stop<'a>>
    ensures { Gives result (ref_in_at which lexemes.entry) }
{
    let (_, rest) = keyword(which, lexemes)?;
    let (_, rest) = symbol(Symbol::Open, rest)?;
    let (of, rest) = reference(alloc, rest)?;
    let (_, rest) = symbol(Symbol::Close, rest)?;
    Ok((of, rest))
}

impl Rule for ItemAst {
    ghost use Rattle.hv_model.specs.SqlReading.{item_at};

    ghost reader = { item_at };

    /// `ref | COUNT ( * ) | ( COUNT | SUM | MIN | MAX ) ( ref )`.
    #[tactic(auto, unfolding(hv_model::specs::SqlReading::item_at))]
    fn read<'a>(alloc: Global, lexemes: Rest<'a>) -> Result<(ItemAst, Rest<'a>), Stop<'a>> {
        if next_word(Keyword::Count, &lexemes) {
            count(alloc, lexemes)
        } else if next_word(Keyword::Sum, &lexemes) {
            let (of, rest) = ref_in(alloc, Keyword::Sum, lexemes)?;
            Ok((ItemAst::Sum(of), rest))
        } else if next_word(Keyword::Min, &lexemes) {
            let (of, rest) = ref_in(alloc, Keyword::Min, lexemes)?;
            Ok((ItemAst::Least(of), rest))
        } else if next_word(Keyword::Max, &lexemes) {
            let (of, rest) = ref_in(alloc, Keyword::Max, lexemes)?;
            Ok((ItemAst::Greatest(of), rest))
        } else {
            let (of, rest) = reference(alloc, lexemes)?;
            Ok((ItemAst::Col(of), rest))
        }
    }
}

/// `*`, as the one item.
#[tactic(auto, unfolding(hv_model::specs::SqlReading::star_at))]
fn star<'a>(alloc: Global, lexemes: Rest<'a>) -> Result<(ItemAsts, Rest<'a>), Stop<'a>>
    ensures { Gives result (star_at lexemes.entry) }
{
    let (byte, rest) = symbol(Symbol::Star, lexemes)?;
    let mut items = Listed::new(alloc);
    items.push(ItemAst::Star { byte })?;
    Ok((items, rest))
}

/// `* | item { , item }`, of at most 128 items.
#[tactic(auto, unfolding(hv_model::specs::SqlReading::items_at))]
pub fn items<'a>(alloc: Global, lexemes: Rest<'a>) -> Result<(ItemAsts, Rest<'a>), Stop<'a>>
    ensures { Gives result (items_at lexemes.entry) }
{
    if next_symbol(Symbol::Star, &lexemes) {
        star(alloc, lexemes)
    } else {
        short_list_of(alloc, lexemes)
    }
}
