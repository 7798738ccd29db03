// Conditions, with NOT and parentheses nested to a depth.
ghost use Rattle.std.specs.Prelude.{◌≡◌, [], ◌∷◌};
ghost use Rattle.hv_model.specs.declared.lexeme.Kind.TheVariants as kinds;
ghost use Rattle.hv_model.specs.Reading.{more_at};
ghost use Rattle.hv_model.specs.Sql.{list_or_one};
ghost use Rattle.hv_model.specs.SqlReading.{keyword_at, conj_at, cond_at, deeper_at, term_at, where_part_at};
ghost use Rattle.hv_sql.specs.Code.{Gives, with_front};
ghost use Rattle.hv_model.specs.declared.lexeme.Keyword.TheVariants as k;
ghost use Rattle.hv_model.specs.declared.tree.CondAst.TheVariants as c;

use crate::operand::test;
use crate::rest::Rest;
use crate::stop::Stop;
use crate::terminal::{keyword, next_symbol, next_word, symbol};
use hv_model::{CondAst, Keyword, Symbol};
use sqlite_items::{Boxed, Items};
use std::alloc::Global;

/// How deep NOT and parentheses nest.
const MAX_DEPTH: u8 = 64;

/// The one condition of a list of one, else all of them.
fn all_of(mut terms: Items<CondAst>) -> CondAst
    ensures { result ≡ list_or_one c.All terms }
{
    if terms.len() == 1 {
        terms.remove(0)
    } else {
        CondAst::All(terms)
    }
}

/// The one condition of a list of one, else any of them.
fn any_of(mut conjs: Items<CondAst>) -> CondAst
    ensures { result ≡ list_or_one c.Any conjs }
{
    if conjs.len() == 1 {
        conjs.remove(0)
    } else {
        CondAst::Any(conjs)
    }
}

/// `{ AND term }` behind a first term.
#[cycle(cond)]
fn more_terms<'a>(
    alloc: Global,
    depth: u8,
    first: CondAst,
    lexemes: Rest<'a>,
) -> Result<(Items<CondAst>, Rest<'a>), Stop<'a>>
    ensures { Gives result (with_front (first ∷ []) (more_at (kinds.Keyword k.And) (keyword_at k.And) (term_at depth) lexemes.entry)) }
{
    let mut list = Items::new(alloc);
    list.push(first)?;
    let mut left = lexemes.len();
    let mut rest = lexemes;
    while left > 0 && next_word(Keyword::And, &rest) {
        let (_, behind) = keyword(Keyword::And, rest)?;
        let (tree, behind) = term(alloc, depth, behind)?;
        list.push(tree)?;
        rest = behind;
        left -= 1;
    }
    Ok((list, rest))
}

/// `term { AND term }`.
#[cycle(cond)]
#[tactic(auto, unfolding(hv_model::specs::SqlReading::conj_at))]
fn conj<'a>(alloc: Global, depth: u8, lexemes: Rest<'a>) -> Result<(CondAst, Rest<'a>), Stop<'a>>
    ensures { Gives result (conj_at (term_at depth) lexemes.entry) }
{
    let (first, rest) = term(alloc, depth, lexemes)?;
    let (terms, rest) = more_terms(alloc, depth, first, rest)?;
    Ok((all_of(terms), rest))
}

/// `{ OR conj }` behind a first one.
#[cycle(cond)]
fn more_conjs<'a>(
    alloc: Global,
    depth: u8,
    first: CondAst,
    lexemes: Rest<'a>,
) -> Result<(Items<CondAst>, Rest<'a>), Stop<'a>>
    ensures { Gives result (with_front (first ∷ []) (more_at (kinds.Keyword k.Or) (keyword_at k.Or) (conj_at (term_at depth)) lexemes.entry)) }
{
    let mut list = Items::new(alloc);
    list.push(first)?;
    let mut left = lexemes.len();
    let mut rest = lexemes;
    while left > 0 && next_word(Keyword::Or, &rest) {
        let (_, behind) = keyword(Keyword::Or, rest)?;
        let (tree, behind) = conj(alloc, depth, behind)?;
        list.push(tree)?;
        rest = behind;
        left -= 1;
    }
    Ok((list, rest))
}

/// `conj { OR conj }`.
#[cycle(cond)]
#[tactic(auto, unfolding(hv_model::specs::SqlReading::cond_at))]
fn cond<'a>(alloc: Global, depth: u8, lexemes: Rest<'a>) -> Result<(CondAst, Rest<'a>), Stop<'a>>
    ensures { Gives result (cond_at (term_at depth) lexemes.entry) }
{
    let (first, rest) = conj(alloc, depth, lexemes)?;
    let (conjs, rest) = more_conjs(alloc, depth, first, rest)?;
    Ok((any_of(conjs), rest))
}

/// `NOT term | ( cond ) | operand cmp operand`, over terms of a depth.
#[cycle(cond)]
#[tactic(auto, unfolding(hv_model::specs::SqlReading::deeper_at, hv_model::specs::SqlReading::negated_at, hv_model::specs::SqlReading::nested_at))]
fn deeper<'a>(alloc: Global, depth: u8, lexemes: Rest<'a>) -> Result<(CondAst, Rest<'a>), Stop<'a>>
    ensures { Gives result (deeper_at (term_at depth) lexemes.entry) }
{
    if next_word(Keyword::Not, &lexemes) {
        let (_, rest) = keyword(Keyword::Not, lexemes)?;
        let (tree, rest) = term(alloc, depth, rest)?;
        Ok((CondAst::Not(Boxed::new(alloc, tree)?), rest))
    } else if next_symbol(Symbol::Open, &lexemes) {
        let (_, rest) = symbol(Symbol::Open, lexemes)?;
        let (tree, rest) = cond(alloc, depth, rest)?;
        let (_, rest) = symbol(Symbol::Close, rest)?;
        Ok((tree, rest))
    } else {
        test(alloc, lexemes)
    }
}

/// A term with at most so many NOT and open parentheses around each test.
#[cycle(cond)]
#[tactic(auto, unfolding(hv_model::specs::SqlReading::term_at))]
fn term<'a>(alloc: Global, depth: u8, lexemes: Rest<'a>) -> Result<(CondAst, Rest<'a>), Stop<'a>>
    ensures { Gives result (term_at depth lexemes.entry) }
{
    if depth == 0 {
        test(alloc, lexemes)
    } else {
        deeper(alloc, depth - 1, lexemes)
    }
}

/// `[ WHERE cond ]`.
#[tactic(auto, unfolding(hv_model::specs::SqlReading::where_part_at))]
pub fn where_part<'a>(alloc: Global, lexemes: Rest<'a>) -> Result<(CondAst, Rest<'a>), Stop<'a>>
    ensures { Gives result (where_part_at lexemes.entry) }
{
    if next_word(Keyword::Where, &lexemes) {
        let (_, rest) = keyword(Keyword::Where, lexemes)?;
        cond(alloc, MAX_DEPTH, rest)
    } else {
        Ok((CondAst::Always, lexemes))
    }
}
