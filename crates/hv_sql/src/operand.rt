// Operands and comparisons.
ghost use Rattle.std.specs.Prelude.{◌≡◌, ◌≤◌, ◌^◌, pos, neg_ℤ};
ghost use Rattle.hv_model.specs.SqlReading.{negative_at, operand_at, test_at};
ghost use Rattle.hv_sql.specs.Code.{Gives};

use crate::reference::reference;
use crate::rest::Rest;
use crate::stop::Stop;
use crate::terminal::{MAX_NUMBER, cmp, next_is, next_symbol, number_up_to, symbol, text};
use hv_model::{CondAst, Kind, OperandAst, Symbol};
use hv_row::Value;
use std::alloc::Global;

/// A number of at most 2^63, as a number of 64 bits with a sign, negative.
fn negated(number: u64) -> i64
    requires { number ≤ 2 ^ 63 }
    ensures { result ≡ neg_ℤ (pos number) }
{
    if number == 1 << 63 {
        i64::MIN
    } else {
        -(number as i64)
    }
}

/// `[ - ] number`, where the sign stands.
#[tactic(auto, unfolding(hv_model::specs::SqlReading::negative_at))]
fn negative<'a>(lexemes: Rest<'a>) -> Result<(OperandAst, Rest<'a>), Stop<'a>>
    ensures { Gives result (negative_at lexemes.entry) }
{
    let (_, rest) = symbol(Symbol::Minus, lexemes)?;
    let (number, rest) = number_up_to(1 << 63, rest)?;
    Ok((OperandAst::Lit(Value::Int(negated(number.value))), rest))
}

/// `ref | [ - ] number | text`.
#[tactic(auto, unfolding(hv_model::specs::SqlReading::operand_at))]
fn operand<'a>(alloc: Global, lexemes: Rest<'a>) -> Result<(OperandAst, Rest<'a>), Stop<'a>>
    ensures { Gives result (operand_at lexemes.entry) }
{
    if next_is(Kind::Name, &lexemes) {
        let (column, rest) = reference(alloc, lexemes)?;
        Ok((OperandAst::Col(column), rest))
    } else if next_is(Kind::Number, &lexemes) {
        let (number, rest) = number_up_to(MAX_NUMBER, lexemes)?;
        Ok((OperandAst::Lit(Value::Int(number.value as i64)), rest))
    } else if next_symbol(Symbol::Minus, &lexemes) {
        negative(lexemes)
    } else {
        let (bytes, rest) = text(alloc, lexemes)?;
        Ok((OperandAst::Lit(Value::Text(bytes)), rest))
    }
}

/// `operand cmp operand`.
#[tactic(auto, unfolding(hv_model::specs::SqlReading::test_at))]
pub fn test<'a>(alloc: Global, lexemes: Rest<'a>) -> Result<(CondAst, Rest<'a>), Stop<'a>>
    ensures { Gives result (test_at lexemes.entry) }
{
    let (left, rest) = operand(alloc, lexemes)?;
    let (how, rest) = cmp(rest)?;
    let (right, rest) = operand(alloc, rest)?;
    Ok((
        CondAst::Test {
            left,
            cmp: how.0,
            right,
            byte: how.1,
        },
        rest,
    ))
}
