// The terminals: readers of one lexeme.
ghost use Rattle.std.specs.Prelude.{◌≡◌, ◌≤◌, IfOk};
ghost use Rattle.hv_model.specs.Terminals as spec;
ghost use Rattle.hv_model.specs.Reading.{one_at, next_is, given_at};
ghost use Rattle.hv_model.specs.SqlReading.{keyword_at, symbol_at, name_at, number_up_to_at, text_at, cmp_at};
ghost use Rattle.hv_sql.specs.Code.{Gives};
ghost use Rattle.hv_sql.specs.Next.{what_seen};

use crate::lexing::text_of;
use crate::rest::{Rest, Seen};
use crate::stop::Stop;
use hv_model::{Cmp, Keyword, Kind, Numeral, Symbol, Word};
use hv_row::{Bytes, Listed};
use std::alloc::Global;

/// The greatest number of 64 bits with a sign.
pub const MAX_NUMBER: u64 = 9223372036854775807;

/// The kind of what is seen.
fn kind(what: Seen<'_>) -> Kind
    ensures { result ≡ spec.kind_of (what_seen what.entry) }
{
    match what {
        Seen::Name(_) => Kind::Name,
        Seen::Number(_) => Kind::Number,
        Seen::Text(_) => Kind::Text,
        Seen::Symbol(symbol) => Kind::Symbol(symbol),
        Seen::Keyword(keyword) => Kind::Keyword(keyword),
        Seen::Other => Kind::Other,
    }
}

/// Whether what is seen is of this kind.
pub fn is_of_kind(what: Seen<'_>, wanted: Kind) -> bool
    ensures { result ≡ spec.same_kind (spec.kind_of (what_seen what.entry)) wanted }
{
    kind(what) == wanted
}

/// Whether the next lexeme is of this kind.
pub fn next_is(wanted: Kind, lexemes: &Rest<'_>) -> bool
    ensures { result ≡ next_is wanted lexemes.now }
{
    match lexemes.first() {
        Some((next, _)) => is_of_kind(next.what, wanted),
        None => false,
    }
}

/// Whether the next lexeme is this keyword.
pub fn next_word(which: Keyword, lexemes: &Rest<'_>) -> bool
    ensures { result ≡ next_is (Kind.Keyword which) lexemes.now }
{
    next_is(Kind::Keyword(which), lexemes)
}

/// Whether the next lexeme is this symbol.
pub fn next_symbol(which: Symbol, lexemes: &Rest<'_>) -> bool
    ensures { result ≡ next_is (Kind.Symbol which) lexemes.now }
{
    next_is(Kind::Symbol(which), lexemes)
}

/// A lexeme of this kind, by its byte.
fn of_kind<'a>(wanted: Kind, lexemes: Rest<'a>) -> Result<(u32, Rest<'a>), Stop<'a>>
    ensures { Gives result (one_at (spec.of_kind wanted) lexemes.entry) }
{
    match lexemes.first() {
        Some((next, rest)) if is_of_kind(next.what, wanted) => Ok((next.byte, rest)),
        _ => Err(Stop::At(lexemes)),
    }
}

/// A keyword, by its byte.
pub fn keyword<'a>(which: Keyword, lexemes: Rest<'a>) -> Result<(u32, Rest<'a>), Stop<'a>>
    ensures { Gives result (keyword_at which lexemes.entry) }
{
    of_kind(Kind::Keyword(which), lexemes)
}

/// Whether a keyword stands there, which may be left out.
pub fn given<'a>(which: Keyword, lexemes: Rest<'a>) -> Result<(bool, Rest<'a>), Stop<'a>>
    ensures { Gives result (given_at (Kind.Keyword which) (keyword_at which) lexemes.entry) }
{
    if next_word(which, &lexemes) {
        let (_, rest) = keyword(which, lexemes)?;
        Ok((true, rest))
    } else {
        Ok((false, lexemes))
    }
}

/// A symbol, by its byte.
pub fn symbol<'a>(which: Symbol, lexemes: Rest<'a>) -> Result<(u32, Rest<'a>), Stop<'a>>
    ensures { Gives result (symbol_at which lexemes.entry) }
{
    of_kind(Kind::Symbol(which), lexemes)
}

/// A name.
pub fn name<'a>(alloc: Global, lexemes: Rest<'a>) -> Result<(Word, Rest<'a>), Stop<'a>>
    ensures { Gives result (name_at lexemes.entry) }
{
    let Some((next, rest)) = lexemes.first() else {
        return Err(Stop::At(lexemes));
    };
    match next.what {
        Seen::Name(bytes) => {
            let name = Listed::from_slice(alloc, bytes)?;
            let byte = next.byte;
            Ok((Word { name, byte }, rest))
        }
        _ => Err(Stop::At(lexemes)),
    }
}

/// A number of at most this value, and its byte.
pub fn number_up_to<'a>(most: u64, lexemes: Rest<'a>) -> Result<(Numeral, Rest<'a>), Stop<'a>>
    ensures gives { Gives result (number_up_to_at most lexemes.entry) }
    ensures most { IfOk result (λ x. x.0.value ≤ most) }
{
    let Some((next, rest)) = lexemes.first() else {
        return Err(Stop::At(lexemes));
    };
    match next.what {
        Seen::Number(value) if value <= most => {
            let byte = next.byte;
            Ok((Numeral { value, byte }, rest))
        }
        _ => Err(Stop::At(lexemes)),
    }
}

/// A text's bytes.
pub fn text<'a>(alloc: Global, lexemes: Rest<'a>) -> Result<(Bytes, Rest<'a>), Stop<'a>>
    ensures { Gives result (text_at lexemes.entry) }
{
    let Some((next, rest)) = lexemes.first() else {
        return Err(Stop::At(lexemes));
    };
    match next.what {
        Seen::Text(bytes) => Ok((text_of(alloc, bytes)?, rest)),
        _ => Err(Stop::At(lexemes)),
    }
}

/// What a symbol compares by.
fn cmp_of(which: Symbol) -> Option<Cmp>
    ensures { result ≡ spec.cmp_of which }
{
    match which {
        Symbol::Equal => Some(Cmp::Eq),
        Symbol::Unequal | Symbol::NotEqual => Some(Cmp::Ne),
        Symbol::Less => Some(Cmp::Lt),
        Symbol::AtMost => Some(Cmp::Le),
        Symbol::Greater => Some(Cmp::Gt),
        Symbol::AtLeast => Some(Cmp::Ge),
        _ => None,
    }
}

/// A comparison and the byte of its symbol.
pub fn cmp<'a>(lexemes: Rest<'a>) -> Result<((Cmp, u32), Rest<'a>), Stop<'a>>
    ensures { Gives result (cmp_at lexemes.entry) }
{
    let Some((next, rest)) = lexemes.first() else {
        return Err(Stop::At(lexemes));
    };
    let Seen::Symbol(which) = next.what else {
        return Err(Stop::At(lexemes));
    };
    match cmp_of(which) {
        Some(how) => Ok(((how, next.byte), rest)),
        None => Err(Stop::At(lexemes)),
    }
}
