// How many lines of data a statement's text takes.
ghost use Rattle.std.specs.Prelude.{◌≡◌, ◌≤◌, length};
ghost use Rattle.hv_model.specs.SqlReading.{keyword_at, name_at, number_up_to_at};
ghost use Rattle.hv_model.specs.Parsed.{largest_number, import_lines_at, lines_wanted};
ghost use Rattle.hv_sql.specs.Code.{Passes, Finds};

use crate::rest::Seen;
use crate::terminal::is_of_kind;
use crate::unlexed::Unlexed;
use hv_model::{Keyword, Kind, Numeral};

// What is left behind a keyword.
fn keyword<'a>(which: Keyword, lexemes: Unlexed<'a>) -> Option<Unlexed<'a>>
    ensures { Passes result (keyword_at which lexemes.entry) }
{
    match lexemes.first() {
        Some((next, rest)) if is_of_kind(next.what, Kind::Keyword(which)) => Some(rest),
        _ => None,
    }
}

// What is left behind a name.
fn name<'a>(lexemes: Unlexed<'a>) -> Option<Unlexed<'a>>
    ensures { Passes result (name_at lexemes.entry) }
{
    match lexemes.first() {
        Some((next, rest)) => match next.what {
            Seen::Name(_) => Some(rest),
            _ => None,
        },
        None => None,
    }
}

// A number and its byte, whatever its value.
fn number<'a>(lexemes: Unlexed<'a>) -> Option<(Numeral, Unlexed<'a>)>
    ensures { Finds result (number_up_to_at largest_number lexemes.entry) }
{
    match lexemes.first() {
        Some((next, rest)) => match next.what {
            Seen::Number(value) => {
                let byte = next.byte;
                Some((Numeral { value, byte }, rest))
            }
            _ => None,
        },
        None => None,
    }
}

// The number of lines in `IMPORT INTO name LINES number`.
#[tactic(auto, unfolding(hv_model::specs::Parsed::import_lines_at))]
fn lines<'a>(lexemes: Unlexed<'a>) -> Option<(u64, Unlexed<'a>)>
    ensures { Finds result (import_lines_at lexemes.entry) }
{
    let rest = keyword(Keyword::Import, lexemes)?;
    let rest = keyword(Keyword::Into, rest)?;
    let rest = name(rest)?;
    let rest = keyword(Keyword::Lines, rest)?;
    let (number, rest) = number(rest)?;
    Some((number.value, rest))
}

/// How many lines of data a statement's text takes: as many as it says where it is exactly `IMPORT INTO name LINES number`, whatever the
/// number, up to 2^64 - 1; else none. Of a text that is no import one token is looked at, and of any at most six.
pub fn import_lines(text: &[u8]) -> u64
    requires { length text.now ≤ 67108864 }
    ensures { result ≡ lines_wanted text.now }
{
    match lines(Unlexed::new(text)) {
        Some((number, rest)) if rest.is_empty() => number,
        _ => 0,
    }
}
