// Whether a statement's text is SESSION or BARRIER.
ghost use Rattle.std.specs.Prelude.{◌≡◌, ◌≤◌, length};
ghost use Rattle.std.specs.Option.{option_copied};
ghost use Rattle.hv_model.specs.Parsed.{tree_of};
ghost use Rattle.hv_sql.specs.Marks.{IsLastName, IsMark};

use crate::rest::Seen;
use crate::terminal::is_of_kind;
use crate::unlexed::Unlexed;
use hv_model::{Keyword, Kind};

/// What a text says to those behind it that has no reply.
#[derive(Clone, Copy)]
pub enum Mark<'a> {
    /// `SESSION name`: what follows is of this session.
    Session(&'a [u8]),
    /// `BARRIER`: a phase ends.
    Barrier,
}

// The name that the lexemes are, where they are one name and nothing else.
fn last_name<'a>(lexemes: Unlexed<'a>) -> Option<&'a [u8]>
    ensures { IsLastName (option_copied result) lexemes.entry }
{
    let (next, rest) = lexemes.first()?;
    match next.what {
        Seen::Name(name) if rest.is_empty() => Some(name),
        _ => None,
    }
}

/// Whether a statement's text is exactly `SESSION name` or `BARRIER`. Takes no memory, and looks at one token of most texts, and at three at most.
pub fn mark_of(text: &[u8]) -> Option<Mark<'_>>
    requires { length text.now ≤ 67108864 }
    ensures { IsMark result (tree_of text.now) }
{
    let (first, rest) = Unlexed::new(text).first()?;
    if is_of_kind(first.what, Kind::Keyword(Keyword::Session)) {
        return Some(Mark::Session(last_name(rest)?));
    }
    if is_of_kind(first.what, Kind::Keyword(Keyword::Barrier)) && rest.is_empty() {
        return Some(Mark::Barrier);
    }
    None
}
