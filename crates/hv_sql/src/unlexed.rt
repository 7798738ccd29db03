// What is left of a text whose tokens are looked for one by one.
ghost use Rattle.std.specs.Prelude.{◌≡◌, ◌↔◌, ◌<◌, ◌≤◌, IsTrue, false, [], length, drop, slice_index};
ghost use Rattle.hv_model.specs.Token.{is_white};
ghost use Rattle.hv_model.specs.Lexemes.{tokens_from};
ghost use Rattle.hv_model.specs.Lexed as spec;
ghost use Rattle.hv_sql.specs.Next.{IsFirst};

use crate::lexing::{token_at, token_bytes};
use crate::rest::{Next, look_at};
use hv_model::is_white;
use std::marker::Model;

/// What is left of a text, in which no token was looked for: it takes no memory, and contracts see it as lexemes.
#[derive(Drop)]
pub struct Unlexed<'a> {
    text: &'a [u8],
    at: usize,
}

impl<'a> Model for Unlexed<'a> {
    ghost use Rattle.std.specs.Prelude.{◌≤◌, List, length, drop};
    ghost use Rattle.hv_model.specs.declared.lexeme.Lexeme.{Lexeme};
    ghost use Rattle.hv_model.specs.Lexemes.{tokens_from};
    ghost use Rattle.hv_model.specs.Lexed.{lexemes_of};

    ghost Value = { List Lexeme };

    ghost view = { λ u. lexemes_of u.text.now (tokens_from u.at 0 (drop u.at u.text.now)) };

    ghost invariant = { λ u. (length u.text.now ≤ 67108864) × (u.at ≤ length u.text.now) };
}

impl<'a> Unlexed<'a> {
    /// A whole text.
    pub fn new(text: &'a [u8]) -> Unlexed<'a>
        requires { length text.now ≤ 67108864 }
        ensures { result ≡ spec.lexemes text.now }
    {
        Unlexed { text, at: 0 }
    }

    pub fn is_empty(&self) -> bool
        ensures { IsTrue result ↔ (self.now ≡ []) }
    {
        self.first().is_none()
    }

    /// The next token, and what is left behind it.
    pub fn first(&self) -> Option<(Next<'a>, Unlexed<'a>)>
        ensures { IsFirst result self.now }
    {
        let text = self.text;
        let from = past_white(text, self.at);
        if from < text.len() {
            let token = token_at(text, from);
            let what = look_at(token.sort, token_bytes(text, token));
            let byte = token.from;
            let at = token.to as usize;
            Some((Next { what, byte }, Unlexed { text, at }))
        } else {
            None
        }
    }
}

// The first place from this one on whose byte is not white, or the end.
fn past_white(text: &[u8], from: usize) -> usize
    requires { from ≤ length text.now }
    ensures within { result ≤ length text.now }
    ensures dark { result < length text.now → is_white (slice_index text.now result) ≡ false }
    ensures same { tokens_from from 0 (drop from text.now) ≡ tokens_from result 0 (drop result text.now) }
{
    let mut at = from;
    while at < text.len() && is_white(text[at]) {
        at += 1;
    }
    at
}
