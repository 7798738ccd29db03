// What is left of a text's tokens.
ghost use Rattle.std.specs.Prelude.{◌≡◌, ◌↔◌, IsTrue, [], length};
ghost use Rattle.hv_model.specs.Lexemes.{IsOf, tokens_of};
ghost use Rattle.hv_model.specs.Lexed as spec;
ghost use Rattle.hv_sql.specs.Next.{what_seen, IsFirst};

use crate::lexing::{number_of, token_bytes};
use crate::words::{keyword_of, symbol_of};
use hv_model::{Keyword, Sort, Symbol, Token};
use std::marker::Model;

/// What a token is. Names and texts stand in the statement's text, a text with its quotes.
#[derive(Clone, Copy)]
pub enum Seen<'a> {
    Name(&'a [u8]),
    Keyword(Keyword),
    Number(u64),
    Text(&'a [u8]),
    Symbol(Symbol),
    Other,
}

/// The next token: what it is, and the byte at which it begins.
#[derive(Clone, Copy)]
pub struct Next<'a> {
    pub what: Seen<'a>,
    pub byte: u32,
}

/// The tokens that are left of a text, which contracts see as lexemes.
#[derive(Drop)]
pub struct Rest<'a> {
    text: &'a [u8],
    tokens: &'a [Token],
}

impl<'a> Model for Rest<'a> {
    ghost use Rattle.std.specs.Prelude.{List};
    ghost use Rattle.hv_model.specs.declared.lexeme.Lexeme.{Lexeme};
    ghost use Rattle.hv_model.specs.Lexed.{lexemes_of, AllStandIn};

    ghost Value = { List Lexeme };

    ghost view = { λ r. lexemes_of r.text.now r.tokens.now };

    ghost invariant = { λ r. AllStandIn r.text.now r.tokens.now };
}

impl<'a> Rest<'a> {
    /// All tokens of a text.
    pub fn new(text: &'a [u8], tokens: &'a [Token]) -> Rest<'a>
        requires { tokens.now ≡ tokens_of text.now }
        ensures { result ≡ spec.lexemes text.now }
    {
        Rest { text, tokens }
    }

    pub fn len(&self) -> usize
        ensures { result ≡ length self.now }
    {
        self.tokens.len()
    }

    pub fn is_empty(&self) -> bool
        ensures { IsTrue result ↔ (self.now ≡ []) }
    {
        self.tokens.is_empty()
    }

    /// The next token, and what is left behind it.
    pub fn first(&self) -> Option<(Next<'a>, Rest<'a>)>
        ensures { IsFirst result self.now }
    {
        let text = self.text;
        match self.tokens.split_first() {
            Some((token, tokens)) => {
                let what = look_at(token.sort, token_bytes(text, *token));
                let byte = token.from;
                Some((Next { what, byte }, Rest { text, tokens }))
            }
            None => None,
        }
    }
}

/// What bytes of this sort are.
pub fn look_at<'a>(sort: Sort, bytes: &'a [u8]) -> Seen<'a>
    requires { IsOf sort bytes.now }
    ensures { what_seen result ≡ spec.what_of sort bytes.now }
{
    match sort {
        Sort::Name => Seen::Name(bytes),
        Sort::Keyword => match keyword_of(bytes) {
            Some(which) => Seen::Keyword(which),
            None => Seen::Other,
        },
        Sort::Number => Seen::Number(number_of(bytes)),
        Sort::Text => Seen::Text(bytes),
        Sort::Symbol => match symbol_of(bytes) {
            Some(which) => Seen::Symbol(which),
            None => Seen::Other,
        },
        Sort::Other => Seen::Other,
    }
}
