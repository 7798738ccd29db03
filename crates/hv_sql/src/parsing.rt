// The tree of a statement's text, or the fault.
ghost use Rattle.std.specs.Prelude.{◌≡◌, ◌≤◌, List, length, IfOk, IfErr};
ghost use Rattle.hv_model.specs.SqlReading.{statement_at};
ghost use Rattle.hv_model.specs.SqlReading.{tree_at};
ghost use Rattle.hv_model.specs.Lexed as spec;
ghost use Rattle.hv_model.specs.Parsed.{parsed};
ghost use Rattle.hv_model.specs.Fault.{IsStatement, IsSyntaxFault, place_of};
ghost use Rattle.hv_sql.specs.Code.{Gives};
ghost use Rattle.hv_sql.specs.Answer.{Answers, Reads, IsTree, IsSyntax, Explains};
ghost use Rattle.hv_model.specs.declared.lexeme.Lexeme.{Lexeme};
ghost use Rattle.hv_model.specs.declared.tree.Ast.{Ast};

use crate::lexing::lex;
use crate::rest::Rest;
use crate::select::select;
use crate::statement::{barrier, create, import, merge, purge, session};
use crate::stop::Stop;
use crate::terminal::next_word;
use hv_model::{Ast, Keyword};
use std::alloc::{AllocError, Global};

/// Why a statement has no tree.
#[derive(Debug, Clone, Copy, PartialEq, Eq)]
pub enum SqlFault {
    /// The token at this byte, or the text's end, is the first with which no statement goes on.
    Syntax { byte: u32 },
    Memory,
}

impl From<AllocError> for SqlFault {
    ghost use Rattle.hv_sql.specs.declared.parsing.SqlFault.TheVariants.{Memory};

    ghost from_gives = { λ _ e. e ≡ Memory };

    fn from(_error: AllocError) -> SqlFault {
        SqlFault::Memory
    }
}

/// Any statement.
#[tactic(auto, unfolding(hv_model::specs::SqlReading::statement_at))]
fn statement<'a>(alloc: Global, lexemes: Rest<'a>) -> Result<(Ast, Rest<'a>), Stop<'a>>
    ensures { Gives result (statement_at lexemes.entry) }
{
    if next_word(Keyword::Create, &lexemes) {
        create(alloc, lexemes)
    } else if next_word(Keyword::Import, &lexemes) {
        import(alloc, lexemes)
    } else if next_word(Keyword::Purge, &lexemes) {
        purge(alloc, lexemes)
    } else if next_word(Keyword::Merge, &lexemes) {
        merge(alloc, lexemes)
    } else if next_word(Keyword::Session, &lexemes) {
        session(alloc, lexemes)
    } else if next_word(Keyword::Barrier, &lexemes) {
        barrier(lexemes)
    } else {
        select(alloc, lexemes)
    }
}

/// The byte of the next token, or the end.
fn place_of(lexemes: &Rest<'_>, end: u32) -> u32
    ensures { result ≡ place_of lexemes.now end }
{
    match lexemes.first() {
        Some((next, _)) => next.byte,
        None => end,
    }
}

/// The tree, or the place of the fault, as the rules are read.
fn answer(alloc: Global, lexemes: Rest<'_>, end: u32) -> Result<Ast, SqlFault>
    ensures { Answers result end (tree_at lexemes.entry) }
{
    match statement(alloc, lexemes) {
        Ok((tree, rest)) => {
            if rest.is_empty() {
                Ok(tree)
            } else {
                let byte = place_of(&rest, end);
                Err(SqlFault::Syntax { byte })
            }
        }
        Err(Stop::At(at)) => {
            let byte = place_of(&at, end);
            Err(SqlFault::Syntax { byte })
        }
        Err(Stop::Memory) => Err(SqlFault::Memory),
    }
}

/// The tree of a statement's text; `Syntax` exactly where its tokens are no statement.
pub fn parse(alloc: Global, text: &[u8]) -> Result<Ast, SqlFault>
    requires { length text.now ≤ 67108864 }
    ensures read { Reads result (parsed text.now) }
    ensures found { IfOk result (λ a. IsStatement (spec.lexemes text.now) a) }
    ensures only { (a : Ast) → IsStatement (spec.lexemes text.now) a → IsTree result a }
    ensures told { (at : List Lexeme) → IsSyntaxFault (spec.lexemes text.now) at → IsSyntax result (place_of at (length text.now)) }
    ensures fault { IfErr result (λ e. Explains (spec.lexemes text.now) (length text.now) e) }
{
    let tokens = lex(alloc, text)?;
    let lexemes = Rest::new(text, tokens.as_slice());
    answer(alloc, lexemes, text.len() as u32)
}
