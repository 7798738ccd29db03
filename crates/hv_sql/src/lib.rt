//! The language: the tree of a statement's text, or the place of its fault.
#![tactic(auto)]

mod column;
mod condition;
mod importing;
mod item;
mod law;
mod lexing;
mod marking;
mod operand;
mod order;
mod parsing;
mod place;
mod reference;
mod rest;
mod rule;
mod select;
mod statement;
mod stop;
mod terminal;
mod unlexed;
mod words;

pub use importing::import_lines;
pub use law::{fault_law, grammar_laws};
pub use lexing::{lex, lexing_law, number_of, text_of, token_bytes};
pub use marking::{Mark, mark_of};
pub use parsing::{SqlFault, parse};
pub use words::{keyword_of, symbol_of, words_law};
