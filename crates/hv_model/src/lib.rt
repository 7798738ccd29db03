//! What a script means: the types of statements, commands, queries and replies, and in `specs/` the definitions that every contract above speaks of.
//! Nothing here has a page, a file or a budget.
#![tactic(auto)]

mod catalogue;
mod law;
mod lexeme;
mod query;
mod reply;
mod script;
mod session_name;
mod token;
mod tree;

pub use catalogue::{
    Chunk, Chunks, Command, Database, Detail, Entries, Entry, StepRefusal, Table, TableHead, Tables,
};
pub use law::{barrier_is_met_and_missed, content_decides_nothing};
pub use lexeme::{Keyword, Kind, Lexeme, Sort, Symbol, Token, Tokens, What};
pub use query::{
    BoundQuery, Cell, ColRef, ColRefs, Combo, Combos, Cond, Item, Items, Operand, OutRow, OutRows,
    Places, PlainTables, SortKey, SortKeys,
};
pub use reply::{Failure, Refusal, Replies, Reply, Why};
pub use script::{FaultName, Phase, Phases, Script, ScriptFault, SessionNames, Statement};
pub use session_name::SessionName;
pub use token::{
    MAX_NAME_BYTES, begins_name, is_digit, is_name_byte, is_number, is_white, is_word,
};
pub use tree::{
    Ast, Cmp, CondAst, ItemAst, ItemAsts, KeyAst, KeyAsts, KeyBy, Numbers, Numeral, OperandAst,
    PlaceAst, PlaceAsts, RefAst, RefAsts, SelectAst, Word, has_aggregate, is_grouped,
};
