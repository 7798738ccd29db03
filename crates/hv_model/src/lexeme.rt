// The tokens of a statement's text: their places, and what the grammar sees them as.
use hv_row::{Bytes, Listed};

/// What sort of token it is.
#[derive(Debug, Clone, Copy, PartialEq, Eq)]
pub enum Sort {
    /// A letter or `_`, and letters, digits or `_` behind it: at most 30 bytes, and no keyword.
    Name,
    /// A keyword, in any case of its letters.
    Keyword,
    /// One digit or more.
    Number,
    /// Bytes between single quotes, in which a quote is written twice.
    Text,
    /// One of `( ) , . * - = <> != < <= > >=`.
    Symbol,
    /// What no statement has.
    Other,
}

/// A token: its bytes are those of its text from `from` up to `to`, without the last.
#[derive(Debug, Clone, Copy, PartialEq, Eq)]
pub struct Token {
    pub sort: Sort,
    pub from: u32,
    pub to: u32,
}

/// The tokens of a text, in order.
pub type Tokens = Listed<Token>;

/// A word that no name may be.
#[derive(Debug, Clone, Copy, PartialEq, Eq)]
pub enum Keyword {
    And,
    As,
    Asc,
    Barrier,
    By,
    Chunk,
    Chunks,
    Count,
    Create,
    Desc,
    From,
    Group,
    Import,
    Index,
    Int,
    Into,
    Is,
    Limit,
    Lines,
    Max,
    Merge,
    Min,
    Not,
    Null,
    Of,
    Or,
    Order,
    Purge,
    Range,
    Select,
    Session,
    Sum,
    Summary,
    Table,
    Text,
    Where,
}

/// A symbol.
#[derive(Debug, Clone, Copy, PartialEq, Eq)]
pub enum Symbol {
    /// `(`
    Open,
    /// `)`
    Close,
    /// `,`
    Comma,
    /// `.`
    Dot,
    /// `*`
    Star,
    /// `-`
    Minus,
    /// `=`
    Equal,
    /// `<>`
    Unequal,
    /// `!=`
    NotEqual,
    /// `<`
    Less,
    /// `<=`
    AtMost,
    /// `>`
    Greater,
    /// `>=`
    AtLeast,
}

/// The kind of a lexeme: what it is, whatever the bytes of a name or a text and the value of a number.
#[derive(Debug, Clone, Copy, PartialEq, Eq)]
pub enum Kind {
    Name,
    Number,
    Text,
    Symbol(Symbol),
    Keyword(Keyword),
    /// What no statement has.
    Other,
}

/// What a lexeme is. No code builds one: the parser reads tokens, and definitions and contracts speak of lexemes.
#[derive(Debug, Drop)]
pub enum What {
    /// A name's bytes.
    Name(Bytes),
    Keyword(Keyword),
    /// A number's value, or 2^64 - 1 where it is greater.
    Number(u64),
    /// A text's bytes, each quote once.
    Text(Bytes),
    Symbol(Symbol),
    /// What no statement has.
    Other,
}

/// A lexeme: what it is, and the byte at which it begins in its statement. No code builds one, as no `What`.
#[derive(Debug, Drop)]
pub struct Lexeme {
    pub what: What,
    pub byte: u32,
}
