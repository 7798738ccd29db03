// The keywords and symbols that a token may be.
ghost use Rattle.std.specs.Prelude.{◌≡◌};
ghost use Rattle.std.specs.List.{filter, find};
ghost use Rattle.hv_model.specs.Token.{is_word};
ghost use Rattle.hv_sql.specs.Words.{has_length};
ghost use Rattle.hv_model.specs.Lexemes.{all_keywords, keyword_spelling, keyword_of, symbol_spelling, symbol_of, KeywordsNamed, KeywordsSpelled, SymbolsNamed, SymbolsSpelled};

use hv_model::{Keyword, Symbol, is_word};

// The keywords of two letters up to seven, each in the order of the alphabet.
const TWO_LETTERS: [Keyword; 5] = [
    Keyword::As,
    Keyword::By,
    Keyword::Is,
    Keyword::Of,
    Keyword::Or,
];

const THREE_LETTERS: [Keyword; 7] = [
    Keyword::And,
    Keyword::Asc,
    Keyword::Int,
    Keyword::Max,
    Keyword::Min,
    Keyword::Not,
    Keyword::Sum,
];

const FOUR_LETTERS: [Keyword; 5] = [
    Keyword::Desc,
    Keyword::From,
    Keyword::Into,
    Keyword::Null,
    Keyword::Text,
];

const FIVE_LETTERS: [Keyword; 12] = [
    Keyword::Chunk,
    Keyword::Count,
    Keyword::Group,
    Keyword::Index,
    Keyword::Limit,
    Keyword::Lines,
    Keyword::Merge,
    Keyword::Order,
    Keyword::Purge,
    Keyword::Range,
    Keyword::Table,
    Keyword::Where,
];

const SIX_LETTERS: [Keyword; 4] = [
    Keyword::Chunks,
    Keyword::Create,
    Keyword::Import,
    Keyword::Select,
];

const SEVEN_LETTERS: [Keyword; 3] = [Keyword::Barrier, Keyword::Session, Keyword::Summary];

const SYMBOLS: [Symbol; 13] = [
    Symbol::Open,
    Symbol::Close,
    Symbol::Comma,
    Symbol::Dot,
    Symbol::Star,
    Symbol::Minus,
    Symbol::Equal,
    Symbol::Unequal,
    Symbol::NotEqual,
    Symbol::Less,
    Symbol::AtMost,
    Symbol::Greater,
    Symbol::AtLeast,
];

// How a keyword is written in capitals.
fn keyword_spelling(word: Keyword) -> &'static [u8]
    ensures { result.now ≡ keyword_spelling word }
{
    match word {
        Keyword::And => b"AND",
        Keyword::As => b"AS",
        Keyword::Asc => b"ASC",
        Keyword::Barrier => b"BARRIER",
        Keyword::By => b"BY",
        Keyword::Chunk => b"CHUNK",
        Keyword::Chunks => b"CHUNKS",
        Keyword::Count => b"COUNT",
        Keyword::Create => b"CREATE",
        Keyword::Desc => b"DESC",
        Keyword::From => b"FROM",
        Keyword::Group => b"GROUP",
        Keyword::Import => b"IMPORT",
        Keyword::Index => b"INDEX",
        Keyword::Int => b"INT",
        Keyword::Into => b"INTO",
        Keyword::Is => b"IS",
        Keyword::Limit => b"LIMIT",
        Keyword::Lines => b"LINES",
        Keyword::Max => b"MAX",
        Keyword::Merge => b"MERGE",
        Keyword::Min => b"MIN",
        Keyword::Not => b"NOT",
        Keyword::Null => b"NULL",
        Keyword::Of => b"OF",
        Keyword::Or => b"OR",
        Keyword::Order => b"ORDER",
        Keyword::Purge => b"PURGE",
        Keyword::Range => b"RANGE",
        Keyword::Select => b"SELECT",
        Keyword::Session => b"SESSION",
        Keyword::Sum => b"SUM",
        Keyword::Summary => b"SUMMARY",
        Keyword::Table => b"TABLE",
        Keyword::Text => b"TEXT",
        Keyword::Where => b"WHERE",
    }
}

// The keywords of this length, in order.
fn keywords_of_length(length: usize) -> &'static [Keyword]
    ensures { result.now ≡ filter (has_length length) all_keywords }
{
    match length {
        2 => &TWO_LETTERS,
        3 => &THREE_LETTERS,
        4 => &FOUR_LETTERS,
        5 => &FIVE_LETTERS,
        6 => &SIX_LETTERS,
        7 => &SEVEN_LETTERS,
        _ => &[],
    }
}

/// Which keyword bytes are, in any case of their letters.
pub fn keyword_of(bytes: &[u8]) -> Option<Keyword>
    ensures { result ≡ keyword_of bytes.now }
{
    found_among(keywords_of_length(bytes.len()), bytes)
}

// Which of these keywords bytes are.
fn found_among(words: &[Keyword], bytes: &[u8]) -> Option<Keyword>
    ensures { result ≡ find (λ word. is_word (keyword_spelling word) bytes.now) words.now }
{
    words
        .iter()
        .copied()
        .find(|word| is_word(bytes, keyword_spelling(*word)))
}

fn symbol_spelling(symbol: Symbol) -> &'static [u8]
    ensures { result.now ≡ symbol_spelling symbol }
{
    match symbol {
        Symbol::Open => b"(",
        Symbol::Close => b")",
        Symbol::Comma => b",",
        Symbol::Dot => b".",
        Symbol::Star => b"*",
        Symbol::Minus => b"-",
        Symbol::Equal => b"=",
        Symbol::Unequal => b"<>",
        Symbol::NotEqual => b"!=",
        Symbol::Less => b"<",
        Symbol::AtMost => b"<=",
        Symbol::Greater => b">",
        Symbol::AtLeast => b">=",
    }
}

/// Which symbol bytes are.
pub fn symbol_of(bytes: &[u8]) -> Option<Symbol>
    ensures { result ≡ symbol_of bytes.now }
{
    SYMBOLS
        .iter()
        .copied()
        .find(|symbol| bytes == symbol_spelling(*symbol))
}

/// The law of keywords and symbols. It does nothing: its contract is this law.
pub fn words_law()
    ensures keywords { KeywordsNamed }
    ensures spelled { KeywordsSpelled }
    ensures symbols { SymbolsNamed }
    ensures written { SymbolsSpelled }
{}
