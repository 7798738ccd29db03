// Work on the texts of statements.
ghost use Rattle.std.specs.Prelude.{◌≡◌, ◌≤◌, length};

use hv_sql::{lex, parse};
use std::alloc::{AllocError, Global};

/// The most bytes of a text.
const MAX_TEXT_BYTES: usize = 67_108_864;

/// The most items of a statement.
const MAX_ITEMS: u32 = 128;

/// What is done with a text.
#[derive(Clone, Copy, Debug, PartialEq, Eq)]
pub enum Reading {
    /// Its bytes are added up.
    Text,
    /// Its tokens are read.
    Lex,
    /// It is read as a statement.
    Parse,
}

impl Reading {
    /// The reading of this name.
    pub fn named(name: &str) -> Option<Reading> {
        match name {
            "text" => Some(Reading::Text),
            "lex" => Some(Reading::Lex),
            "parse" => Some(Reading::Parse),
            _ => None,
        }
    }
}

/// Which texts are read.
#[derive(Clone, Copy, Debug)]
pub enum Kind {
    /// Statements with as many tests between OR as fit.
    Or,
    /// Statements with a number of as many zeros as fit.
    Digits,
    /// Statements of as many items as one may have, with as many blanks between them as fit.
    Items,
    /// The statements of `ORDINARY` in turn.
    Ordinary,
}

impl Kind {
    /// The kind of this name.
    pub fn named(name: &str) -> Option<Kind> {
        match name {
            "or" => Some(Kind::Or),
            "digits" => Some(Kind::Digits),
            "items" => Some(Kind::Items),
            "ordinary" => Some(Kind::Ordinary),
            _ => None,
        }
    }
}

const ORDINARY: [&[u8]; 7] = [
    b"CREATE TABLE orders (id INT INDEX RANGE, cust INT, note TEXT)",
    b"IMPORT INTO orders LINES 5000",
    b"SELECT COUNT(*) FROM orders",
    b"SELECT id, cust, qty FROM orders, items WHERE items.ord = orders.id AND orders.cust < 10 ORDER BY 1 LIMIT 20",
    b"SELECT part, COUNT(*), SUM(qty) FROM items GROUP BY part ORDER BY part",
    b"SELECT o.id, i.part FROM orders AS o, items i WHERE i.ord = o.id AND (i.qty >= 5 OR NOT o.note = 'it''s late')",
    b"MERGE CHUNKS 1, 3 OF orders",
];

/// Reads texts of this kind, and gives a sum over what was read: ordinary statements of so many bytes together, or statements of so many bytes each and
/// of `MAX_TEXT_BYTES` together.
pub fn read(alloc: Global, reading: Reading, kind: Kind, size: u32) -> Result<u64, AllocError> {
    match kind {
        Kind::Ordinary => read_ordinary(alloc, reading, size),
        _ => read_texts(alloc, reading, texts_of(alloc, kind, size)?.as_slice()),
    }
}

// As many texts of one kind and size as have `MAX_TEXT_BYTES` together, at least one.
fn texts_of(alloc: Global, kind: Kind, size: u32) -> Result<Vec<Vec<u8>>, AllocError> {
    let count = MAX_TEXT_BYTES as u32 / size.max(1);
    let mut texts = Vec::new(alloc);
    for _ in 0..count.max(1) {
        texts.push(text_of(alloc, kind, size as usize)?)?;
    }
    Ok(texts)
}

// Reads each text once. What was read is kept to the end, so that many short texts take as much memory as a long one.
fn read_texts(alloc: Global, reading: Reading, texts: &[Vec<u8>]) -> Result<u64, AllocError> {
    match reading {
        Reading::Text => Ok(
            texts.iter().fold(0u64, |sum, text| sum.wrapping_add(sum_of(text.as_slice()))),
        ),
        Reading::Lex => lex_all(alloc, texts),
        Reading::Parse => parse_all(alloc, texts),
    }
}

// How many tokens the texts have.
fn lex_all(alloc: Global, texts: &[Vec<u8>]) -> Result<u64, AllocError> {
    let mut read = Vec::new(alloc);
    for text in texts {
        if text.len() > MAX_TEXT_BYTES {
            return Err(AllocError);
        }
        read.push(lex(alloc, text.as_slice())?)?;
    }
    Ok(
        read.iter()
            .fold(0u64, |sum, tokens| sum.wrapping_add(tokens.len() as u64)),
    )
}

// How many of the texts have trees.
fn parse_all(alloc: Global, texts: &[Vec<u8>]) -> Result<u64, AllocError> {
    let mut read = Vec::new(alloc);
    for text in texts {
        if text.len() > MAX_TEXT_BYTES {
            return Err(AllocError);
        }
        read.push(parse(alloc, text.as_slice()))?;
    }
    Ok(read.iter().fold(0u64, |sum, tree| sum.wrapping_add(u64::from(tree.is_ok()))))
}

// Reads ordinary statements in turn, as long as the next one fits.
fn read_ordinary(alloc: Global, reading: Reading, size: u32) -> Result<u64, AllocError> {
    let mut sum = 0u64;
    let mut left = size as usize;
    for turn in 0..size {
        let text = ORDINARY[turn as usize % ORDINARY.len()];
        let Some(behind) = left.checked_sub(text.len()) else {
            return Ok(sum);
        };
        left = behind;
        sum = sum.wrapping_add(read_text(alloc, reading, text)?);
    }
    Ok(sum)
}

// A text of this kind and of at most so many bytes, where the least such text has no more.
fn text_of(alloc: Global, kind: Kind, size: usize) -> Result<Vec<u8>, AllocError> {
    let mut text = Vec::with_capacity(alloc, size)?;
    match kind {
        Kind::Or => {
            text.extend_from_slice(b"SELECT * FROM t WHERE a = 1")?;
            for _ in 0..size.saturating_sub(27) / 9 {
                text.extend_from_slice(b" OR a = 1")?;
            }
        }
        Kind::Digits => {
            text.extend_from_slice(b"SELECT * FROM t WHERE a = ")?;
            text.resize(size.saturating_sub(1).max(26), b'0')?;
            text.push(b'1')?;
        }
        Kind::Items | Kind::Ordinary => push_items(&mut text, size)?,
    }
    Ok(text)
}

// Puts a statement of `MAX_ITEMS` items, with as many blanks before each item but the first as fit into so many bytes.
fn push_items(text: &mut Vec<u8>, size: usize) -> Result<(), AllocError> {
    let blanks = (size.saturating_sub(15) / 127).saturating_sub(2);
    text.extend_from_slice(b"SELECT a")?;
    for _ in 1..MAX_ITEMS {
        text.push(b',')?;
        let len = text.len().saturating_add(blanks);
        text.resize(len, b' ')?;
        text.push(b'a')?;
    }
    text.extend_from_slice(b" FROM t")?;
    Ok(())
}

// Reads one text, and keeps nothing of it.
fn read_text(alloc: Global, reading: Reading, text: &[u8]) -> Result<u64, AllocError> {
    if text.len() > MAX_TEXT_BYTES {
        return Err(AllocError);
    }
    match reading {
        Reading::Text => Ok(sum_of(text)),
        Reading::Lex => Ok(lex(alloc, text)?.len() as u64),
        Reading::Parse => Ok(u64::from(parse(alloc, text).is_ok())),
    }
}

// The sum over the bytes of a text.
fn sum_of(text: &[u8]) -> u64 {
    text.iter()
        .fold(0u64, |sum, byte| sum.wrapping_add(u64::from(*byte)))
}
