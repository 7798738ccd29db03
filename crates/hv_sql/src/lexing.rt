// The tokens of a text.
ghost use Rattle.std.specs.Prelude.{◌≡◌, ◌⊎◌, ◌<◌, ◌≤◌, ℕ, true, false, length, take, drop, min, IfOk};
ghost use Rattle.std.specs.List.{All, prefix_len, list_all};
ghost use Rattle.std.specs.Str.{is_utf8};
ghost use Rattle.std.specs.Str.Parse.{digits_value};
ghost use Rattle.hv_model.specs.Token.{is_digit, begins_name, begins_as_name, is_name_byte, is_keyword, is_number};
ghost use Rattle.hv_model.specs.Lexemes.{is_run, closes, is_quoted, is_text, is_symbol, token_length, sort_of, token_at, tokens_of, bytes_of, unquoted, text_value, TokensInOrder, NothingLost, TokensLongest, TokensHold, TextsWritten, ValuesRead};

use crate::words::{keyword_of, symbol_of};
use hv_model::{
    MAX_NAME_BYTES, Sort, Token, Tokens, begins_name, is_digit, is_name_byte, is_number, is_white,
};
use hv_row::{Bytes, Listed};
use std::alloc::{AllocError, Global};

/// The tokens of a text; `Err` only for want of memory.
pub fn lex(alloc: Global, text: &[u8]) -> Result<Tokens, AllocError>
    requires { length text.now ≤ 67108864 }
    ensures tokens { IfOk result (λ tokens. tokens ≡ tokens_of text.now) }
    ensures within { IfOk result (λ tokens. All (λ token. (token.from < token.to) × (token.to ≤ length text.now)) tokens) }
{
    let mut tokens = Vec::new(alloc);
    let mut at = 0;
    while at < text.len() {
        if is_white(text[at]) {
            at += 1;
        } else {
            let token = token_at(text, at);
            at = token.to as usize;
            tokens.push(token)?;
        }
    }
    Ok(Listed::from_vec(tokens))
}

/// The token that stands at a place.
pub fn token_at(text: &[u8], at: usize) -> Token
    requires short { length text.now ≤ 67108864 }
    requires within { at < length text.now }
    ensures token { result ≡ token_at at (drop at text.now) }
    ensures some { at < result.to }
    ensures within { result.to ≤ length text.now }
{
    let (_, rest) = text.split_at(at);
    let n = token_len(rest);
    let (bytes, _) = rest.split_at(n);
    Token {
        sort: sort_of(bytes),
        from: at as u32,
        to: (at + n) as u32,
    }
}

// How long the token is that the bytes begin with.
fn token_len(rest: &[u8]) -> usize
    requires { 0 < length rest.now }
    ensures same { result ≡ token_length rest.now }
    ensures some { 0 < result }
    ensures within { result ≤ length rest.now }
{
    let first = rest[0];
    if begins_name(first) {
        name_len(rest)
    } else if is_digit(first) {
        digits_len(rest)
    } else if first == b'\'' {
        let (_, behind) = rest.split_at(1);
        closing_len(behind) + 1
    } else {
        symbol_len(rest)
    }
}

fn name_len(rest: &[u8]) -> usize
    ensures { result ≡ prefix_len is_name_byte rest.now }
{
    rest.iter().take_while(|byte| is_name_byte(**byte)).count()
}

fn digits_len(rest: &[u8]) -> usize
    ensures { result ≡ prefix_len is_digit rest.now }
{
    rest.iter().take_while(|byte| is_digit(**byte)).count()
}

// How many bytes behind an opening quote the longest text has; 0 where no quote closes one.
fn closing_len(behind: &[u8]) -> usize
    ensures within { result ≤ length behind.now }
    ensures closes { 0 < result → closes false (take result behind.now) ≡ true }
    ensures longest { (n : ℕ) → result < n → n ≤ length behind.now → closes false (take n behind.now) ≡ false }
{
    let mut end = 0;
    let mut pending = false;
    for (at, byte) in behind.iter().enumerate() {
        if *byte == b'\'' {
            pending = !pending;
            if pending {
                end = at + 1;
            }
        } else if pending {
            return end;
        }
    }
    end
}

// How long the symbol is that the bytes begin with; 1 where they begin with none.
fn symbol_len(rest: &[u8]) -> usize
    requires { 0 < length rest.now }
    ensures within { result ≤ length rest.now }
    ensures one_or_two { (result ≡ 1) ⊎ ((result ≡ 2) × (is_symbol (take 2 rest.now) ≡ true)) }
    ensures longest { result ≡ 1 → 2 ≤ length rest.now → is_symbol (take 2 rest.now) ≡ false }
{
    if rest.len() >= 2 && is_symbol(rest.split_at(2).0) {
        2
    } else {
        1
    }
}

// What sort of token bytes are.
fn sort_of(bytes: &[u8]) -> Sort
    ensures { result ≡ sort_of bytes.now }
{
    if is_run(bytes) {
        run_sort(bytes)
    } else if is_number(bytes) {
        Sort::Number
    } else if is_text(bytes) {
        Sort::Text
    } else if is_symbol(bytes) {
        Sort::Symbol
    } else {
        Sort::Other
    }
}

// What sort of token a run is.
fn run_sort(bytes: &[u8]) -> Sort
    requires { is_run bytes.now ≡ true }
    ensures { result ≡ sort_of bytes.now }
{
    if is_keyword(bytes) {
        Sort::Keyword
    } else if bytes.len() <= MAX_NAME_BYTES {
        Sort::Name
    } else {
        Sort::Other
    }
}

fn begins_as_name(bytes: &[u8]) -> bool
    ensures { result ≡ begins_as_name bytes.now }
{
    match bytes {
        [first, ..] => begins_name(*first),
        [] => false,
    }
}

fn are_name_bytes(bytes: &[u8]) -> bool
    ensures { result ≡ list_all is_name_byte bytes.now }
{
    bytes.iter().all(|byte| is_name_byte(*byte))
}

#[tactic(auto, unfolding(hv_model::specs::Lexemes::is_run))]
fn is_run(bytes: &[u8]) -> bool
    ensures { result ≡ is_run bytes.now }
{
    begins_as_name(bytes) && are_name_bytes(bytes)
}

fn is_keyword(bytes: &[u8]) -> bool
    ensures { result ≡ is_keyword bytes.now }
{
    keyword_of(bytes).is_some()
}

fn is_symbol(bytes: &[u8]) -> bool
    ensures { result ≡ is_symbol bytes.now }
{
    symbol_of(bytes).is_some()
}

fn is_quoted(bytes: &[u8]) -> bool
    ensures { result ≡ is_quoted bytes.now }
{
    match bytes {
        [b'\'', behind @ ..] => closes(behind),
        _ => false,
    }
}

// Whether bytes behind an opening quote close the text with the last of them.
fn closes(behind: &[u8]) -> bool
    ensures { result ≡ closes false behind.now }
{
    !behind.is_empty() && closing_len(behind) == behind.len()
}

fn is_utf8(bytes: &[u8]) -> bool
    ensures { result ≡ is_utf8 bytes.now }
{
    str::from_utf8(bytes).is_ok()
}

fn is_text(bytes: &[u8]) -> bool
    ensures { result ≡ is_text bytes.now }
{
    is_quoted(bytes) && is_utf8(bytes)
}

/// The bytes of a token.
pub fn token_bytes(text: &[u8], token: Token) -> &[u8]
    requires order { token.from ≤ token.to }
    requires within { token.to ≤ length text.now }
    ensures { result.now ≡ bytes_of text.now token }
{
    &text[token.from as usize..token.to as usize]
}

/// The value of a number, or the largest `u64` if it is larger; leading zeros count for nothing.
pub fn number_of(bytes: &[u8]) -> u64
    ensures { is_number bytes.now ≡ true → result ≡ min (digits_value 10 bytes.now) 18446744073709551615 }
{
    let Ok(digits) = str::from_utf8(bytes) else {
        return 0;
    };
    digits.parse().unwrap_or(u64::MAX)
}

/// The value of a text: what stands between its quotes, of two quotes one. `Err` only for want of memory.
pub fn text_of(alloc: Global, bytes: &[u8]) -> Result<Bytes, AllocError>
    ensures { IfOk result (λ value. value ≡ text_value bytes.now) }
{
    match bytes {
        [_, behind @ ..] => unquoted(alloc, behind),
        [] => Ok(Listed::new(alloc)),
    }
}

// What the bytes behind an opening quote stand for.
fn unquoted(alloc: Global, behind: &[u8]) -> Result<Bytes, AllocError>
    ensures { IfOk result (λ value. value ≡ unquoted false behind.now) }
{
    let mut value = Vec::with_capacity(alloc, behind.len())?;
    let mut pending = false;
    for byte in behind {
        if *byte == b'\'' && !pending {
            pending = true;
        } else {
            pending = false;
            value.push(*byte)?;
        }
    }
    Ok(Listed::from_vec(value))
}

/// The law of the tokens of a text. It does nothing: its contract is this law.
pub fn lexing_law()
    ensures order { TokensInOrder }
    ensures white { NothingLost }
    ensures longest { TokensLongest }
    ensures hold { TokensHold }
    ensures written { TextsWritten }
    ensures read { ValuesRead }
{}
