// Texts with their tokens, and what the bytes of tokens are.
use hv_model::{Keyword, Sort, Symbol, Token};
use hv_sql::{keyword_of, lex, lexing_law, number_of, symbol_of, text_of, token_bytes};
use std::alloc::{AllocError, Global};
use std::process::Abort;
use std::test::Fail;

fn letter(sort: Sort) -> &'static str {
    match sort {
        Sort::Name => "n",
        Sort::Keyword => "k",
        Sort::Number => "d",
        Sort::Text => "t",
        Sort::Symbol => "s",
        Sort::Other => "o",
    }
}

// A token as the letter of its sort, its place and its bytes in braces.
fn push_shown(
    alloc: Global,
    out: &mut Vec<u8>,
    text: &[u8],
    token: Token,
) -> Result<(), AllocError> {
    let place = format!(in alloc; "{}{}", letter(token.sort), token.from)?;
    out.extend_from_slice(place.as_bytes())?;
    out.push(b'{')?;
    if token.from <= token.to && token.to as usize <= text.len() {
        out.extend_from_slice(token_bytes(text, token))?;
    }
    out.push(b'}')?;
    Ok(())
}

fn shown(alloc: Global, text: &[u8], tokens: &[Token]) -> Result<Vec<u8>, AllocError> {
    let mut out = Vec::new(alloc);
    for token in tokens {
        push_shown(alloc, &mut out, text, *token)?;
    }
    Ok(out)
}

fn is_shown(alloc: Global, text: &[u8], told: &[u8]) -> Result<bool, AllocError> {
    if text.len() > 67108864 {
        return Ok(false);
    }
    let tokens = lex(alloc, text)?;
    Ok(shown(alloc, text, tokens.as_slice())?.as_slice() == told)
}

// Meets each text with its tokens.
fn meet(rt: &impl Abort, alloc: Global, cases: &[(&[u8], &[u8])]) -> Result<(), Fail> {
    for (at, (text, told)) in cases.iter().enumerate() {
        assert!(rt; is_shown(alloc, text, told)?, "case {at}");
    }
    Ok(())
}

const WORD_CASES: [(&[u8], &[u8]); 24] = [
    (b"", b""),
    (b" \t\r\n", b""),
    (b"a", b"n0{a}"),
    (b" a ", b"n1{a}"),
    (b"_", b"n0{_}"),
    (b"_1a", b"n0{_1a}"),
    (b"a b", b"n0{a}n2{b}"),
    (b"a\tb\rc\nd", b"n0{a}n2{b}n4{c}n6{d}"),
    (b"select", b"k0{select}"),
    (b"SeLeCt", b"k0{SeLeCt}"),
    (b"selects", b"n0{selects}"),
    (b"select_", b"n0{select_}"),
    (b"_select", b"n0{_select}"),
    (b"select1", b"n0{select1}"),
    (b"0", b"d0{0}"),
    (b"0012", b"d0{0012}"),
    (b"12ab", b"d0{12}n2{ab}"),
    (b"12_", b"d0{12}n2{_}"),
    (b"12select", b"d0{12}k2{select}"),
    (b"ab12", b"n0{ab12}"),
    (
        b"aaaaaaaaaabbbbbbbbbbcccccccccc",
        b"n0{aaaaaaaaaabbbbbbbbbbcccccccccc}",
    ),
    (
        b"aaaaaaaaaabbbbbbbbbbccccccccccd",
        b"o0{aaaaaaaaaabbbbbbbbbbccccccccccd}",
    ),
    (
        b"_234567890123456789012345678901 x",
        b"o0{_234567890123456789012345678901}n32{x}",
    ),
    (
        b"1234567890123456789012345678901234",
        b"d0{1234567890123456789012345678901234}",
    ),
];

#[test]
fn words_and_numbers(rt: HostRuntime) -> Result<(), Fail> {
    meet(&rt, rt.alloc(), WORD_CASES.as_slice())
}

const SYMBOL_CASES: [(&[u8], &[u8]); 24] = [
    (b"(),.*-=", b"s0{(}s1{)}s2{,}s3{.}s4{*}s5{-}s6{=}"),
    (b"<", b"s0{<}"),
    (b">", b"s0{>}"),
    (b"<>", b"s0{<>}"),
    (b"!=", b"s0{!=}"),
    (b"<=", b"s0{<=}"),
    (b">=", b"s0{>=}"),
    (b"< >", b"s0{<}s2{>}"),
    (b"<<", b"s0{<}s1{<}"),
    (b"<=>", b"s0{<=}s2{>}"),
    (b"><", b"s0{>}s1{<}"),
    (b"=<", b"s0{=}s1{<}"),
    (b"==", b"s0{=}s1{=}"),
    (b"<>=", b"s0{<>}s2{=}"),
    (b"!", b"o0{!}"),
    (b"!!=", b"o0{!}s1{!=}"),
    (b"! =", b"o0{!}s2{=}"),
    (b"--", b"s0{-}s1{-}"),
    (b"-5", b"s0{-}d1{5}"),
    (b"+", b"o0{+}"),
    (b"\"a\"", b"o0{\"}n1{a}o2{\"}"),
    (b";[{", b"o0{;}o1{[}o2{{}"),
    (b"\x00\x0b\x0c\xa0", b"o0{\x00}o1{\x0b}o2{\x0c}o3{\xa0}"),
    (b"a\xc3\xa9b", b"n0{a}o1{\xc3}o2{\xa9}n3{b}"),
];

#[test]
fn symbols(rt: HostRuntime) -> Result<(), Fail> {
    meet(&rt, rt.alloc(), SYMBOL_CASES.as_slice())
}

const TEXT_CASES: [(&[u8], &[u8]); 24] = [
    (b"''", b"t0{''}"),
    (b"'a'", b"t0{'a'}"),
    (b"'a b'", b"t0{'a b'}"),
    (b"'a\nb'", b"t0{'a\nb'}"),
    (b"'it''s'", b"t0{'it''s'}"),
    (b"''''", b"t0{''''}"),
    (b"'a''b''c'", b"t0{'a''b''c'}"),
    (b"'a' 'b'", b"t0{'a'}t4{'b'}"),
    (b"'a'b", b"t0{'a'}n3{b}"),
    (b"x'a'", b"n0{x}t1{'a'}"),
    (b"'select'", b"t0{'select'}"),
    (b"'", b"o0{'}"),
    (b"'a", b"o0{'}n1{a}"),
    (b"' a", b"o0{'}n2{a}"),
    (b"'''", b"t0{''}o2{'}"),
    (b"'''''", b"t0{''''}o4{'}"),
    (b"'a''", b"t0{'a'}o3{'}"),
    (b"'a''b", b"t0{'a'}o3{'}n4{b}"),
    (b"'a''b''c d", b"t0{'a''b'}o6{'}n7{c}n9{d}"),
    (b"'\xc3\xa9'", b"t0{'\xc3\xa9'}"),
    (b"'\xc3'", b"o0{'\xc3'}"),
    (b"'a''\xff'x", b"o0{'a''\xff'}n6{x}"),
    (b"'\xf0\x9f\x98\x80'", b"t0{'\xf0\x9f\x98\x80'}"),
    (
        b"'a string of more than thirty bytes, which is as long as it wants'",
        b"t0{'a string of more than thirty bytes, which is as long as it wants'}",
    ),
];

#[test]
fn texts(rt: HostRuntime) -> Result<(), Fail> {
    meet(&rt, rt.alloc(), TEXT_CASES.as_slice())
}

const STATEMENT_CASES: [(&[u8], &[u8]); 4] = [
    (
        b"SELECT a.x FROM t AS a WHERE a.x>=-3",
        b"k0{SELECT}n7{a}s8{.}n9{x}k11{FROM}n16{t}k18{AS}n21{a}k23{WHERE}n29{a}s30{.}n31{x}s32{>=}s34{-}d35{3}",
    ),
    (b"count(*)<>10", b"k0{count}s5{(}s6{*}s7{)}s8{<>}d10{10}"),
    (
        b"x='a''b'and y is not null",
        b"n0{x}s1{=}t2{'a''b'}k8{and}n12{y}k14{is}k17{not}k21{null}",
    ),
    (
        b"create\r\ntable t(a int)",
        b"k0{create}k8{table}n14{t}s15{(}n16{a}k18{int}s21{)}",
    ),
];

#[test]
fn statements(rt: HostRuntime) -> Result<(), Fail> {
    meet(&rt, rt.alloc(), STATEMENT_CASES.as_slice())
}

#[test]
fn texts_have_one_reading(_rt: HostRuntime) {
    lexing_law();
}

// How many tokens this many quotes are.
fn tokens_of_quotes(alloc: Global, quotes: u32) -> Result<usize, Fail> {
    let mut text = Vec::new(alloc);
    for _ in 0..quotes {
        text.push(b'\'')?;
    }
    let all = text.as_slice();
    if all.len() > 67_108_864 {
        return Err(Fail::from("too long"));
    }
    Ok(lex(alloc, all)?.len())
}

#[test]
fn many_quotes(rt: HostRuntime) -> Result<(), Fail> {
    assert!(rt; tokens_of_quotes(rt.alloc(), 200_001)? == 2);
    Ok(())
}

const VALUES_OF_TEXTS: [(&[u8], &[u8]); 5] = [
    (b"''", b""),
    (b"'a'", b"a"),
    (b"''''", b"'"),
    (b"'it''s'", b"it's"),
    (b"'''a'''", b"'a'"),
];

#[test]
fn values_of_texts(rt: HostRuntime) -> Result<(), Fail> {
    for (text, value) in VALUES_OF_TEXTS {
        assert!(rt; text_of(rt.alloc(), text)?.as_slice() == value);
    }
    Ok(())
}

const VALUES_OF_NUMBERS: [(&[u8], u64); 6] = [
    (b"0", 0),
    (b"007", 7),
    (b"18446744073709551614", 18446744073709551614),
    (b"18446744073709551615", 18446744073709551615),
    (b"18446744073709551616", 18446744073709551615),
    (b"99999999999999999999999999", 18446744073709551615),
];

#[test]
fn values_of_numbers(rt: HostRuntime) {
    for (text, value) in VALUES_OF_NUMBERS {
        assert!(rt; number_of(text) == value, "{value}");
    }
}

const KEYWORDS: [(&[u8], Option<Keyword>); 5] = [
    (b"Summary", Some(Keyword::Summary)),
    (b"and", Some(Keyword::And)),
    (b"WHERE", Some(Keyword::Where)),
    (b"WHERES", None),
    (b"", None),
];

#[test]
fn keywords(rt: HostRuntime) {
    for (at, (word, keyword)) in KEYWORDS.into_iter().enumerate() {
        assert!(rt; keyword_of(word) == keyword, "word {at}");
    }
}

const SYMBOLS: [(&[u8], Option<Symbol>); 5] = [
    (b"<>", Some(Symbol::Unequal)),
    (b">=", Some(Symbol::AtLeast)),
    (b"(", Some(Symbol::Open)),
    (b"==", None),
    (b"!", None),
];

#[test]
fn symbols_by_their_bytes(rt: HostRuntime) {
    for (at, (bytes, symbol)) in SYMBOLS.into_iter().enumerate() {
        assert!(rt; symbol_of(bytes) == symbol, "symbol {at}");
    }
}
