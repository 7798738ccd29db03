// Texts by their bytes: white space, keywords in any case, and bytes that are no token.
use crate::reading::is_line;
use std::alloc::Global;
use std::test::Fail;

const WHITE_SPACE_CASES: [(&str, &str); 21] = [
    ("", "fault 0"),
    (" ", "fault 1"),
    ("\t \r\n ", "fault 5"),
    (" BARRIER ", "barrier"),
    ("\r\n\tSESSION\n\na\r\n", "session a"),
    ("\n SELECT\r\n\t*\n FROM\tt\r", "select(*; from t)"),
    (
        "SELECT\na\n,\nt\n.\nb\nFROM\nt\nAS\nu\nWHERE\na\n<=\n-\n1\nORDER\nBY\n1\nDESC\nLIMIT\n2",
        "select(a t.b; from t as u; where a <= -1; order 1 desc; limit 2)",
    ),
    (
        "CREATE\tTABLE\r\nt\r( a\nINT\t, b TEXT\r)\t\r\n ",
        "create t (a int, b text)",
    ),
    (
        "SELECT * FROM t WHERE a = ' \t\r\n'",
        "select(*; from t; where a = ' \t\r\n')",
    ),
    ("SELECT", "fault 6"),
    ("SELECT   ", "fault 9"),
    ("SELECT a FROM   ", "fault 16"),
    ("SELECT a\n", "fault 9"),
    ("\n\nSELECT FROM t", "fault 9"),
    ("SELECT * FROM t WHERE (a = 1 \n", "fault 30"),
    ("SELECT * FROM t WHERE a = 1 \n ; ", "fault 30"),
    ("SELECT * FROM t\n\n9", "fault 17"),
    ("SELECT * FROM t WHERE a = 'x\n", "fault 26"),
    ("SEL ECT * FROM t", "fault 0"),
    ("SELECT * FROM t WHERE a < = 1", "fault 26"),
    ("SELECT * FROM t WHERE a =\n\t'x'\n'y'", "fault 31"),
];

#[test]
fn white_space_parts_tokens_and_is_none(rt: HostRuntime) -> Result<(), Fail> {
    for (text, want) in WHITE_SPACE_CASES {
        assert!(rt; is_line(rt.alloc(), text.as_bytes(), want)?, "{text}");
    }
    Ok(())
}

// The keywords, each in three cases of its letters.
const KEYWORDS: &str = "\
AND and AnD AS as As ASC asc AsC BARRIER barrier BaRrIeR BY by By CHUNK chunk ChUnK CHUNKS chunks ChUnKs COUNT \
count CoUnT CREATE create CrEaTe DESC desc DeSc FROM from FrOm GROUP group GrOuP IMPORT import ImPoRt INDEX \
index InDeX INT int InT INTO into InTo IS is Is LIMIT limit LiMiT LINES lines LiNeS MAX max MaX MERGE merge \
MeRgE MIN min MiN NOT not NoT NULL null NuLl OF of Of OR or Or ORDER order OrDeR PURGE purge PuRgE RANGE range \
RaNgE SELECT select SeLeCt SESSION session SeSsIoN SUM sum SuM SUMMARY summary SuMmArY TABLE table TaBlE TEXT \
text TeXt WHERE where WhErE";

#[test]
fn keywords_in_any_case_are_no_names(rt: HostRuntime) -> Result<(), Fail> {
    for word in KEYWORDS.split(" ") {
        let text = format!(in rt.alloc(); "SESSION {word}")?;
        assert!(rt; is_line(rt.alloc(), text.as_bytes(), "fault 8")?, "{word}");
    }
    Ok(())
}

// Whether `SESSION` and this word with a `_` behind it are a statement.
fn is_longer_name(alloc: Global, word: &str) -> Result<bool, Fail> {
    let text = format!(in alloc; "SESSION {word}_")?;
    let want = format!(in alloc; "session {word}_")?;
    is_line(alloc, text.as_bytes(), want.as_str())
}

#[test]
fn longer_words_are_names(rt: HostRuntime) -> Result<(), Fail> {
    for word in KEYWORDS.split(" ") {
        assert!(rt; is_longer_name(rt.alloc(), word)?, "{word}_");
    }
    Ok(())
}

// What `SELECT * FROM`, this byte and `t` are.
fn line_with(byte: u8) -> &'static str {
    match byte {
        b' ' | b'\t' | b'\r' | b'\n' => "select(*; from t)",
        b'0'..=b'9' | b'A'..=b'Z' | b'a'..=b'z' | b'_' => "fault 9",
        _ => "fault 13",
    }
}

// Whether they are so.
fn is_line_with(alloc: Global, byte: u8) -> Result<bool, Fail> {
    let mut text = Vec::from_slice(alloc, b"SELECT * FROM")?;
    text.push(byte)?;
    text.push(b't')?;
    is_line(alloc, text.as_slice(), line_with(byte))
}

#[test]
fn each_byte_parts_or_joins_or_is_a_fault(rt: HostRuntime) -> Result<(), Fail> {
    for byte in 0..=0xFFu8 {
        assert!(rt; is_line_with(rt.alloc(), byte)?, "byte {byte}");
    }
    Ok(())
}

const NO_TOKEN_CASES: [(&[u8], &str); 9] = [
    (b"SELECT * FROM t WHERE a = '\xff'", "fault 26"),
    (b"SELECT * FROM t WHERE a = '\xc3' AND b = 1", "fault 26"),
    (
        b"SELECT * FROM t WHERE a = '\xe6\x97' OR b = 'x'",
        "fault 26",
    ),
    (b"SELECT * FROM t WHERE a = '\xed\xa0\x80'", "fault 26"),
    (b"SELECT * FROM t WHERE a = '\xc0\xaf'", "fault 26"),
    (b"SELECT * FROM t WHERE a \xc3 = 1", "fault 24"),
    (b"SELECT * FROM t WHERE a = 1 \xff", "fault 28"),
    (b"SELECT * \x80FROM t", "fault 9"),
    (b"\xef\xbb\xbfSELECT * FROM t", "fault 0"),
];

#[test]
fn bytes_that_make_no_token_are_faults(rt: HostRuntime) -> Result<(), Fail> {
    for (text, want) in NO_TOKEN_CASES {
        assert!(rt; is_line(rt.alloc(), text, want)?);
    }
    Ok(())
}
