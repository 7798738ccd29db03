// Texts with the lines of data that they take.
use hv_sql::import_lines;

fn taken(text: &[u8]) -> Option<u64> {
    if text.len() > 67_108_864 {
        return None;
    }
    Some(import_lines(text))
}

const IMPORTS: [(&[u8], u64); 10] = [
    (b"IMPORT INTO t LINES 3", 3),
    (b" import\tInTo\r\n_t1\nlines 12 ", 12),
    (b"IMPORT INTO t LINES 0", 0),
    (b"IMPORT INTO t LINES 007", 7),
    (b"IMPORT INTO aaaaaaaaaabbbbbbbbbbcccccccccc LINES 3", 3),
    (
        b"IMPORT INTO t LINES 9223372036854775807",
        9223372036854775807,
    ),
    (
        b"IMPORT INTO t LINES 9223372036854775808",
        9223372036854775808,
    ),
    (
        b"IMPORT INTO t LINES 18446744073709551615",
        18446744073709551615,
    ),
    (
        b"IMPORT INTO t LINES 18446744073709551616",
        18446744073709551615,
    ),
    (
        b"IMPORT INTO t LINES 99999999999999999999999999",
        18446744073709551615,
    ),
];

#[test]
fn imports(rt: HostRuntime) {
    for (text, lines) in IMPORTS {
        assert!(rt; taken(text) == Some(lines), "{lines}");
    }
}

const OTHER_TEXTS: [&[u8]; 18] = [
    b"",
    b" \t\r\n",
    b"SELECT a FROM t",
    b"'",
    b"IMPORT",
    b"IMPORT INTO t LINES",
    b"IMPORT INTO t 3",
    b"IMPORT INTO t BY 3",
    b"IMPORT INTO t LINES3",
    b"IMPORTINTO t LINES 3",
    b"IMPORT INTO aaaaaaaaaabbbbbbbbbbccccccccccd LINES 3",
    b"IMPORT INTO table LINES 3",
    b"IMPORT INTO 't' LINES 3",
    b"IMPORT INTO t LINES -1",
    b"IMPORT INTO t LINES '3'",
    b"IMPORT INTO t LINES 3x",
    b"IMPORT INTO t LINES 3 3",
    b"IMPORT INTO t LINES 3 '",
];

#[test]
fn other_texts(rt: HostRuntime) {
    for (at, text) in OTHER_TEXTS.into_iter().enumerate() {
        assert!(rt; taken(text) == Some(0), "text {at}");
    }
}
