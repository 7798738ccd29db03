// Texts that are SESSION or BARRIER, and texts that are nearly so.
use hv_sql::{Mark, mark_of};

// The name that a text sets, `*` where it ends a phase, and nothing else.
fn marked(text: &[u8]) -> Option<&[u8]> {
    if text.len() > 67_108_864 {
        return None;
    }
    match mark_of(text)? {
        Mark::Session(name) => Some(name),
        Mark::Barrier => Some(b"*"),
    }
}

const MARKS: [(&[u8], &[u8]); 9] = [
    (b"SESSION s1", b"s1"),
    (b"session s1", b"s1"),
    (b" SeSsIoN\r\n\t_S1 ", b"_S1"),
    (b"SESSION main", b"main"),
    (b"SESSION lines1", b"lines1"),
    (
        b"SESSION aaaaaaaaaabbbbbbbbbbcccccccccc",
        b"aaaaaaaaaabbbbbbbbbbcccccccccc",
    ),
    (b"BARRIER", b"*"),
    (b"barrier", b"*"),
    (b"\n Barrier\t", b"*"),
];

#[test]
fn marks(rt: HostRuntime) {
    for (at, (text, wanted)) in MARKS.into_iter().enumerate() {
        assert!(rt; marked(text) == Some(wanted), "text {at}");
    }
}

const STATEMENTS: [&[u8]; 20] = [
    b"",
    b" \t\r\n",
    b"'",
    b"SESSION",
    b"SESSION a b",
    b"SESSION a BARRIER",
    b"SESSION a '",
    b"SESSION 'a'",
    b"SESSION 1",
    b"SESSION a.b",
    b"SESSION lines",
    b"SESSION session",
    b"SESSION aaaaaaaaaabbbbbbbbbbccccccccccd",
    b"SESSIONS a",
    b"SESSIONa",
    b"BARRIER x",
    b"BARRIER BARRIER",
    b"BARRIER '",
    b"BARRIERS",
    b"SELECT a FROM t",
];

#[test]
fn statements(rt: HostRuntime) {
    for (at, text) in STATEMENTS.into_iter().enumerate() {
        assert!(rt; marked(text) == None, "text {at}");
    }
}
