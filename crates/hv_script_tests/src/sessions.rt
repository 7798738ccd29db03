// Scripts with their sessions and phases, and what is told of a session too many.
use crate::made::{full, is_fault};
use hv_model::{FaultName, Script, Statement};
use hv_script::{MAX_SESSIONS, MAX_STATEMENTS, read_statements};
use std::alloc::{AllocError, Global};
use std::test::Fail;

// Puts a statement's session and number, and its text and its lines in brackets.
fn put(alloc: Global, out: &mut Vec<u8>, statement: &Statement) -> Result<(), AllocError> {
    out.extend_from_slice(statement.session.as_slice())?;
    let number = format!(in alloc; "{}[", statement.number)?;
    out.extend_from_slice(number.as_bytes())?;
    out.extend_from_slice(statement.text.as_slice())?;
    out.push(b'|')?;
    out.extend_from_slice(statement.lines.as_slice())?;
    Ok(out.push(b']')?)
}

// The names of a script's sessions, each with a colon behind it, and its phases' statements, each phase with a slash behind it.
fn shown(alloc: Global, script: &Script) -> Result<Vec<u8>, AllocError> {
    let mut out = Vec::new(alloc);
    for name in script.sessions.as_slice() {
        out.extend_from_slice(name.as_slice())?;
        out.push(b':')?;
    }
    for phase in script.phases.as_slice() {
        for statement in phase.as_slice() {
            put(alloc, &mut out, statement)?;
        }
        out.push(b'/')?;
    }
    Ok(out)
}

const SCRIPTS: [(&str, &str); 13] = [
    ("", "main:/"),
    ("SESSION main;x;", "main:main1[x|]/"),
    ("SESSION a;SESSION a;x;", "main:a:a1[x|]/"),
    (
        "x;SESSION b;y;z;SESSION main;w;SESSION c;SESSION b;v;",
        "main:b:c:main1[x|]b1[y|]b2[z|]main2[w|]b3[v|]/",
    ),
    ("BARRIER;BARRIER;x;BARRIER;", "main://main1[x|]//"),
    (
        "SESSION a;x;BARRIER;y;SESSION main;z;BARRIER;w;SESSION a;v;",
        "main:a:a1[x|]/a2[y|]main1[z|]/main2[w|]a3[v|]/",
    ),
    (
        "SESSION a;SESSION A;x;SESSION a;y;SESSION A;z;",
        "main:a:A:A1[x|]a1[y|]A2[z|]/",
    ),
    (
        "session Main; x ;\n barrier ;y;\tSeSSion\r\n_1\t;z;",
        "main:Main:_1:Main1[x |]/Main2[y|]_11[z|]/",
    ),
    (
        "SESSION;SESSION a b;SESSION 'a';SESSION 1;SESSION a.b;SESSION select;SESSIONS a;",
        "main:main1[SESSION|]main2[SESSION a b|]main3[SESSION 'a'|]main4[SESSION 1|]main5[SESSION a.b|]main6[SESSION select|]main7[SESSIONS a|]/",
    ),
    (
        "BARRIER x;BARRIER BARRIER;BARRIER 1;'BARRIER';BARRIERS;",
        "main:main1[BARRIER x|]main2[BARRIER BARRIER|]main3[BARRIER 1|]main4['BARRIER'|]main5[BARRIERS|]/",
    ),
    (
        "SESSION a23456789012345678901234567890;x;SESSION b234567890123456789012345678901;y;",
        "main:a23456789012345678901234567890:a234567890123456789012345678901[x|]a234567890123456789012345678902[SESSION b234567890123456789012345678901|]a234567890123456789012345678903[y|]/",
    ),
    (
        "IMPORT INTO t LINES 1;\nSESSION a;\nSESSION b;IMPORT INTO t LINES 1;\n5\nBARRIER;IMPORT INTO t LINES 0;y;",
        "main:b:main1[IMPORT INTO t LINES 1|SESSION a;\n]b1[IMPORT INTO t LINES 1|5\n]/b2[IMPORT INTO t LINES 0|]b3[y|]/",
    ),
    (
        "IMPORT INTO t LINES 2;SESSION a;\nBARRIER;\nx;",
        "main:main1[IMPORT INTO t LINES 2|SESSION a;\nBARRIER;\n]main2[x|]/",
    ),
];

#[test]
fn sessions_and_phases_are_read(rt: HostRuntime) -> Result<(), Fail> {
    for (text, want) in SCRIPTS {
        let script = read_statements(rt.alloc(), text.as_bytes())?;
        let out = shown(rt.alloc(), &script)?;
        assert!(rt; out.as_slice() == want.as_bytes(), "{text}");
    }
    Ok(())
}

// A script that names as many sessions as a script has, with this behind it.
fn most_sessions(alloc: Global, behind: &[u8]) -> Result<Vec<u8>, AllocError> {
    let mut script = Vec::new(alloc);
    for n in 1..MAX_SESSIONS {
        let text = format!(in alloc; "SESSION s{};", n)?;
        script.extend_from_slice(text.as_bytes())?;
    }
    script.extend_from_slice(behind)?;
    Ok(script)
}

#[test]
fn most_sessions_are_read(rt: HostRuntime) -> Result<(), Fail> {
    let text = most_sessions(rt.alloc(), b"x;SESSION s1;SESSION main;y;SESSION s63;z;")?;
    let script = read_statements(rt.alloc(), text.as_slice())?;
    assert!(rt; script.sessions.len() == MAX_SESSIONS);
    Ok(())
}

// What stands behind the most sessions, and its fault: 9 names of 11 bytes with what is around them, and 54 of 12.
const BEHIND: [(&[u8], FaultName, u32); 8] = [
    (b"SESSION s64;", FaultName::TooManySessions, 747),
    (
        b"x;BARRIER; session\tS1 ;x",
        FaultName::TooManySessions,
        758,
    ),
    (
        b"SESSION z;IMPORT INTO t LINES 2;",
        FaultName::TooManySessions,
        747,
    ),
    (b"SESSION z", FaultName::Unended, 747),
    (
        b"IMPORT INTO t LINES 1000001;SESSION z;",
        FaultName::LongImport,
        747,
    ),
    (
        b"IMPORT INTO t LINES 2;\nSESSION z;",
        FaultName::ShortImport,
        747,
    ),
    (b"SESSION a b;x", FaultName::Unended, 759),
    (b"SESSION z;\xFF", FaultName::NotUtf8, 757),
];

#[test]
fn a_session_too_many_is_told(rt: HostRuntime) -> Result<(), Fail> {
    for (behind, name, byte) in BEHIND {
        let text = most_sessions(rt.alloc(), behind)?;
        assert!(rt;
            is_fault(rt.alloc(), text.as_slice(), name, byte),
            "{name:?} at {byte}"
        );
    }
    Ok(())
}

#[test]
fn sessions_and_barriers_are_not_counted(rt: HostRuntime) -> Result<(), Fail> {
    let mut text = Vec::from_slice(rt.alloc(), b"SESSION b;BARRIER;")?;
    text.extend_from_slice(full(rt.alloc(), b"BARRIER;SESSION main;SESSION c;")?.as_slice())?;
    let script = read_statements(rt.alloc(), text.as_slice())?;
    assert!(rt; script.phases.len() == 3);
    assert!(rt; script.sessions.len() == 3);
    let phase = script.phases.get(1).expect(&rt, "the second phase");
    assert!(rt; phase.len() == MAX_STATEMENTS);
    Ok(())
}

// What stands behind the most statements and the most sessions, and its fault.
const FULL: [(&[u8], FaultName, u32); 3] = [
    (
        b"BARRIER;SESSION main;a;",
        FaultName::TooManyStatements,
        2_000_768,
    ),
    (b"a;SESSION z;", FaultName::TooManyStatements, 2_000_747),
    (b"SESSION z;a;", FaultName::TooManySessions, 2_000_747),
];

#[test]
fn statements_of_all_sessions_are_counted(rt: HostRuntime) -> Result<(), Fail> {
    for (behind, name, byte) in FULL {
        let text = full(rt.alloc(), most_sessions(rt.alloc(), behind)?.as_slice())?;
        assert!(rt;
            is_fault(rt.alloc(), text.as_slice(), name, byte),
            "{name:?} at {byte}"
        );
    }
    Ok(())
}
