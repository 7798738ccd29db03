// Scripts with what is read of them.
use crate::made::statements;
use hv_model::{Script, Statement};
use hv_script::{one_reading, read_statements};
use std::alloc::{AllocError, Global};
use std::test::Fail;

// Puts a statement's number, and its text and its lines in brackets.
fn put(alloc: Global, out: &mut Vec<u8>, statement: &Statement) -> Result<(), AllocError> {
    let number = format!(in alloc; "{}[", statement.number)?;
    out.extend_from_slice(number.as_bytes())?;
    out.extend_from_slice(statement.text.as_slice())?;
    out.push(b'|')?;
    out.extend_from_slice(statement.lines.as_slice())?;
    Ok(out.push(b']')?)
}

// Whether a script of one session and one phase has these statements, each as its number, and its text and its lines in brackets.
pub fn has_statements(alloc: Global, script: &Script, want: &str) -> Result<bool, AllocError> {
    let Some(all) = statements(script) else {
        return Ok(false);
    };
    let mut out = Vec::new(alloc);
    for statement in all {
        put(alloc, &mut out, statement)?;
    }
    Ok(out.as_slice() == want.as_bytes())
}

const SCRIPTS: [(&str, &str); 13] = [
    ("", ""),
    (" \r\n;\t;", ""),
    ("SELECT * FROM t;", "1[SELECT * FROM t|]"),
    ("\nSELECT 'a;b''c';\n", "1[SELECT 'a;b''c'|]"),
    (
        ";;SELECT * FROM t;; ;\nSELECT * FROM u;",
        "1[SELECT * FROM t|]2[SELECT * FROM u|]",
    ),
    (
        "IMPORT INTO t LINES 2;\n1\n2\nSELECT * FROM t;",
        "1[IMPORT INTO t LINES 2|1\n2\n]2[SELECT * FROM t|]",
    ),
    (
        "IMPORT INTO t LINES 1;  \r\n7\r\n;",
        "1[IMPORT INTO t LINES 1|7\r\n]",
    ),
    ("IMPORT INTO t LINES 1;7", "1[IMPORT INTO t LINES 1|7]"),
    (
        "IMPORT INTO t LINES 1;\r7\n",
        "1[IMPORT INTO t LINES 1|\r7\n]",
    ),
    (
        "IMPORT INTO t LINES 2;\n\n\n",
        "1[IMPORT INTO t LINES 2|\n\n]",
    ),
    (
        "IMPORT INTO t LINES 0;\n1;",
        "1[IMPORT INTO t LINES 0|]2[1|]",
    ),
    (
        "IMPORT INTO t LINES 0001;\n5\n",
        "1[IMPORT INTO t LINES 0001|5\n]",
    ),
    (
        "SELECT 'é😀';IMPORT INTO t LINES 1;\n€\n",
        "1[SELECT 'é😀'|]2[IMPORT INTO t LINES 1|€\n]",
    ),
];

#[test]
fn statements_are_read(rt: HostRuntime) -> Result<(), Fail> {
    for (text, want) in SCRIPTS {
        let script = read_statements(rt.alloc(), text.as_bytes())?;
        assert!(rt; has_statements(rt.alloc(), &script, want)?, "{text}");
    }
    Ok(())
}

#[test]
fn bytes_are_read_in_one_way() {
    one_reading();
}
