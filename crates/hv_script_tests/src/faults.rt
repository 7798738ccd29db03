// Scripts with their first fault, and the byte at which it is told.
use crate::made::is_fault;
use hv_model::FaultName;

const FAULTS: [(&[u8], FaultName, u32); 12] = [
    (b"SELECT * FROM t", FaultName::Unended, 0),
    (b"  ;SELECT 'a;", FaultName::Unended, 3),
    (
        b"; IMPORT INTO t LINES 1000001;5\n",
        FaultName::LongImport,
        2,
    ),
    (
        b"a;IMPORT INTO t LINES 99999999999999999999;",
        FaultName::LongImport,
        2,
    ),
    (
        b"CREATE TABLE t (a INT);\nIMPORT INTO t LINES 2;\n1",
        FaultName::ShortImport,
        24,
    ),
    (b"IMPORT INTO t LINES 1;\n", FaultName::ShortImport, 0),
    (
        b"IMPORT INTO t LINES 1000000;\n5\n",
        FaultName::ShortImport,
        0,
    ),
    (b"SELECT '\xC3\xA9\xFF';", FaultName::NotUtf8, 10),
    (b"IMPORT INTO t LINES 1;\n\xC3(\n", FaultName::NotUtf8, 23),
    (b"a;\xED\xA0\x80", FaultName::NotUtf8, 2),
    (b"a;b\xF4\x90\x80\x80;", FaultName::NotUtf8, 3),
    (b"SELECT 'a';\xE2\x82", FaultName::NotUtf8, 11),
];

#[test]
fn faults_are_told(rt: HostRuntime) {
    for (text, name, byte) in FAULTS {
        assert!(rt;
            is_fault(rt.alloc(), text, name, byte),
            "{name:?} at {byte}"
        );
    }
}

// Scripts with two faults.
const PAIRS: [(&[u8], FaultName, u32); 12] = [
    (b"IMPORT INTO t LINES 1000001", FaultName::Unended, 0),
    (b"IMPORT INTO t LINES 2", FaultName::Unended, 0),
    (b"IMPORT INTO t LINES 1000001;", FaultName::LongImport, 0),
    (b"IMPORT INTO t LINES 1000001;a", FaultName::LongImport, 0),
    (
        b"IMPORT INTO t LINES 1000001;IMPORT INTO t LINES 2;",
        FaultName::LongImport,
        0,
    ),
    (
        b"IMPORT INTO t LINES 2;IMPORT INTO t LINES 1000001;",
        FaultName::ShortImport,
        0,
    ),
    (b"IMPORT INTO t LINES 2;\na", FaultName::ShortImport, 0),
    (b"'IMPORT INTO t LINES 2;", FaultName::Unended, 0),
    (b"a\xFF", FaultName::NotUtf8, 1),
    (b"a\xFF;b", FaultName::NotUtf8, 1),
    (b"IMPORT INTO t LINES 1000001;\xFF", FaultName::NotUtf8, 28),
    (b"IMPORT INTO t LINES 2;\n1\xFF", FaultName::NotUtf8, 24),
];

#[test]
fn one_of_two_faults_is_told(rt: HostRuntime) {
    for (text, name, byte) in PAIRS {
        assert!(rt;
            is_fault(rt.alloc(), text, name, byte),
            "{name:?} at {byte}"
        );
    }
}
