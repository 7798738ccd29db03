// The bytes of tokens, and tokens.
use hv_model::{begins_name, is_digit, is_name_byte, is_number, is_white, is_word};

// A byte, and whether it is white, is a digit, begins a name and goes on with one.
const BYTES: [(u8, bool, bool, bool, bool); 13] = [
    (b' ', true, false, false, false),
    (b'\n', true, false, false, false),
    (b'\x0b', false, false, false, false),
    (b'0', false, true, false, true),
    (b'9', false, true, false, true),
    (b'/', false, false, false, false),
    (b':', false, false, false, false),
    (b'A', false, false, true, true),
    (b'z', false, false, true, true),
    (b'_', false, false, true, true),
    (b'@', false, false, false, false),
    (b'{', false, false, false, false),
    (200, false, false, false, false),
];

#[test]
fn white_bytes_and_digits_are_told(rt: HostRuntime) {
    for (byte, white, digit, _, _) in BYTES {
        assert!(rt; is_white(byte) == white, "{byte}");
        assert!(rt; is_digit(byte) == digit, "{byte}");
    }
}

#[test]
fn bytes_of_names_are_told(rt: HostRuntime) {
    for (byte, _, _, begins, goes_on) in BYTES {
        assert!(rt; begins_name(byte) == begins, "{byte}");
        assert!(rt; is_name_byte(byte) == goes_on, "{byte}");
    }
}

// A token, a word, and whether it is that.
const WORDS: [(&str, &str, bool); 5] = [
    ("select", "SELECT", true),
    ("SeLeCt", "SELECT", true),
    ("selec", "SELECT", false),
    ("", "", true),
    ("{", "[", false),
];

#[test]
fn words_are_told_in_any_case(rt: HostRuntime) {
    for (token, word, want) in WORDS {
        assert!(rt;
            is_word(token.as_bytes(), word.as_bytes()) == want,
            "{token}"
        );
    }
}

const NUMBERS: [(&str, bool); 8] = [
    ("0", true),
    ("0012", true),
    ("99999999999999999999999", true),
    ("", false),
    ("1a", false),
    ("-1", false),
    ("+1", false),
    ("a", false),
];

#[test]
fn numbers_are_told(rt: HostRuntime) {
    for (token, want) in NUMBERS {
        assert!(rt; is_number(token.as_bytes()) == want, "{token}");
    }
}
