// Where a statement's text begins and ends.
ghost use Rattle.std.specs.Prelude.{◌≡◌, ◌<◌, ◌≤◌, ◌++◌, ◌∷◌, true, false, length, take, drop, Some, IsSome, MatchOption};
ghost use Rattle.std.specs.List.{list_all};
ghost use Rattle.hv_model.specs.Script.{is_blank, begins_unblank, quoted_behind};

use hv_model::is_white;

/// The bytes that may stand before a statement, and what is behind them.
pub fn split_blanks(bytes: &[u8]) -> (&[u8], &[u8])
    ensures whole { bytes.now ≡ result.0.now ++ result.1.now }
    ensures blank { list_all is_blank result.0.now ≡ true }
    ensures stops { 0 < length result.1.now → begins_unblank result.1.now ≡ true }
{
    bytes.split_at(count_blanks(bytes))
}

// How many bytes come before the first that is not blank.
fn count_blanks(bytes: &[u8]) -> usize
    ensures within { result ≤ length bytes.now }
    ensures blank { list_all is_blank (take result bytes.now) ≡ true }
    ensures stops { result < length bytes.now → begins_unblank (drop result bytes.now) ≡ true }
{
    for (at, byte) in bytes.iter().enumerate() {
        if !is_blank(*byte) {
            return at;
        }
    }
    bytes.len()
}

fn is_blank(byte: u8) -> bool
    ensures { result ≡ is_blank byte }
{
    is_white(byte) || byte == b';'
}

/// The bytes before the first `;` outside quotes, and what is behind it; `None` where there is no such `;`.
pub fn split_text(bytes: &[u8]) -> Option<(&[u8], &[u8])>
    ensures { MatchOption result (IsSome (quoted_behind false bytes.now)) (λ parts. (quoted_behind false parts.0.now ≡ Some false) × (bytes.now ≡ parts.0.now ++ 59 ∷ parts.1.now)) }
{
    let at = text_len(bytes)?;
    let (text, rest) = bytes.split_at(at);
    let (_, behind) = rest.split_at(1);
    Some((text, behind))
}

// The place of the first `;` outside quotes.
fn text_len(bytes: &[u8]) -> Option<usize>
    ensures { MatchOption result (IsSome (quoted_behind false bytes.now)) (λ n. (n < length bytes.now) × (quoted_behind false (take n bytes.now) ≡ Some false) × (drop n bytes.now ≡ 59 ∷ drop 1 (drop n bytes.now))) }
{
    let mut quoted = false;
    for (at, byte) in bytes.iter().enumerate() {
        if *byte == b'\'' {
            quoted = !quoted;
        } else if *byte == b';' && !quoted {
            return Some(at);
        }
    }
    None
}
