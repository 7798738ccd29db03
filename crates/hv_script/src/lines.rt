// The data lines of an import.
ghost use Rattle.std.specs.Prelude.{◌≡◌, ◌⊎◌, ◌<◌, ◌≤◌, [], ◌++◌, true, length, take, drop, Some, None, MatchOption};
ghost use Rattle.std.specs.Option.{option_copied};
ghost use Rattle.hv_model.specs.Script.{TakesLines, data_behind, behind_gap, behind_return, line_list, ends_line};

/// The next lines that a statement takes, of the bytes behind its `;`, and what is behind them; `None` where fewer lines follow.
pub fn split_data(behind: &[u8], wanted: u64) -> Option<(&[u8], &[u8])>
    ensures { MatchOption result (length (line_list (data_behind behind.now)) < wanted) (λ parts. TakesLines wanted behind.now parts.0.now parts.1.now) }
{
    if wanted == 0 {
        return Some(behind.split_at(0));
    }
    let data = skip_line(behind);
    let n = lines_len(data, wanted)?;
    Some(data.split_at(n))
}

// What is behind the rest of a line, where that is white; else the bytes themselves.
fn skip_line(behind: &[u8]) -> &[u8]
    ensures { result.now ≡ data_behind behind.now }
{
    match skip_gap(behind) {
        Some(data) => data,
        None => behind,
    }
}

// What is behind spaces and tabs, an optional carriage return and a line feed.
fn skip_gap(bytes: &[u8]) -> Option<&[u8]>
    ensures { option_copied result ≡ behind_gap bytes.now }
{
    for (at, byte) in bytes.iter().enumerate() {
        let (_, rest) = bytes.split_at(at);
        let (_, more) = rest.split_at(1);
        if *byte == b'\r' {
            return skip_return(more);
        }
        if *byte == b'\n' {
            return Some(more);
        }
        if *byte != b' ' && *byte != b'\t' {
            return None;
        }
    }
    None
}

// What is behind a line feed.
fn skip_return(bytes: &[u8]) -> Option<&[u8]>
    ensures { option_copied result ≡ behind_return bytes.now }
{
    match bytes {
        [b'\n', more @ ..] => Some(more),
        _ => None,
    }
}

// How many bytes the next lines take; `None` where fewer lines follow.
fn lines_len(bytes: &[u8], wanted: u64) -> Option<usize>
    requires { 0 < wanted }
    ensures { MatchOption result (length (line_list bytes.now) < wanted) (λ n. (n ≤ length bytes.now) × (length (line_list (take n bytes.now)) ≡ wanted) × ((ends_line (take n bytes.now) ≡ true) ⊎ (drop n bytes.now ≡ []))) }
{
    let mut lines = 0;
    let mut open = false;
    for (at, byte) in bytes.iter().enumerate() {
        if !open {
            if lines == wanted {
                return Some(at);
            }
            lines += 1;
        }
        open = *byte != b'\n';
    }
    if lines == wanted {
        Some(bytes.len())
    } else {
        None
    }
}
