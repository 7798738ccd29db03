// The next statement of a script.
ghost use Rattle.std.specs.Prelude.{◌≤◌, length};
ghost use Rattle.hv_model.specs.Script.{most_bytes};
ghost use Rattle.hv_script.specs.Next.{IsNext};

use crate::lines::split_data;
use crate::text::{split_blanks, split_text};
use hv_sql::import_lines;

/// The most lines of an import.
pub const MAX_IMPORT_LINES: u64 = 1_000_000;

/// What stands next in the bytes of a script.
#[derive(Clone, Copy)]
pub enum Next<'a> {
    /// No statement.
    End,
    /// A statement that no `;` ends: all bytes from its first.
    Unended(&'a [u8]),
    /// An import that wants more lines than any takes: all bytes from its first.
    Long(&'a [u8]),
    /// An import that wants more lines than follow: all bytes from its first.
    Short(&'a [u8]),
    /// A statement: all bytes from its first, its text, its data lines, and the bytes behind them.
    Found {
        from: &'a [u8],
        text: &'a [u8],
        lines: &'a [u8],
        after: &'a [u8],
    },
}

/// What stands next. Takes no memory.
pub fn find_next(bytes: &[u8]) -> Next<'_>
    requires { length bytes.now ≤ most_bytes }
    ensures { IsNext bytes.now result }
{
    let (_, from) = split_blanks(bytes);
    if from.is_empty() {
        return Next::End;
    }
    let Some((text, behind)) = split_text(from) else {
        return Next::Unended(from);
    };
    let wanted = import_lines(text);
    if wanted > MAX_IMPORT_LINES {
        return Next::Long(from);
    }
    match split_data(behind, wanted) {
        Some((lines, after)) => Next::Found {
            from,
            text,
            lines,
            after,
        },
        None => Next::Short(from),
    }
}
