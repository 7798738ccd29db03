// Output rows in the order of keys.
ghost use Rattle.std.specs.Prelude.{◌≡◌, [], IfOk};
ghost use Rattle.hv_model.specs.Answer.{AnswersFor, key_order, row_order};

use hv_model::{Cell, OutRow, OutRows, SortKey, SortKeys};
use hv_row::Bytes;
use std::alloc::AllocError;
use std::cmp::Ordering;

/// Rows in the order of the keys, ties in the order of all columns, up to the limit; without keys as they are.
pub fn ordered(rows: OutRows, keys: &SortKeys, limit: Option<u64>) -> Result<OutRows, AllocError>
    ensures answer { IfOk result (λ sorted. AnswersFor keys.now limit rows sorted) }
    ensures listed { keys.now ≡ [] → IfOk result (λ sorted. sorted ≡ rows) }
{
    if keys.is_empty() {
        return Ok(rows);
    }
    let mut sorted = rows.into_vec();
    // Rows lie apart in memory, their leads beside each other: by these most rows come to their places, and the sort by
    // the keys, which alone decides, meets few runs.
    sorted.sort_by_cached_key(|row| lead(keys.as_slice(), row))?;
    sorted.sort_by(|x, y| compare_rows(keys.as_slice(), x, y))?;
    if let Some(limit) = limit {
        sorted.truncate(limit as usize);
    }
    Ok(OutRows::from_vec(sorted))
}

// How two rows are ordered by the keys, and by all columns where they tie.
fn compare_rows(keys: &[SortKey], x: &OutRow, y: &OutRow) -> Ordering
    ensures { result ≡ row_order keys.now x.now y.now }
{
    for key in keys {
        let order = compare_by(*key, x, y);
        if order.is_ne() {
            return order;
        }
    }
    x.cmp(y)
}

// How two rows are ordered by one key.
fn compare_by(key: SortKey, x: &OutRow, y: &OutRow) -> Ordering
    ensures { result ≡ key_order key x.now y.now }
{
    let at = usize::from(key.item);
    let order = x.get(at).cmp(&y.get(at));
    if key.down { order.reverse() } else { order }
}

// Numbers that mostly order rows as the first two keys do. No order depends on them, only how long a sort takes.
fn lead(keys: &[SortKey], row: &OutRow) -> (i64, i64) {
    (lead_by(keys, 0, row), lead_by(keys, 1, row))
}

// The number of a row by the key at this place, and by its first column behind the last key.
fn lead_by(keys: &[SortKey], at: usize, row: &OutRow) -> i64 {
    let (item, down) = match keys.get(at) {
        Some(key) => (usize::from(key.item), key.down),
        None => (0, false),
    };
    let number = number_of(row.get(item));
    if down { !number } else { number }
}

// A number that mostly rises as cells do.
fn number_of(cell: Option<&Cell>) -> i64 {
    match cell {
        Some(Cell::Num(number)) => i64::try_from(*number).unwrap_or(i64::MAX),
        Some(Cell::Txt(text)) => front_of(text),
        None => i64::MIN,
    }
}

// The first seven bytes of a text as a number, the high byte first.
fn front_of(text: &Bytes) -> i64 {
    let mut front = 0i64;
    for at in 0..7 {
        let byte = match text.get(at) {
            Some(byte) => i64::from(*byte),
            None => 0,
        };
        front = front.wrapping_mul(256).wrapping_add(byte);
    }
    front
}
