// The first place at fault in a page 0 of one column of numbers, told point by point.
ghost use Rattle.std.specs.Prelude.{◌<◌, ◌≤◌};

fn byte_at(page: &[u8], at: usize) -> usize {
    page.get(at).copied().unwrap_or(0) as usize
}

fn number_at(page: &[u8], at: usize) -> usize
    requires { at < 65536 }
{
    let high = page.get(at).copied().unwrap_or(0);
    let low = page.get(at + 1).copied().unwrap_or(0);
    256 * high as usize + low as usize
}

pub fn first_fault(page: &[u8]) -> Option<usize> {
    for (at, byte) in [(0, 79), (1, 68), (2, 1), (3, 1)] {
        if byte_at(page, at) != byte {
            return Some(at);
        }
    }
    let count = number_at(page, 4);
    if count == 0 || count > 2040 {
        return Some(4);
    }
    let used = number_at(page, 6);
    if used < 17 + 2 * count || used > 4096 {
        return Some(6);
    }
    for at in 8..16 {
        if byte_at(page, at) != 0 {
            return Some(if at < 12 { 8 } else { at });
        }
    }
    if let Some(at) = first_entry_fault(page, count, used) {
        return Some(at);
    }
    first_byte_behind(page, used)
}

// The first byte behind the entries that isn't 0.
fn first_byte_behind(page: &[u8], used: usize) -> Option<usize> {
    for at in used..4096 {
        if byte_at(page, at) != 0 {
            return Some(at);
        }
    }
    None
}

// First the offsets, each greater than the one before; then the entries, each of 8 bytes.
fn first_entry_fault(page: &[u8], count: usize, used: usize) -> Option<usize>
    requires { count ≤ 2040 }
{
    let mut before = 15 + 2 * count;
    for slot in 0..count {
        let from = number_at(page, 16 + 2 * slot);
        if from <= before || from >= used || slot == 0 && from != 16 + 2 * count {
            return Some(16 + 2 * slot);
        }
        before = from;
    }
    first_length_fault(page, count, used)
}

// An entry that is too short or too long for a row fails at its place; one that has bytes behind its number, at those.
fn first_length_fault(page: &[u8], count: usize, used: usize) -> Option<usize>
    requires { count ≤ 2040 }
{
    for slot in 0..count {
        let from = number_at(page, 16 + 2 * slot);
        let next = if slot + 1 < count {
            number_at(page, 18 + 2 * slot)
        } else {
            used
        };
        let length = next.saturating_sub(from);
        if length < 8 || length > 2000 {
            return Some(from);
        }
        if length > 8 {
            return Some(from.saturating_add(8));
        }
    }
    None
}
