// Pages of rows of one number each, as the format has them.
ghost use Rattle.std.specs.Prelude.{◌≡◌, ◌+◌, ◌≤◌, length};

// The most rows of one number that a page has.
pub const ROWS: u32 = 408;

// Puts bytes over those from a place on.
fn put(page: &mut [u8], at: usize, bytes: &[u8])
    requires { at + length bytes.now ≤ length page.old }
    ensures { length page.new ≡ length page.old }
{
    let end = at + bytes.len();
    page[at..end].copy_from_slice(bytes);
}

// The page of that number with so many rows, of the numbers from one on.
fn page_of_rows(number: u32, first: u64, rows: u16) -> [u8; 4096]
    requires { rows ≤ 408 }
{
    let mut page = [0; 4096];
    let entries = 16 + 2 * rows;
    put(&mut page, 0, b"OD\x01\x01");
    put(&mut page, 4, &rows.to_be_bytes());
    put(&mut page, 6, &(entries + 8 * rows).to_be_bytes());
    put(&mut page, 8, &number.to_be_bytes());
    for at in 0..rows {
        let from = entries + 8 * at;
        put(&mut page, 16 + 2 * at as usize, &from.to_be_bytes());
        put(
            &mut page,
            from as usize,
            &first.wrapping_add(u64::from(at)).to_be_bytes(),
        );
    }
    page
}

// The page of that number of a chunk of so many rows, of the numbers from 0 on.
pub fn page_of(number: u32, count: u32) -> [u8; 4096] {
    let first = number.wrapping_mul(ROWS);
    let rows = count.saturating_sub(first).min(ROWS);
    page_of_rows(number, u64::from(first), rows as u16)
}
