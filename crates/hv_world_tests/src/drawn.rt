// Scripts that are drawn.
use crate::asked::{Ask, Asked};
use rand_core::utils::NextWord;
use rand_pcg::Pcg32;
use std::alloc::{AllocError, Global};

// How many statements a script has.
const STATEMENTS: u32 = 16;

/// The statements of a script; in one of eight places a barrier stands.
pub fn drawn(alloc: Global, random: &mut Pcg32) -> Result<Vec<Asked>, AllocError> {
    let mut asked = Vec::new(alloc);
    let mut numbers = [0_u32; 3];
    let mut phase = 0_u32;
    for place in 0..STATEMENTS {
        let bits = random.next_word();
        let session = bits % 3;
        if bits / 4 % 8 == 0 {
            phase = phase.saturating_add(1);
        }
        let number = &mut numbers[session as usize];
        *number = number.saturating_add(1);
        asked.push(Asked {
            session,
            number: *number,
            phase,
            table: bits / 1_024 % 2,
            ask: ask(bits / 65_536, place * 10_000),
        })?;
    }
    Ok(asked)
}

// What a statement asks: in three of sixteen a table, in five an import, in three a purge, in four rows.
fn ask(bits: u32, first: u32) -> Ask {
    match bits % 16 {
        0..=2 => Ask::Create,
        3..=6 => Ask::Import {
            first,
            rows: rows(bits / 16 % 16),
        },
        7 => Ask::Misspelled,
        8..=10 => Ask::Purge {
            chunk: bits / 16 % 4 + 1,
        },
        11..=14 => Ask::Select,
        _ => Ask::Broken,
    }
}

// How many rows an import has: a page holds 408.
fn rows(bits: u32) -> u32 {
    match bits {
        0 => 900,
        1 => 409,
        2 => 408,
        _ => bits - 3,
    }
}
