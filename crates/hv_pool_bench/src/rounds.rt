// Rounds of calls on a pool.
ghost use Rattle.std.specs.Prelude.{◌<◌, ◌≤◌};

use hv_pool::Seen;
use hv_pool_tests::fixture::{Fixture, Way};
use rand_core::SeedableRng;
use rand_core::utils::NextWord;
use rand_pcg::Pcg32;
use std::alloc::{AllocError, Global};

/// Fills a pool of so many frames with pages, makes so many rounds on it by so many sessions, and gives the sum of the numbers that were answered.
/// There are twice as many pages as frames, so that in about half of the rounds a page is here.
pub fn make_rounds(
    alloc: Global,
    frames: u32,
    rounds: u32,
    sessions: u32,
) -> Result<u64, AllocError>
    requires frames { (1 ≤ frames) × (frames ≤ 1000000) }
    requires sessions { (1 ≤ sessions) × (sessions ≤ 64) }
{
    let mut fixture = Fixture::new(alloc, frames)?;
    let mut random = Pcg32::seed_from_u64(7);
    let mut sum: u64 = 0;
    for page in 0..frames {
        sum = sum.wrapping_add(use_page(&mut fixture, page, page % sessions));
    }
    for round in 0..rounds {
        let page = random.next_word() % (2 * frames);
        let session = round % sessions;
        sum = sum.wrapping_add(use_page(&mut fixture, page, session));
        if round % 16 == 0 {
            leave_page(&mut fixture, page, session);
        }
    }
    fixture.end();
    Ok(sum)
}

// A session reads the page if it isn't here, takes its frame into its hand, and gives it back.
fn use_page(fixture: &mut Fixture, page: u32, session: u32) -> u64
    requires { session < 64 }
{
    let seen = fixture.look(page);
    if seen == Seen::Start {
        fixture.ask(page, session);
        fixture.give(Way::Landed, page);
    }
    let answer = fixture.ask(page, session);
    fixture.give(Way::Back { formed: true }, page);
    u64::from(answer.number)
}

// A session reads a page further on, and forgets it once it is here; the frame of another is lost.
fn leave_page(fixture: &mut Fixture, page: u32, session: u32)
    requires { session < 64 }
{
    let next = page.wrapping_add(1);
    if fixture.look(next) == Seen::Start {
        fixture.ask(next, session);
        fixture.give(Way::Landed, next);
    }
    let last = page.wrapping_add(2);
    if fixture.look(last) == Seen::Start {
        fixture.ask(last, session);
        fixture.give(Way::Lost, last);
    }
    fixture.forget(session);
}
