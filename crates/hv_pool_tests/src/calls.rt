// Random calls on a pool and on a plain one, held against each other after each.
ghost use Rattle.std.specs.Prelude.{◌<◌, ◌≤◌};

use crate::fixture::{Answer, Fixture, Way};
use crate::plain::Plain;
use hv_pool::Seen;
use rand_core::SeedableRng;
use rand_core::utils::NextWord;
use rand_pcg::Pcg32;
use std::alloc::{AllocError, Global};
use std::test::Fail;

// How many pages the sessions ask for.
const PAGES: u8 = 8;

// How many calls are made.
const CALLS: u32 = 100_000;

// A call on the pool.
#[derive(Clone, Copy)]
enum Call {
    Ask {
        page: u8,
        session: u32,
    },
    // One of the frames that are away comes back so; `page` says with which page, or with its own.
    Give {
        which: u32,
        way: Way,
        page: Option<u8>,
    },
    Forget {
        session: u32,
    },
}

// Which answers were met, and hits with either note, and which ways back, with a frame's own page and with another.
#[derive(Drop, Clone, Copy)]
struct Met {
    answers: [bool; 5],
    notes: [bool; 2],
    own: [bool; 3],
    other: [bool; 3],
}

impl Met {
    fn none() -> Met {
        Met {
            answers: [false; 5],
            notes: [false; 2],
            own: [false; 3],
            other: [false; 3],
        }
    }

    fn answer(&mut self, answer: &Answer) {
        match answer.seen {
            Seen::Hit => {
                self.answers[0] = true;
                self.notes[usize::from(answer.formed)] = true;
            }
            Seen::Start => self.answers[1] = true,
            Seen::Reading => self.answers[2] = true,
            Seen::Busy => self.answers[3] = true,
            Seen::Full => self.answers[4] = true,
        }
    }

    fn way(&mut self, way: Way, own: bool) {
        let met = if own { &mut self.own } else { &mut self.other };
        match way {
            Way::Landed => met[0] = true,
            Way::Back { .. } => met[1] = true,
            Way::Lost => met[2] = true,
        }
    }

    fn is_all(&self) -> bool {
        self.answers == [true; 5]
            && self.notes == [true; 2]
            && self.own == [true; 3]
            && self.other == [true; 3]
    }
}

// A call of one of the sessions: in ten of sixteen it asks for a page, in five a frame comes back.
fn next_call(random: &mut Pcg32, sessions: u32) -> Call
    requires { (1 ≤ sessions) × (sessions ≤ 64) }
{
    let session = random.next_word() % sessions;
    let bits = random.next_word();
    let page = (bits / 256 % 8) as u8;
    match bits / 65_536 % 16 {
        0 => Call::Forget { session },
        1..=5 => Call::Give {
            which: bits / 16_777_216,
            way: next_way(bits / 2_048 % 16),
            page: (bits / 1_048_576 % 4 == 0).then_some(page),
        },
        _ => Call::Ask { page, session },
    }
}

// A frame lands in four of eight, comes back from a hand in three, in half of them with its form found, and is lost in one.
fn next_way(bits: u32) -> Way {
    match bits % 8 {
        0..=3 => Way::Landed,
        4..=6 => Way::Back { formed: bits >= 8 },
        _ => Way::Lost,
    }
}

// Makes one call on both pools, and tells whether both answer the same.
fn call_both(fixture: &mut Fixture, plain: &mut Plain, call: Call, met: &mut Met) -> bool {
    match call {
        Call::Ask { page, session } => ask_both(fixture, plain, page, session % 64, met),
        Call::Give { which, way, page } => give_both(fixture, plain, which, way, page, met),
        Call::Forget { session } => {
            fixture.forget(session % 64);
            plain.forget(session % 64);
            true
        }
    }
}

fn ask_both(fixture: &mut Fixture, plain: &mut Plain, page: u8, session: u32, met: &mut Met) -> bool
    requires { session < 64 }
{
    let answer = fixture.ask(u32::from(page), session);
    met.answer(&answer);
    plain.ask(page, session, &answer)
}

fn give_both(
    fixture: &mut Fixture,
    plain: &mut Plain,
    which: u32,
    way: Way,
    page: Option<u8>,
    met: &mut Met,
) -> bool {
    let Some(number) = fixture.choose(which) else {
        return true;
    };
    let own = plain.page_of(number);
    let page = page.unwrap_or(own);
    met.way(way, page == own);
    plain.give(number, way, page);
    fixture.give(way, u32::from(page))
}

// Whether the same is seen of each page in both pools.
fn agree(fixture: &Fixture, plain: &Plain) -> bool {
    for page in 0..PAGES {
        if fixture.look(u32::from(page)) != plain.look(page) {
            return false;
        }
    }
    true
}

// Makes the calls on both pools: whether both answered the same each time, and everything was met.
fn make_calls(fixture: &mut Fixture, sessions: u32, seed: u64) -> bool
    requires { (1 ≤ sessions) × (sessions ≤ 64) }
{
    let mut plain = Plain::new();
    let mut random = Pcg32::seed_from_u64(seed);
    let mut met = Met::none();
    for _ in 0..CALLS {
        let call = next_call(&mut random, sessions);
        if !call_both(fixture, &mut plain, call, &mut met) || !agree(fixture, &plain) {
            return false;
        }
    }
    met.is_all()
}

// Whether a pool of three frames is as the plain one in calls by so many sessions.
fn is_as_plain(alloc: Global, sessions: u32, seed: u64) -> Result<bool, AllocError>
    requires { (1 ≤ sessions) × (sessions ≤ 64) }
{
    let mut fixture = Fixture::new(alloc, 3)?;
    let same = make_calls(&mut fixture, sessions, seed);
    fixture.end();
    Ok(same)
}

#[test]
fn two_sessions_share_three_frames(rt: HostRuntime) -> Result<(), Fail> {
    assert!(rt; is_as_plain(rt.alloc(), 2, 5)?);
    Ok(())
}

#[test]
fn sixty_four_sessions_share_three_frames(rt: HostRuntime) -> Result<(), Fail> {
    assert!(rt; is_as_plain(rt.alloc(), 64, 6)?);
    Ok(())
}
