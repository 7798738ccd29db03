// Each call on a pool, step by step.
use crate::fixture::{Fixture, Way};
use Step::{Back, Busy, Forget, Formed, FormedHit, Full, Hit, Landed, Look, Lost, Reading, Start};
use hv_pool::Seen;
use std::alloc::{AllocError, Global};
use std::test::Fail;

// A call on the pool, and what it answers. A session comes before a page, and the session that has it after.
#[derive(Clone, Copy)]
enum Step {
    Hit(u32, u8),
    // The same, with the note that the page has its form.
    FormedHit(u32, u8),
    Start(u32, u8),
    Reading(u32, u8, u32),
    Busy(u32, u8, u32),
    Full(u32, u8),
    // The frame that went away last comes back, with the page.
    Landed(u8),
    Back(u8),
    Formed(u8),
    Lost(u8),
    Forget(u32),
    Look(u8, Seen),
}

// Takes the step, and tells whether this is answered.
fn is_answered(fixture: &mut Fixture, step: Step) -> bool {
    match step {
        Hit(session, page) => hits(fixture, session, page, false),
        FormedHit(session, page) => hits(fixture, session, page, true),
        Start(session, page) => asks(fixture, session, page, Seen::Start, None),
        Reading(session, page, other) => asks(fixture, session, page, Seen::Reading, Some(other)),
        Busy(session, page, other) => asks(fixture, session, page, Seen::Busy, Some(other)),
        Full(session, page) => asks(fixture, session, page, Seen::Full, Some(3)),
        Landed(page) => fixture.give(Way::Landed, u32::from(page)),
        Back(page) => fixture.give(Way::Back { formed: false }, u32::from(page)),
        Formed(page) => fixture.give(Way::Back { formed: true }, u32::from(page)),
        Lost(page) => fixture.give(Way::Lost, u32::from(page)),
        Forget(session) => {
            fixture.forget(session % 64);
            true
        }
        Look(page, seen) => fixture.look(u32::from(page)) == seen,
    }
}

// Whether the page is here, with this note on its form.
fn hits(fixture: &mut Fixture, session: u32, page: u8, formed: bool) -> bool {
    let answer = fixture.ask(u32::from(page), session % 64);
    answer.seen == Seen::Hit && answer.formed == formed
}

// Whether this is answered to an ask.
fn asks(fixture: &mut Fixture, session: u32, page: u8, seen: Seen, number: Option<u32>) -> bool {
    let answer = fixture.ask(u32::from(page), session % 64);
    answer.seen == seen && number.unwrap_or(answer.number) == answer.number
}

// The first of the steps that isn't answered so, on three frames.
fn first_wrong(alloc: Global, steps: &[Step]) -> Result<Option<usize>, AllocError> {
    let mut fixture = Fixture::new(alloc, 3)?;
    let mut wrong = None;
    for n in 0..steps.len() {
        if !is_answered(&mut fixture, steps[n]) {
            wrong = Some(n);
            break;
        }
    }
    fixture.end();
    Ok(wrong)
}

const ASK: [Step; 8] = [
    Start(1, 5),
    Reading(2, 5, 1),
    Landed(5),
    Hit(1, 5),
    Busy(2, 5, 1),
    Back(5),
    Hit(2, 5),
    Busy(2, 5, 2),
];

const LOOK: [Step; 9] = [
    Look(1, Seen::Start),
    Start(0, 1),
    Look(1, Seen::Reading),
    Landed(1),
    Look(1, Seen::Hit),
    Hit(0, 1),
    Look(1, Seen::Busy),
    Start(0, 2),
    Look(3, Seen::Start),
];

const FULL: [Step; 6] = [
    Start(0, 1),
    Start(1, 2),
    Start(2, 3),
    Full(3, 4),
    Look(4, Seen::Full),
    Reading(3, 2, 1),
];

// The second frame lands for another page.
const LANDED: [Step; 7] = [
    Start(0, 1),
    Landed(1),
    Look(1, Seen::Hit),
    Start(0, 2),
    Landed(3),
    Look(2, Seen::Start),
    Look(3, Seen::Start),
];

// At last the frame lands, though it is in a hand.
const BACK: [Step; 8] = [
    Start(0, 1),
    Landed(1),
    Hit(0, 1),
    Back(1),
    Look(1, Seen::Hit),
    Hit(0, 1),
    Landed(1),
    Look(1, Seen::Start),
];

// The wait of session 1 ends, so that page 1 gives up its frame.
const LOST: [Step; 11] = [
    Start(0, 1),
    Reading(1, 1, 0),
    Lost(1),
    Look(1, Seen::Start),
    Start(0, 1),
    Landed(1),
    Hit(0, 1),
    Back(1),
    Start(0, 2),
    Start(0, 3),
    Start(0, 4),
];

// A page for which a session waits keeps its frame until the wait ends.
const FORGET: [Step; 11] = [
    Start(0, 1),
    Landed(1),
    Start(1, 2),
    Landed(2),
    Start(2, 3),
    Landed(3),
    Full(3, 4),
    Forget(1),
    Start(3, 4),
    Look(2, Seen::Full),
    Look(1, Seen::Hit),
];

// The page that came back longest ago gives up its frame.
const OLDEST: [Step; 13] = [
    Start(0, 1),
    Landed(1),
    Start(0, 2),
    Landed(2),
    Start(0, 3),
    Landed(3),
    Hit(0, 1),
    Back(1),
    Forget(0),
    Start(0, 4),
    Look(2, Seen::Start),
    Look(3, Seen::Hit),
    Look(1, Seen::Hit),
];

// A page that landed isn't noted to have its form; what is noted when it comes back is told at the next hit, and is gone once it gave up its frame.
const FORMED: [Step; 16] = [
    Start(0, 1),
    Landed(1),
    Hit(0, 1),
    Formed(1),
    FormedHit(1, 1),
    Back(1),
    Hit(0, 1),
    Formed(1),
    Start(0, 2),
    Start(0, 3),
    Start(0, 4),
    Lost(4),
    Start(0, 1),
    Landed(1),
    Hit(0, 1),
    Back(1),
];

#[test]
fn asks_and_looks(rt: HostRuntime) -> Result<(), Fail> {
    assert!(rt; first_wrong(rt.alloc(), &ASK)? == None);
    assert!(rt; first_wrong(rt.alloc(), &LOOK)? == None);
    assert!(rt; first_wrong(rt.alloc(), &FULL)? == None);
    Ok(())
}

#[test]
fn takes_frames_back(rt: HostRuntime) -> Result<(), Fail> {
    assert!(rt; first_wrong(rt.alloc(), &LANDED)? == None);
    assert!(rt; first_wrong(rt.alloc(), &BACK)? == None);
    assert!(rt; first_wrong(rt.alloc(), &FORMED)? == None);
    assert!(rt; first_wrong(rt.alloc(), &LOST)? == None);
    Ok(())
}

#[test]
fn ends_waits_and_takes_the_oldest(rt: HostRuntime) -> Result<(), Fail> {
    assert!(rt; first_wrong(rt.alloc(), &FORGET)? == None);
    assert!(rt; first_wrong(rt.alloc(), &OLDEST)? == None);
    Ok(())
}
