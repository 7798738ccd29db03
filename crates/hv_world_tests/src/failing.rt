// Calls of two sessions' ports that fail: each statement whose call fails tells it, and each other is answered.
use crate::asked::{Ask, Asked};
use crate::checked::{is_allowed, reply_to, told_at};
use crate::walked::walked;
use hv_dev::{Fail as FailingCall, FailKind, MemDevice};
use hv_model::{Detail, Failure, Reply};
use hv_report::Report;
use rand_core::SeedableRng;
use rand_pcg::Pcg32;
use std::alloc::{AllocError, Global};
use std::test::Fail;

// A table, and behind a barrier an import of two pages and a query of each of two sessions, and last a query of the first.
fn all() -> [Asked; 6] {
    [
        asked(0, 1, 0, Ask::Create),
        asked(1, 1, 1, IMPORT),
        asked(1, 2, 1, Ask::Select),
        asked(2, 1, 1, IMPORT),
        asked(2, 2, 1, Ask::Select),
        asked(0, 2, 2, Ask::Select),
    ]
}

const IMPORT: Ask = Ask::Import {
    first: 7,
    rows: 500,
};

fn asked(session: u32, number: u32, phase: u32, ask: Ask) -> Asked {
    Asked {
        session,
        number,
        phase,
        table: 0,
        ask,
    }
}

// A device whose port fails at one call.
fn failing(alloc: Global, port: u32, kind: FailKind, nth: u32) -> Result<MemDevice, AllocError> {
    let mut fails = Vec::new(alloc);
    fails.push(FailingCall { port, kind, nth })?;
    Ok(MemDevice::new(fails))
}

// How many statements failed.
fn failures(report: &Report) -> u32 {
    let mut count = 0_u32;
    for statement in &all() {
        if let Some(Reply::Failed { .. }) = reply_to(report, statement) {
            count = count.saturating_add(1);
        }
    }
    count
}

// How a statement failed.
fn failure(report: &Report, statement: &Asked) -> Option<Failure> {
    match reply_to(report, statement) {
        Some(Reply::Failed { cause, .. }) => Some(*cause),
        _ => None,
    }
}

// How many pages a statement's query reads: each import that it sees has two.
fn pages(report: &Report, statement: &Asked) -> u32 {
    let at = match reply_to(report, statement) {
        Some(reply) => told_at(reply),
        None => 0,
    };
    let mut pages = 0_u32;
    for entry in report.history.as_slice().iter().take(at as usize) {
        if let Detail::Import { .. } = &entry.what {
            pages = pages.saturating_add(2);
        }
    }
    pages
}

// Whether a session's call that fails is told as it should be, and no other is.
fn is_told(report: &Report, session: u32, kind: FailKind, nth: u32) -> bool {
    let import = asked(session, 1, 1, IMPORT);
    let select = asked(session, 2, 1, Ask::Select);
    let (statement, calls, cause) = match kind {
        FailKind::Read => (select, pages(report, &select), Failure::Read),
        FailKind::Write => (import, 2, Failure::Write),
        FailKind::Seal => (import, 1, Failure::Write),
    };
    if nth <= calls {
        failure(report, &statement) == Some(cause) && failures(report) == 1
    } else {
        failures(report) == 0
    }
}

// Whether the script meets a call that fails as it should, by the picks of a seed.
fn is_met(alloc: Global, seed: u64, session: u32, kind: FailKind, nth: u32) -> Result<bool, Fail> {
    let mut device = failing(alloc, session, kind, nth)?;
    let mut random = Pcg32::seed_from_u64(seed);
    let report = walked(alloc, &all(), &mut device, &mut random)?;
    Ok(is_told(&report, session, kind, nth) && is_allowed(alloc, &all(), &report)?)
}

// Each call in turn, up to one that isn't made.
fn is_met_at_each(alloc: Global, seed: u64, session: u32, kind: FailKind) -> Result<bool, Fail> {
    let mut met = true;
    for nth in 1..=5_u32 {
        met = met && is_met(alloc, seed, session, kind, nth)?;
    }
    Ok(met)
}

#[test]
fn each_call_that_fails_is_told_for_its_statement_alone(rt: HostRuntime) -> Result<(), Fail> {
    for seed in 0..20_u64 {
        for session in 1..=2 {
            for kind in [FailKind::Read, FailKind::Write, FailKind::Seal] {
                assert!(rt;
                    is_met_at_each(rt.alloc(), seed, session, kind)?,
                    "{seed} {session}"
                );
            }
        }
    }
    Ok(())
}
