//! `hv_pool_bench FRAMES ROUNDS SESSIONS`: fills a pool of so many frames with pages, and makes so many rounds of calls on it by so many
//! sessions, for `bench/pool`, which takes the time. It prints a sum over what was answered, so that no work falls away.
#![tactic(auto)]

mod rounds;

use rounds::make_rounds;
use std::env;
use std::env::Args;
use std::process::ExitCode;

fn main(rt: HostRuntime) -> ExitCode {
    let Ok(args) = env::args(&rt) else {
        return ExitCode::from(2);
    };
    let Some((frames, rounds, sessions)) = read_args(args) else {
        return ExitCode::from(2);
    };
    if frames == 0 || frames > MAX_FRAMES || sessions == 0 || sessions > MAX_SESSIONS {
        return ExitCode::from(2);
    }
    let Ok(sum) = make_rounds(rt.alloc(), frames, rounds, sessions) else {
        return ExitCode::from(6);
    };
    match println!(rt; "{sum}") {
        Ok(()) => ExitCode::from(0),
        Err(_) => ExitCode::from(5),
    }
}

// The most frames of a pool.
const MAX_FRAMES: u32 = 1_000_000;

// The most sessions of a pool.
const MAX_SESSIONS: u32 = 64;

// How many frames, rounds and sessions are asked for.
fn read_args(args: Args) -> Option<(u32, u32, u32)> {
    let mut args = args.skip(1);
    let frames = args.next()?.parse().ok()?;
    let rounds = args.next()?.parse().ok()?;
    let sessions = args.next()?.parse().ok()?;
    Some((frames, rounds, sessions))
}
