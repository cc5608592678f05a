//! Turns a second at a `turnstile::Hall` and at a `std::sync::Mutex` around the same value, and
//! their ratio, for one thread and for two and four that compete.
#![tactic(auto)]

mod count;
mod in_hall;
mod in_mutex;

use std::time::Duration;
use std::{env, io};

/// The turns of all threads in a second.
fn rate(threads: usize, turns: u64, time: Duration) -> u128 {
    let micros = time.as_micros().max(1);
    let all = (threads as u64).saturating_mul(turns);
    u128::from(all).saturating_mul(1_000_000) / micros
}

fn main(rt: HostRuntime) -> io::Result<()> {
    let Some(word) = env::args(&rt)?.nth(1) else {
        return println!(rt; "usage: turns_bench TURNS, where TURNS is how many each thread takes");
    };
    let turns = word.parse::<u64>().unwrap_or(0);
    for threads in [1, 2, 4] {
        let hall = rate(
            threads,
            turns,
            in_hall::time(&rt, rt.alloc(), threads, turns)?,
        );
        let mutex = rate(
            threads,
            turns,
            in_mutex::time(&rt, rt.alloc(), threads, turns)?,
        );
        let percent = hall.saturating_mul(100) / mutex.max(1);
        println!(rt;
            "{threads} threads: {hall} turns/s in the hall, {mutex} in a mutex, {percent} in 100"
        )?;
    }
    Ok(())
}
