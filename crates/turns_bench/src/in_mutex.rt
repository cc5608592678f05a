//! Turns at a mutex.
use crate::count::Count;
use std::alloc::Global;
use std::rt::Clock;
use std::sync::{Mutex, Wait};
use std::thread::Threads;
use std::time::{Duration, Instant};
use std::{io, thread};

fn take_turns<R: Wait>(rt: &R, mutex: &Mutex<Count>, turns: u64) {
    for _ in 0..turns {
        mutex.lock(rt).add();
    }
}

fn take_all<R: Threads + Wait + Sync>(rt: &R, mutex: &Mutex<Count>, lanes: &mut [u64]) {
    thread::for_each_mut(rt, lanes, 4, &|_, turns| take_turns(rt, mutex, *turns));
}

/// How long it takes so many threads to take so many turns each.
pub fn time<R: Threads + Wait + Clock + Sync>(
    rt: &R,
    alloc: Global,
    threads: usize,
    turns: u64,
) -> io::Result<Duration> {
    let mutex = Mutex::new(Count { turns: 0 });
    let mut lanes = vec![in alloc; turns; threads]?;
    let start = Instant::now(rt)?;
    take_all(rt, &mutex, lanes.as_mut_slice());
    start.elapsed(rt)
}
