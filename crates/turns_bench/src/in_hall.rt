//! Turns at a hall.
ghost use Rattle.std.specs.Prelude.{◌≡◌, ◌+◌, ◌<◌, ◌≤◌, false, All, vec_len, length};

use crate::count::Count;
use std::alloc::{AllocError, Global};
use std::rt::Clock;
use std::sync::Wait;
use std::thread::Threads;
use std::time::{Duration, Instant};
use std::{io, thread};
use turnstile::{Hall, Seat};

fn take_turns<R: Wait>(rt: &R, hall: &Hall<Count>, seat: &mut Seat<u64>, turns: u64)
    requires { (seat.old.hall ≡ hall.now) × (seat.old.has_turn ≡ false) }
    ensures { (seat.new.hall ≡ hall.now) × (seat.new.has_turn ≡ false) }
{
    for _ in 0..turns {
        let mut turn = seat.enter(rt, hall);
        turn.value().add();
        turn.leave(seat, hall);
    }
}

fn take_all<R: Threads + Wait + Sync>(
    rt: &R,
    hall: &Hall<Count>,
    seats: &mut [Seat<u64>],
    turns: u64,
)
    requires { All (λ seat. (seat.hall ≡ hall.now) × (seat.has_turn ≡ false)) seats.old }
    ensures { All (λ seat. (seat.hall ≡ hall.now) × (seat.has_turn ≡ false)) seats.new }
{
    thread::for_each_mut(rt, seats, 4, &|_, seat| take_turns(rt, hall, seat, turns));
}

fn timed<R: Threads + Wait + Clock + Sync>(
    rt: &R,
    hall: &Hall<Count>,
    seats: &mut [Seat<u64>],
    turns: u64,
) -> io::Result<Duration>
    requires { All (λ seat. (seat.hall ≡ hall.now) × (seat.has_turn ≡ false)) seats.old }
    ensures { All (λ seat. (seat.hall ≡ hall.now) × (seat.has_turn ≡ false)) seats.new }
{
    let start = Instant::now(rt);
    take_all(rt, hall, seats, turns);
    start?.elapsed(rt)
}

fn split_all(hall: &Hall<Count>, first: &mut Seat<u64>, seats: &mut Vec<Seat<u64>>, count: usize)
    requires first { (first.old.hall ≡ hall.now) × (first.old.has_turn ≡ false) × (first.old.number ≡ 0) }
    requires count { (first.old.made ≡ 0) × (vec_len seats.old ≡ 0) × (count ≤ seats.old.cap) }
    ensures first { (first.new.hall ≡ hall.now) × (first.new.has_turn ≡ false) × (first.new.number ≡ 0) }
    ensures count { (first.new.made ≡ vec_len seats.new) × (first.new.joined ≡ first.old.joined) }
    ensures seats { All (λ seat. (seat.hall ≡ hall.now) × (seat.has_turn ≡ false)) seats.new.items }
{
    while seats.len() < count {
        seats.push_reserved(first.split(hall));
    }
}

fn join_all(hall: &Hall<Count>, first: &mut Seat<u64>, mut seats: Vec<Seat<u64>>)
    requires first { (first.old.hall ≡ hall.now) × (first.old.has_turn ≡ false) × (first.old.number ≡ 0) }
    requires count { length first.old.joined + vec_len seats ≡ first.old.made }
    requires seats { All (λ seat. (seat.hall ≡ hall.now) × (seat.has_turn ≡ false)) seats.items }
    ensures first { (first.new.hall ≡ hall.now) × (first.new.has_turn ≡ false) × (first.new.number ≡ 0) }
    ensures count { length first.new.joined ≡ first.new.made }
{
    while let Some(seat) = seats.pop() {
        first.join(seat, hall);
    }
}

/// How long it takes so many threads to take so many turns each.
pub fn time<R: Threads + Wait + Clock + Sync>(
    rt: &R,
    alloc: Global,
    threads: usize,
    turns: u64,
) -> io::Result<Duration> {
    let mut seats = Vec::with_capacity(alloc, threads)?;
    let Ok((hall, mut first)) = Hall::open(alloc, Count { turns: 0 }) else {
        return Err(AllocError.into());
    };
    split_all(&hall, &mut first, &mut seats, threads);
    let time = timed(rt, &hall, seats.as_mut_slice(), turns);
    join_all(&hall, &mut first, seats);
    hall.close(first);
    time
}
