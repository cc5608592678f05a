//! What no clause says: that calls return, that a rest ends, and how often idle seats take turns.
ghost use Rattle.std.specs.Prelude.{◌≡◌, ◌+◌, false, [], All, vec_len, if◌then◌else◌};
ghost use Rattle.turnstile.specs.History.{Adds};

use crate::{Hall, Kept, Seat};
use std::alloc::Global;
use std::process::Abort;
use std::sync::Wait;
use std::test::Fail;
use std::thread;
use std::thread::Threads;

/// The n-th entry of a seat.
#[derive(Clone, Copy)]
struct Entry {
    seat: u64,
    n: u64,
}

#[derive(Drop)]
struct Log {
    entries: Vec<Entry>,
    has_halted: bool,
    idle_turns: u64,
}

impl Kept for Log {
    type Entry = Entry;

    ghost history = { λ log. log.entries.items };

    ghost number_of = { λ entry. entry.seat };

    ghost change_count = { λ log. vec_len log.entries + (if log.has_halted then 1 else 0) };

    fn len(&self) -> u64 {
        self.entries.len() as u64
    }

    fn changes(&self) -> u64 {
        self.entries.len() as u64 + u64::from(self.has_halted)
    }
}

impl Log {
    fn new(alloc: Global) -> Log
        ensures { result.entries.items ≡ [] }
    {
        Log {
            entries: Vec::new(alloc),
            has_halted: false,
            idle_turns: 0,
        }
    }

    fn add(&mut self, entry: Entry) -> bool
        ensures { Adds (λ (e : Entry). e.seat) entry.seat self.old.entries.items self.new.entries.items }
    {
        self.entries.push(entry).is_ok()
    }
}

/// What the seats of a test do, each in a thread of its own.
#[derive(Clone, Copy)]
enum Job {
    /// Each adds so many entries.
    Add(u64),
    /// Seat 1 adds so many entries and halts, and the others rest until then.
    AddAndHalt(u64),
    /// Seat 1 takes so many turns with no change and halts, and the others rest until then.
    TurnAndHalt(u64),
}

fn add_one<R: Wait>(rt: &R, hall: &Hall<Log>, seat: &mut Seat<Entry>, n: u64)
    requires { (seat.old.hall ≡ hall.now) × (seat.old.has_turn ≡ false) }
    ensures { (seat.new.hall ≡ hall.now) × (seat.new.has_turn ≡ false) }
{
    let number = seat.number();
    let mut turn = seat.enter(rt, hall);
    turn.value().add(Entry { seat: number, n });
    turn.leave(seat, hall);
}

fn add<R: Wait>(rt: &R, hall: &Hall<Log>, seat: &mut Seat<Entry>, times: u64)
    requires { (seat.old.hall ≡ hall.now) × (seat.old.has_turn ≡ false) }
    ensures { (seat.new.hall ≡ hall.now) × (seat.new.has_turn ≡ false) }
{
    for n in 0..times {
        add_one(rt, hall, seat, n);
    }
}

fn look<R: Wait>(rt: &R, hall: &Hall<Log>, seat: &mut Seat<Entry>, halts: bool) -> bool
    requires { (seat.old.hall ≡ hall.now) × (seat.old.has_turn ≡ false) }
    ensures { (seat.new.hall ≡ hall.now) × (seat.new.has_turn ≡ false) }
{
    let mut turn = seat.enter(rt, hall);
    let log = turn.value();
    log.has_halted |= halts;
    let has_halted = log.has_halted;
    turn.leave(seat, hall);
    has_halted
}

fn turn<R: Wait>(rt: &R, hall: &Hall<Log>, seat: &mut Seat<Entry>, times: u64)
    requires { (seat.old.hall ≡ hall.now) × (seat.old.has_turn ≡ false) }
    ensures { (seat.new.hall ≡ hall.now) × (seat.new.has_turn ≡ false) }
{
    for _ in 0..times {
        look(rt, hall, seat, false);
    }
}

fn idle_once<R: Wait>(rt: &R, hall: &Hall<Log>, seat: &mut Seat<Entry>) -> bool
    requires { (seat.old.hall ≡ hall.now) × (seat.old.has_turn ≡ false) }
    ensures { (seat.new.hall ≡ hall.now) × (seat.new.has_turn ≡ false) }
{
    let mut turn = seat.enter(rt, hall);
    let log = turn.value();
    log.idle_turns = log.idle_turns.wrapping_add(1);
    let has_halted = log.has_halted;
    turn.leave(seat, hall);
    has_halted
}

fn idle<R: Wait>(rt: &R, hall: &Hall<Log>, seat: &mut Seat<Entry>)
    requires { (seat.old.hall ≡ hall.now) × (seat.old.has_turn ≡ false) }
    ensures { (seat.new.hall ≡ hall.now) × (seat.new.has_turn ≡ false) }
{
    for _ in rt.forever() {
        if idle_once(rt, hall, seat) {
            return;
        }
        seat.rest(rt, hall);
    }
    unreachable!()
}

fn work<R: Wait>(rt: &R, hall: &Hall<Log>, seat: &mut Seat<Entry>, job: Job)
    requires { (seat.old.hall ≡ hall.now) × (seat.old.has_turn ≡ false) }
    ensures { (seat.new.hall ≡ hall.now) × (seat.new.has_turn ≡ false) }
{
    match job {
        Job::Add(times) => add(rt, hall, seat, times),
        Job::AddAndHalt(_) | Job::TurnAndHalt(_) if seat.number() != 1 => idle(rt, hall, seat),
        Job::AddAndHalt(times) => {
            add(rt, hall, seat, times);
            look(rt, hall, seat, true);
        }
        Job::TurnAndHalt(times) => {
            turn(rt, hall, seat, times);
            look(rt, hall, seat, true);
        }
    }
}

fn work_all<R: Threads + Wait + Sync>(rt: &R, hall: &Hall<Log>, seats: &mut [Seat<Entry>], job: Job)
    requires { All (λ seat. (seat.hall ≡ hall.now) × (seat.has_turn ≡ false)) seats.old }
    ensures { All (λ seat. (seat.hall ≡ hall.now) × (seat.has_turn ≡ false)) seats.new }
{
    thread::for_each_mut(rt, seats, 16, &|_, seat| work(rt, hall, seat, job));
}

fn split_all<R: Abort>(
    rt: &R,
    alloc: Global,
    hall: &Hall<Log>,
    first: &mut Seat<Entry>,
    count: usize,
) -> Vec<Seat<Entry>>
    requires { (first.old.hall ≡ hall.now) × (first.old.has_turn ≡ false) }
    ensures first { (first.new.hall ≡ hall.now) × (first.new.has_turn ≡ false) }
    ensures seats { All (λ seat. (seat.hall ≡ hall.now) × (seat.has_turn ≡ false)) result.items }
{
    let mut seats = Vec::new(alloc);
    for _ in 0..count {
        assert!(rt; first.number() == 0 && first.made() < 1000);
        let seat = first.split(hall);
        assert!(rt; seats.push(seat).is_ok());
    }
    seats
}

fn join_all<R: Abort>(
    rt: &R,
    hall: &Hall<Log>,
    first: &mut Seat<Entry>,
    mut seats: Vec<Seat<Entry>>,
)
    requires first { (first.old.hall ≡ hall.now) × (first.old.has_turn ≡ false) }
    requires seats { All (λ seat. (seat.hall ≡ hall.now) × (seat.has_turn ≡ false)) seats.items }
    ensures { (first.new.hall ≡ hall.now) × (first.new.has_turn ≡ false) }
{
    while let Some(seat) = seats.pop() {
        assert!(rt; first.number() == 0);
        first.join(seat, hall);
    }
}

fn run<R: Threads + Wait + Sync + Abort>(rt: &R, alloc: Global, job: Job, count: usize) -> Log {
    let Ok((hall, mut first)) = Hall::open(alloc, Log::new(alloc)) else {
        panic!(rt; "no memory")
    };
    let mut seats = split_all(rt, alloc, &hall, &mut first, count);
    work_all(rt, &hall, seats.as_mut_slice(), job);
    join_all(rt, &hall, &mut first, seats);
    assert!(rt; first.number() == 0 && first.joined() == first.made());
    hall.close(first)
}

#[test]
fn each_call_returns_on_one_thread(rt: HostRuntime) -> Result<(), Fail> {
    let alloc = rt.alloc();
    let Ok((hall, mut first)) = Hall::open(alloc, Log::new(alloc)) else {
        panic!(rt; "no memory")
    };
    let mut second = first.split(&hall);
    add_one(&rt, &hall, &mut second, 7);
    first.rest(&rt, &hall);
    add_one(&rt, &hall, &mut first, 8);
    assert!(rt; first.number() == 0 && second.number() == 1 && first.made() == 1);
    first.join(second, &hall);
    assert!(rt; first.number() == 0 && first.joined() == 1 && first.made() == 1);
    let log = hall.close(first);
    let [a, b] = log.entries.as_slice() else {
        panic!(rt; "not two entries")
    };
    assert!(rt; a.seat == 1 && a.n == 7 && b.seat == 0 && b.n == 8);
    Ok(())
}

#[test]
fn four_threads_add_their_entries_in_order(rt: HostRuntime) -> Result<(), Fail> {
    let log = run(&rt, rt.alloc(), Job::Add(10_000), 4);
    let mut next = [0u64; 5];
    for entry in &log.entries {
        let at = entry.seat as usize;
        assert!(rt; at < 5 && next[at] == entry.n && entry.n < 10_000);
        next[at] = entry.n + 1;
    }
    assert!(rt; next == [0, 10_000, 10_000, 10_000, 10_000]);
    Ok(())
}

#[test]
fn a_halt_reaches_eight_threads_that_rest(rt: HostRuntime) -> Result<(), Fail> {
    let log = run(&rt, rt.alloc(), Job::AddAndHalt(1_000), 9);
    assert!(rt; log.has_halted && log.entries.len() == 1_000);
    Ok(())
}

#[test]
fn turns_with_no_change_wake_nobody(rt: HostRuntime) -> Result<(), Fail> {
    let log = run(&rt, rt.alloc(), Job::TurnAndHalt(100_000), 3);
    assert!(rt; log.idle_turns < 100, "{} idle turns", log.idle_turns);
    Ok(())
}
