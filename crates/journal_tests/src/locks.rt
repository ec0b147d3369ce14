//! A log of numbers under the lock, over a base that ends at some position.
ghost use Rattle.std.specs.Prelude.{◌≡◌, ◌⊎◌, ◌+◌, ◌<◌, ◌++◌, ◌∷◌, [], ℕ, Some, IsTrue, is_some};
ghost use Rattle.std.specs.Thread.{IsSync};
ghost use Rattle.turn_lock.specs.Pass.{IsPassOf, IsIdle, shares_of};

use std::alloc::Global;
use std::process::Abort;
use std::sync::Wait;
use std::thread;
use std::thread::Threads;
use turn_lock::{Grown, MadeLock, Pass, TurnLock, every_moment};

// How many entries each thread adds.
const TURNS: u32 = 1000;

#[derive(Drop)]
struct Log {
    start: u32,
    entries: Vec<u32>,
    // The entry that closes it, which isn't among its entries.
    shut: Option<u32>,
}

impl Grown for Log {
    type Base = u32;

    type Entry = u32;

    ghost base = { λ log. log.start };

    ghost first = { λ start. start };

    ghost events = { λ log. log.entries.items };

    ghost closed = { λ log. log.shut };

    fn position(&self) -> u64 {
        self.start as u64 + self.entries.len() as u64
    }
}

fn empty_log(alloc: Global, start: u32) -> Log {
    Log {
        start,
        entries: Vec::new(alloc),
        shut: None,
    }
}

impl Log {
    // Shuts the log with an entry, unless it is shut.
    fn shut_by(&mut self, entry: u32)
        ensures base { self.new.start ≡ self.old.start }
        ensures entries { self.new.entries.items ≡ self.old.entries.items }
        ensures stays { (e : ℕ) → self.old.shut ≡ Some e → self.new.shut ≡ Some e }
    {
        if self.shut.is_none() {
            self.shut = Some(entry);
        }
    }

    // Adds an entry. If the log is shut, or memory runs out, it stays as it was.
    fn add(&mut self, entry: u32)
        ensures base { self.new.start ≡ self.old.start }
        ensures shut { self.new.shut ≡ self.old.shut }
        ensures entries { self.new.entries.items ≡ self.old.entries.items
            ⊎ self.new.entries.items ≡ self.old.entries.items ++ entry ∷ [] }
        ensures stays { IsTrue (is_some self.old.shut) → self.new.entries.items ≡ self.old.entries.items }
    {
        if self.shut.is_none() {
            let _ = self.entries.push(entry);
        }
    }
}

fn append<R: Threads + Wait + Sync>(rt: &R, lock: &TurnLock<Log>, pass: &mut Pass<Log>, entry: u32)
    requires { IsPassOf lock.now pass.old × IsIdle pass.old }
    ensures pass { IsPassOf lock.now pass.new × IsIdle pass.new }
    ensures shares { shares_of pass.new ≡ shares_of pass.old }
{
    let mut held = lock.take(rt, pass);
    held.value.add(entry);
    lock.give(pass, held);
}

// Adds the numbers from `from` on, and returns the pass.
fn append_many<R: Threads + Wait + Sync>(
    rt: &R,
    lock: &TurnLock<Log>,
    mut pass: Pass<Log>,
    from: u32,
) -> Pass<Log>
    requires { IsPassOf lock.now pass × IsIdle pass }
    ensures pass { IsPassOf lock.now result × IsIdle result }
    ensures shares { shares_of result ≡ shares_of pass }
{
    for i in 0..TURNS {
        append(rt, lock, &mut pass, from.wrapping_add(i));
    }
    pass
}

// Runs two threads in parallel, each with a pass.
fn append_by_two<R: Threads + Wait + Sync>(
    rt: &R,
    lock: &TurnLock<Log>,
    a: Pass<Log>,
    b: Pass<Log>,
) -> Pass<Log>
    requires { IsPassOf lock.now a × IsIdle a × IsPassOf lock.now b × IsIdle b }
    ensures pass { IsPassOf lock.now result × IsIdle result }
    ensures shares { shares_of result ≡ shares_of a + shares_of b }
{
    let (a, b) = thread::join(
        rt,
        || -> Pass<Log>
            requires { IsSync R.row × IsPassOf lock.now a × IsIdle a }
            ensures { IsPassOf lock.entry.now result × IsIdle result × (shares_of result ≡ shares_of a) }
        { append_many(rt, lock, a, 0) },
        || -> Pass<Log>
            requires { IsSync R.row × IsPassOf lock.now b × IsIdle b }
            ensures { IsPassOf lock.entry.now result × IsIdle result × (shares_of result ≡ shares_of b) }
        { append_many(rt, lock, b, 1000) },
    );
    lock.join(a, b)
}

// Runs three threads in parallel, each with a pass.
fn append_by_three<R: Threads + Wait + Sync>(
    rt: &R,
    lock: &TurnLock<Log>,
    a: Pass<Log>,
    b: Pass<Log>,
    c: Pass<Log>,
) -> (Pass<Log>, Pass<Log>)
    requires { IsPassOf lock.now a × IsIdle a × IsPassOf lock.now b × IsIdle b × IsPassOf lock.now c × IsIdle c }
    ensures first { IsPassOf lock.now result.0 × IsIdle result.0 × (shares_of result.0 ≡ shares_of a) }
    ensures second { IsPassOf lock.now result.1 × IsIdle result.1 × (shares_of result.1 ≡ shares_of b + shares_of c) }
{
    thread::join(
        rt,
        || -> Pass<Log>
            requires { IsSync R.row × IsPassOf lock.now a × IsIdle a }
            ensures { IsPassOf lock.entry.now result × IsIdle result × (shares_of result ≡ shares_of a) }
        { append_many(rt, lock, a, 2000) },
        || -> Pass<Log>
            requires { IsSync R.row × IsPassOf lock.now b × IsIdle b × IsPassOf lock.now c × IsIdle c }
            ensures { IsPassOf lock.entry.now result × IsIdle result × (shares_of result ≡ shares_of b + shares_of c) }
        { append_by_two(rt, lock, b, c) },
    )
}

// Whether all entries of the thread that began at `from` are in the log, in its order.
fn has_run(entries: &[u32], from: u32) -> bool {
    let mut next = from;
    for entry in entries {
        if *entry == next && next < from.wrapping_add(TURNS) {
            next = next.wrapping_add(1);
        }
    }
    next == from.wrapping_add(TURNS)
}

// Shuts the log with the first pass, and finds it shut with the second. Returns the pass that has seen both.
fn shut_and_look<R: Threads + Wait + Abort + Sync>(
    rt: &R,
    lock: &TurnLock<Log>,
    mut first: Pass<Log>,
    mut second: Pass<Log>,
) -> Pass<Log>
    requires { IsPassOf lock.now first × IsIdle first × IsPassOf lock.now second × IsIdle second }
    ensures pass { IsPassOf lock.now result × IsIdle result }
    ensures shares { shares_of result ≡ shares_of first + shares_of second }
{
    append(rt, lock, &mut first, 7);
    let mut held = lock.take(rt, &mut first);
    held.value.shut_by(9);
    lock.give(&mut first, held);
    append(rt, lock, &mut second, 8);
    assert_eq!(rt; second.position(), 1);
    lock.join(first, second)
}

fn make_lock<R: Abort>(rt: &R, alloc: Global, log: Log, shares: u32) -> (TurnLock<Log>, Pass<Log>)
    requires { 0 < shares }
    ensures lock { IsPassOf result.0 result.1 × IsIdle result.1 }
    ensures shares { (shares_of result.1 ≡ shares) × (result.0.shares ≡ shares) }
{
    match TurnLock::new(alloc, log, shares) {
        MadeLock::Made { lock, pass } => (lock, pass),
        MadeLock::NoMemory(_) => panic!(rt; "there is memory"),
    }
}

#[test]
fn three_threads_lose_no_entry(rt: HostRuntime) {
    let (lock, mut pass) = make_lock(&rt, rt.alloc(), empty_log(rt.alloc(), 5), 3);
    let second = lock.split(&mut pass, 1);
    let third = lock.split(&mut pass, 1);
    assert_eq!(rt; [pass.shares(), second.shares(), third.shares()], [1, 1, 1]);
    let (first, others) = append_by_three(&rt, &lock, pass, second, third);
    let all = lock.join(first, others);
    assert_eq!(rt; all.position(), 3005);
    let log = lock.close(all);
    assert_eq!(rt; log.entries.len(), 3000);
    for from in [0, 1000, 2000] {
        assert!(rt; has_run(log.entries.as_slice(), from), "those from {from}");
    }
}

#[test]
fn a_shut_log_stays_as_it_is(rt: HostRuntime) {
    let (lock, mut pass) = make_lock(&rt, rt.alloc(), empty_log(rt.alloc(), 0), 2);
    let other = lock.split(&mut pass, 1);
    let all = shut_and_look(&rt, &lock, pass, other);
    let log = lock.close(all);
    assert!(rt; log.shut == Some(9) && log.entries.as_slice() == [7].as_slice());
}

// With memory it creates the lock. If `rt try --test --fail-alloc N` refuses memory, it returns the value.
#[test]
fn out_of_memory_hands_the_value_back(rt: HostRuntime) {
    let log = match TurnLock::new(rt.alloc(), empty_log(rt.alloc(), 9), 1) {
        MadeLock::Made { lock, pass } => lock.close(pass),
        MadeLock::NoMemory(log) => log,
    };
    assert_eq!(rt; (log.start, log.position(), log.shut), (9, 9, None));
}

#[test]
fn the_law_holds_of_logs(rt: HostRuntime) {
    let _ = rt;
    every_moment::<Log>();
}

// Takes a turn and gives it back.
fn touch<V: Grown, R: Threads + Wait + Sync>(
    rt: &R,
    lock: &TurnLock<V>,
    mut pass: Pass<V>,
) -> Pass<V>
    requires { IsPassOf lock.now pass × IsIdle pass }
    ensures pass { IsPassOf lock.now result × IsIdle result }
    ensures shares { shares_of result ≡ shares_of pass }
{
    let held = lock.take(rt, &mut pass);
    lock.give(&mut pass, held);
    pass
}

// Passes of any value may go to other threads.
fn touch_by_two<V: Grown + Send, R: Threads + Wait + Sync>(
    rt: &R,
    lock: &TurnLock<V>,
    a: Pass<V>,
    b: Pass<V>,
) -> Pass<V>
    requires { IsPassOf lock.now a × IsIdle a × IsPassOf lock.now b × IsIdle b }
    ensures pass { IsPassOf lock.now result × IsIdle result }
    ensures shares { shares_of result ≡ shares_of a + shares_of b }
{
    let (a, b) = thread::join(
        rt,
        || -> Pass<V>
            requires { IsSync R.row × IsPassOf lock.now a × IsIdle a }
            ensures { IsPassOf lock.entry.now result × IsIdle result × (shares_of result ≡ shares_of a) }
        { touch(rt, lock, a) },
        || -> Pass<V>
            requires { IsSync R.row × IsPassOf lock.now b × IsIdle b }
            ensures { IsPassOf lock.entry.now result × IsIdle result × (shares_of result ≡ shares_of b) }
        { touch(rt, lock, b) },
    );
    lock.join(a, b)
}

#[test]
fn passes_of_any_value_cross_threads(rt: HostRuntime) {
    let (lock, mut pass) = make_lock(&rt, rt.alloc(), empty_log(rt.alloc(), 3), 2);
    let other = lock.split(&mut pass, 1);
    let all = touch_by_two(&rt, &lock, pass, other);
    let log = lock.close(all);
    assert_eq!(rt; log.position(), 3);
}
