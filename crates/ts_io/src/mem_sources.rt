//! A source in memory.
ghost use Rattle.std.specs.Prelude.{◌≡◌, ◌<◌, Some, false, length, min, take, drop};
ghost use Rattle.ts_io.specs.Faults.{Counted};
ghost use Rattle.ts_io.specs.Source.{Gives, is_failed, told_end};
ghost use Rattle.ts_io.specs.MemSource.{Supplies, source_of};

use crate::schedules::{Schedule, count_call, count_fault};
use crate::sources::{Got, Source, tells_end};
use std::marker::Model;

/// A source in memory. Contracts know its bytes. Each call returns at most a fixed number of bytes, and the
/// calls listed fail.
#[derive(Drop)]
pub struct MemSource {
    bytes: Vec<u8>,
    at: usize,
    ended: bool,
    schedule: Schedule,
}

impl Model for MemSource {
    ghost use Rattle.std.specs.Prelude.{◌<◌, ◌≤◌, vec_len, drop};
    ghost use Rattle.ts_io.specs.MemSource.{Supply};

    ghost Value = { Supply };

    ghost view = { λ s. record {
      left = drop s.at s.bytes.items;
      ended = s.ended;
      most = s.schedule.most;
      fails = s.schedule.fails.items;
      calls = s.schedule.calls;
      faults = s.schedule.faults;
    } };

    ghost invariant = { λ s. (s.at ≤ vec_len s.bytes) × (0 < s.schedule.most) };
}

impl MemSource {
    /// A source of these bytes, which returns at most `most` per call. The calls whose numbers, counted from 1,
    /// are in `fails` fail.
    pub fn new(bytes: Vec<u8>, most: usize, fails: Vec<u64>) -> MemSource
        requires { 0 < most }
        ensures made { result ≡ source_of bytes.items most fails.items }
    {
        MemSource {
            bytes,
            at: 0,
            ended: false,
            schedule: Schedule {
                most,
                fails,
                calls: 0,
                faults: 0,
            },
        }
    }

    /// Returns as much as possible from the front of the bytes left.
    fn give(&mut self, into: &mut [u8]) -> usize
        ensures count { result ≡ min self.old.most (min (length into.old) (length self.old.left)) }
        ensures copied { take result into.new ≡ take result self.old.left }
        ensures given { self.new ≡ record self.old { left = drop result self.old.left } }
    {
        let n = copy_front(&self.bytes[self.at..], into, self.schedule.most);
        self.at += n;
        n
    }
}

/// Copies from the front of `from` to the front of `into`, at most `most` bytes.
fn copy_front(from: &[u8], into: &mut [u8], most: usize) -> usize
    ensures count { result ≡ min most (min (length into.old) (length from.now)) }
    ensures copied { take result into.new ≡ take result from.now }
{
    let n = most.min(into.len().min(from.len()));
    into[..n].copy_from_slice(&from[..n]);
    n
}

impl Source for MemSource {
    ghost left = { λ s. Some s.left };

    ghost ended = { λ s. s.ended };

    ghost faults = { λ s. s.faults };

    fn faults(&self) -> u64 {
        self.schedule.faults
    }

    fn read(&mut self, into: &mut [u8]) -> Got
        requires untold { self.old.ended ≡ false }
        ensures bytes { Gives (Some self.old.left) (Some self.new.left) result into.new }
        ensures ended { self.new.ended ≡ told_end result into.new }
        ensures counted { Counted self.old.faults self.new.faults (is_failed result) }
        ensures exact { Supplies self.old (length into.old) result self.new }
    {
        if count_call(&mut self.schedule) {
            count_fault(&mut self.schedule);
            return Got::Failed;
        }
        let n = self.give(into);
        self.ended = tells_end(Got::Bytes(n), into);
        Got::Bytes(n)
    }
}
