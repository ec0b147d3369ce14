//! A sink in memory.
ghost use Rattle.std.specs.Prelude.{◌≡◌, ◌<◌, [], Some};
ghost use Rattle.ts_io.specs.Faults.{Counted};
ghost use Rattle.ts_io.specs.Sink.{Takes, is_failed};
ghost use Rattle.ts_io.specs.MemSink.{Stores};

use crate::schedules::{Schedule, count_call, count_fault};
use crate::sinks::{Put, Sink};
use std::alloc::Global;
use std::marker::Model;

/// A sink in memory. Contracts know its bytes. Each call takes at most a fixed number of bytes. The calls
/// listed fail, and so does a call that runs out of memory.
#[derive(Drop)]
pub struct MemSink {
    bytes: Vec<u8>,
    schedule: Schedule,
}

impl Model for MemSink {
    ghost use Rattle.std.specs.Prelude.{◌<◌};
    ghost use Rattle.ts_io.specs.MemSink.{Store};

    ghost Value = { Store };

    ghost view = { λ s. record {
      written = s.bytes.items;
      most = s.schedule.most;
      fails = s.schedule.fails.items;
      calls = s.schedule.calls;
      faults = s.schedule.faults;
    } };

    ghost invariant = { λ s. 0 < s.schedule.most };
}

impl MemSink {
    /// A sink that holds nothing yet and takes at most `most` bytes a call. The calls whose numbers,
    /// counted from 1, are in `fails` fail. It takes no memory.
    pub fn new(alloc: Global, most: usize, fails: Vec<u64>) -> MemSink
        requires { 0 < most }
        ensures made { result ≡ record { written = []; most = most; fails = fails.items; calls = 0; faults = 0 } }
    {
        MemSink {
            bytes: Vec::new(alloc),
            schedule: Schedule {
                most,
                fails,
                calls: 0,
                faults: 0,
            },
        }
    }

    /// The bytes written.
    pub fn bytes(&self) -> &[u8]
        ensures { result.now ≡ self.now.written }
    {
        &self.bytes
    }
}

impl Sink for MemSink {
    ghost written = { λ s. Some s.written };

    ghost faults = { λ s. s.faults };

    fn faults(&self) -> u64 {
        self.schedule.faults
    }

    fn write(&mut self, piece: &[u8]) -> Put
        ensures bytes { Takes (Some self.old.written) (Some self.new.written) result piece.now }
        ensures counted { Counted self.old.faults self.new.faults (is_failed result) }
        ensures exact { Stores self.old piece.now result self.new }
    {
        let n = self.schedule.most.min(piece.len());
        if count_call(&mut self.schedule) || self.bytes.extend_from_slice(&piece[..n]).is_err() {
            count_fault(&mut self.schedule);
            return Put::Failed;
        }
        Put::Bytes(n)
    }
}
