//! A disk in memory some of whose calls fail.
ghost use Rattle.std.specs.Prelude.{◌≡◌, ◌+◌, ◌≤◌, [], length, if◌then◌else◌, is_ok, OnOk, IfOk, IfSome};
ghost use Rattle.ts_schema.specs.Counts.{one_more};
ghost use Rattle.ts_disk.specs.CrashImage.{Torn, Follows, LeavesNoMore, Only, Elapses};
ghost use Rattle.ts_disk.specs.Disk.{Counted, HasLength, HasRange, IsRange, Writes, Keeps};
ghost use Rattle.ts_disk.specs.MemDisk.{PerformsAct, Asks};
ghost use Rattle.ts_disk.specs.declared.disks.TheConstants.{MOST_BYTES};
ghost use Rattle.ts_disk.specs.FailDisk.{same_kind, known_of, leaves_of, moment_of, was_image_of, made_after, is_failing, Runs};
ghost use Rattle.ts_disk.specs.ImageLaws.{counts_now, only_now, shows_an_image};
ghost use Rattle.ts_disk.specs.declared.disk_acts.Act.TheVariants.{Write, Sync};

use crate::disks::{Disk, Failed};
use crate::mem_disks::MemDisk;
use std::alloc::Global;
use std::marker::Model;

/// The kinds of calls of a disk.
#[derive(Clone, Copy, Debug, PartialEq, Eq)]
pub enum DiskCall {
    /// `Disk::len`.
    Len,
    /// `Disk::read_at`.
    Read,
    /// `Disk::write_at`.
    Write,
    /// `Disk::sync`.
    Sync,
}

/// The calls of a disk that fail.
#[derive(Clone, Copy, Debug, PartialEq, Eq)]
pub enum Plan {
    /// Only the call of this kind with this number, counted from 1.
    Once { kind: DiskCall, nth: u64 },
    /// Every call after this many.
    After { calls: u64 },
}

/// A disk in memory some of whose calls fail. Such a call doesn't change the disk.
#[derive(Drop)]
pub struct FailDisk {
    disk: MemDisk,
    plan: Plan,
    /// The number of calls made, of those that the plan counts.
    made: u64,
    faults: u64,
}

impl Model for FailDisk {
    ghost use Rattle.ts_disk.specs.FailDisk.{Failing};

    ghost Value = { Failing };

    ghost view = { λ d. record { disk = d.disk; plan = d.plan; made = d.made; faults = d.faults } };
}

impl FailDisk {
    /// A disk with these bytes, all of them on the disk. The `nth` call of this kind, counted from 1, fails. The
    /// other calls are those of a `MemDisk`. Takes no memory.
    pub fn new(alloc: Global, bytes: Vec<u8>, kind: DiskCall, nth: u64) -> FailDisk
        ensures made { result ≡ record {
          disk = record { first = bytes.items; acts = []; faults = 0 };
          plan = Plan.Once kind nth;
          made = 0;
          faults = 0;
        } }
    {
        FailDisk {
            disk: MemDisk::new(alloc, bytes),
            plan: Plan::Once { kind, nth },
            made: 0,
            faults: 0,
        }
    }

    /// A disk with these bytes, all of them on the disk. The first `calls` calls are those of a `MemDisk`, and
    /// then every call fails. Takes no memory.
    pub fn stop_after(alloc: Global, bytes: Vec<u8>, calls: u64) -> FailDisk
        ensures made { result ≡ record {
          disk = record { first = bytes.items; acts = []; faults = 0 };
          plan = Plan.After calls;
          made = 0;
          faults = 0;
        } }
    {
        FailDisk {
            disk: MemDisk::new(alloc, bytes),
            plan: Plan::After { calls },
            made: 0,
            faults: 0,
        }
    }

    /// Returns the inner disk, for tests that check its bytes and crash images.
    pub fn inner(&self) -> &MemDisk
        ensures { result.now ≡ self.now.disk }
    {
        &self.disk
    }
}

/// Counts a call of this kind, and returns whether it fails.
fn count_call(plan: Plan, made: &mut u64, call: DiskCall) -> bool
    ensures counted { made.new ≡ made_after plan call made.old }
    ensures fails { result ≡ is_failing plan call made.new }
{
    match plan {
        Plan::Once { kind, nth } => {
            if is_same(kind, call) {
                *made = made.saturating_add(1);
            }
            is_same(kind, call) && *made == nth
        }
        Plan::After { calls } => {
            *made = made.saturating_add(1);
            calls < *made
        }
    }
}

/// Whether two kinds are the same.
fn is_same(a: DiskCall, b: DiskCall) -> bool
    ensures { result ≡ same_kind a b }
{
    a == b
}

/// Counts one more fault if a call failed.
fn count_failed<T>(faults: &mut u64, answer: &Result<T, Failed>)
    ensures { faults.new ≡ (if is_ok answer.now then faults.old else one_more faults.old) }
{
    match answer {
        Ok(_) => {}
        Err(_) => *faults = faults.saturating_add(1),
    }
}

impl Disk for FailDisk {
    ghost bytes = { known_of };

    ghost may_leave = { leaves_of };

    ghost moment = { moment_of };

    ghost left_since = { was_image_of };

    ghost faults = { λ d. d.faults };

    ghost counts_now = { λ d. counts_now d.disk };

    ghost only_now = { λ d. only_now d.disk };

    ghost shows_an_image = { λ d. shows_an_image d.disk };

    fn faults(&self) -> u64 {
        self.faults
    }

    fn len(&mut self) -> Result<u64, Failed>
        ensures length { IfOk result (λ n. HasLength (known_of self.old) n) }
        ensures most { IfOk result (λ n. n ≤ MOST_BYTES) }
        ensures kept { Keeps known_of leaves_of moment_of was_image_of self.old self.new }
        ensures counted { Counted self.old.faults self.new.faults result }
        ensures runs { Runs DiskCall.Len Asks self.old result self.new }
    {
        let result = if count_call(self.plan, &mut self.made, DiskCall::Len) {
            Err(Failed)
        } else {
            self.disk.len()
        };
        count_failed(&mut self.faults, &result);
        result
    }

    fn read_at(&mut self, at: u64, into: &mut [u8]) -> Result<(), Failed>
        requires most { at + length into.old ≤ MOST_BYTES }
        requires range { HasRange (known_of self.old) (at + length into.old) }
        ensures bytes { OnOk result (IsRange (known_of self.old) at into.new) }
        ensures kept { Keeps known_of leaves_of moment_of was_image_of self.old self.new }
        ensures counted { Counted self.old.faults self.new.faults result }
        ensures runs { Runs DiskCall.Read Asks self.old result self.new }
    {
        let result = if count_call(self.plan, &mut self.made, DiskCall::Read) {
            Err(Failed)
        } else {
            self.disk.read_at(at, into)
        };
        count_failed(&mut self.faults, &result);
        result
    }

    fn write_at(&mut self, at: u64, piece: &[u8]) -> Result<(), Failed>
        requires most { at ≤ MOST_BYTES }
        requires range { HasRange (known_of self.old) at }
        ensures written { Writes (known_of self.old) at piece.now result (known_of self.new) }
        ensures most { OnOk result (at + length piece.now ≤ MOST_BYTES) }
        ensures crash { Follows (Torn at (length piece.now)) (leaves_of self.old) (leaves_of self.new) }
        ensures time { Elapses (moment_of self.old) (moment_of self.new) (was_image_of self.old) (was_image_of self.new)
            (leaves_of self.new) }
        ensures counted { Counted self.old.faults self.new.faults result }
        ensures runs { Runs DiskCall.Write (PerformsAct (Write (record { at = at; bytes = piece.now }))) self.old result self.new }
    {
        let result = if count_call(self.plan, &mut self.made, DiskCall::Write) {
            Err(Failed)
        } else {
            self.disk.write_at(at, piece)
        };
        count_failed(&mut self.faults, &result);
        result
    }

    fn sync(&mut self) -> Result<(), Failed>
        ensures same { known_of self.new ≡ known_of self.old }
        ensures durable { OnOk result (IfSome (known_of self.old) (λ file. Only file (leaves_of self.new))) }
        ensures crash { LeavesNoMore (leaves_of self.old) (leaves_of self.new) }
        ensures time { Elapses (moment_of self.old) (moment_of self.new) (was_image_of self.old) (was_image_of self.new)
            (leaves_of self.new) }
        ensures counted { Counted self.old.faults self.new.faults result }
        ensures runs { Runs DiskCall.Sync (PerformsAct Sync) self.old result self.new }
    {
        let result = if count_call(self.plan, &mut self.made, DiskCall::Sync) {
            Err(Failed)
        } else {
            self.disk.sync()
        };
        count_failed(&mut self.faults, &result);
        result
    }
}
