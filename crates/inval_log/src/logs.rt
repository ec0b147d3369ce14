//! The log.

ghost use Rattle.std.specs.Prelude.{◌≡◌, ◌≤◌, [], IfOk, OnOk};
ghost use Rattle.std.specs.Int.{int_max};
ghost use Rattle.ts_bucket.specs.WholeSpans.{least};
ghost use Rattle.inval_log.specs.Logs.{begins_below, entries_noted};

use crate::entries::Entry;
use block_list::BlockList;
use std::alloc::Global;
use std::marker::Model;
use std::mem;
use ts_bucket::Hull;
use ts_schema::NoMemory;

/// A threshold, and the hulls that were noted since the log was last emptied and that begin below
/// it.
#[derive(Drop, Debug)]
pub struct InvalLog {
    threshold: i64,
    entries: BlockList<Entry>,
}

impl Model for InvalLog {
    ghost use Rattle.inval_log.specs.Logs.{LogValue};

    ghost Value = { LogValue };

    ghost view = { λ log. record { threshold = log.threshold; entries = log.entries.items; room = log.entries.room } };
}

impl InvalLog {
    /// The empty log, whose threshold is below every time. It allocates no memory.
    pub fn new(alloc: Global) -> InvalLog
        ensures threshold { result.threshold ≡ least }
        ensures entries { result.entries ≡ [] }
    {
        InvalLog {
            threshold: i64::MIN,
            entries: BlockList::new(alloc),
        }
    }

    /// The threshold. Hulls that begin below it are logged.
    pub fn threshold(&self) -> i64
        ensures threshold { result ≡ self.now.threshold }
    {
        self.threshold
    }

    /// The entries, in the order in which they were noted.
    pub fn entries(&self) -> &BlockList<Entry>
        ensures entries { result.now.items ≡ self.now.entries }
    {
        &self.entries
    }

    /// A copy of the log, which shares all entries except those that were noted since the last `share`. It may
    /// have a different capacity.
    pub fn copy(&self) -> Result<InvalLog, NoMemory>
        ensures threshold { IfOk result (λ copy. copy.threshold ≡ self.now.threshold) }
        ensures entries { IfOk result (λ copy. copy.entries ≡ self.now.entries) }
    {
        Ok(InvalLog {
            threshold: self.threshold,
            entries: self.entries.copy()?,
        })
    }

    /// The same log with all its entries shared, so that a copy of it only increments a reference count. It
    /// costs as much as `BlockList::share`: a block and, once per block of new entries, the blocks of the last
    /// inner node and the number of inner nodes.
    pub fn share(&self) -> Result<InvalLog, NoMemory>
        ensures threshold { IfOk result (λ shared. shared.threshold ≡ self.now.threshold) }
        ensures entries { IfOk result (λ shared. shared.entries ≡ self.now.entries) }
    {
        Ok(InvalLog {
            threshold: self.threshold,
            entries: self.entries.share()?,
        })
    }

    /// Makes room for one entry.
    pub fn reserve(&mut self) -> Result<(), NoMemory>
        ensures room { OnOk result (1 ≤ self.new.room) }
        ensures kept { self.old.room ≤ self.new.room }
        ensures threshold { self.new.threshold ≡ self.old.threshold }
        ensures entries { self.new.entries ≡ self.old.entries }
    {
        self.entries.reserve()
    }

    /// Logs the hull of the commit at this position if it begins below the threshold, and returns whether it
    /// does. It allocates no memory: `reserve` must have made room for the entry.
    pub fn note(&mut self, hull: Hull, pos: u64) -> bool
        requires { 1 ≤ self.old.room }
        ensures logged { result ≡ begins_below hull self.old.threshold }
        ensures threshold { self.new.threshold ≡ self.old.threshold }
        ensures entries { self.new.entries ≡ entries_noted self.old hull pos }
    {
        let logged = hull.least < self.threshold;
        if logged {
            self.entries.push_reserved(Entry { hull, pos });
        }
        logged
    }

    /// Moves the threshold up to `hi`, if that is higher.
    pub fn raise(&mut self, hi: i64)
        ensures threshold { self.new.threshold ≡ int_max self.old.threshold hi }
        ensures entries { self.new.entries ≡ self.old.entries }
        ensures room { self.new.room ≡ self.old.room }
    {
        self.threshold = self.threshold.max(hi);
    }

    /// Empties the log, and returns the entries that it had.
    pub fn drain(&mut self) -> BlockList<Entry>
        ensures drained { result.items ≡ self.old.entries }
        ensures entries { self.new.entries ≡ [] }
        ensures threshold { self.new.threshold ≡ self.old.threshold }
    {
        let empty = BlockList::new(self.entries.allocator());
        mem::replace(&mut self.entries, empty)
    }
}
