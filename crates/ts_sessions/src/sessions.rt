//! Sessions.
ghost use Rattle.std.specs.Prelude.{◌≡◌, Some, OnOk, OnErr};
ghost use Rattle.std.specs.Ordering.{nat_cmp};
ghost use Rattle.std.specs.Map.{remove_entry};
ghost use Rattle.std.specs.BTreeMap.{is_at};
ghost use Rattle.ts_model.specs.States.{State};
ghost use Rattle.ts_sessions.specs.Held.{Carries, HoldsOf, places_in, waiting_bytes};
ghost use Rattle.ts_sessions.specs.Places.{no_places, block_kind, held_for};
ghost use Rattle.ts_sessions.specs.Sessions.{ChangeFits, places_after, HoldsAfter};
ghost use Rattle.ts_sessions.specs.Step.{natural as natural_of, refresh_meant};
ghost use Rattle.ts_sessions.specs.Jobs.{with_job};

use crate::blocks::{Block, Open};
use crate::changes::Change;
use std::alloc::Global;
use std::collections::BTreeMap;
use ts_model::Shown;
use ts_schema::{Name, NoMemory};

/// A session: its name, and what it keeps between lines.
#[derive(Drop)]
pub struct Session<T: Shown>
where
    T::Job: Drop,
{
    /// Its name.
    pub name: Name,
    /// Its number, from 0 in order of appearance.
    pub number: u32,
    /// The block that it is in.
    pub block: Open<T>,
    /// The last refresh that it cut.
    pub cut: Option<u64>,
    /// The snapshots that it holds, by the numbers of their refreshes.
    pub held: BTreeMap<u64, Snapshot<T::Job>>,
}

/// A snapshot for a refresh.
#[derive(Drop)]
pub struct Snapshot<J> {
    /// Its position.
    pub at: u64,
    /// The job of the refresh, unless a store has taken it.
    pub job: Option<J>,
}

impl<J> Snapshot<J> {
    /// Its position.
    fn place(&self) -> u64
        ensures { result ≡ self.now.at }
    {
        self.at
    }
}

impl<T: Shown + Drop> Session<T>
where
    T::Job: Drop,
{
    /// Returns a session that holds nothing. Sessions are numbered from 0 in order of appearance. It allocates nothing.
    pub fn new(alloc: Global, name: Name, number: u32) -> Session<T>
        ensures name { result.name ≡ name }
        ensures number { result.number ≡ number }
        ensures places { places_in result ≡ no_places }
        ensures holds { (s : State) → HoldsOf T.Shown result s }
    {
        Session {
            name,
            number,
            block: Open::Nothing,
            cut: None,
            held: BTreeMap::new(alloc),
        }
    }

    /// How many bytes the texts of the queued operations have: 0 outside a write block.
    pub fn queued(&self) -> u64
        ensures { result ≡ waiting_bytes self.now }
    {
        self.block.queued()
    }

    /// The block that it is in.
    pub fn block(&self) -> Block
        ensures { result ≡ block_kind (places_in self.now).block }
    {
        self.block.stage()
    }

    /// The refresh that a statement names: the one with its number, or the last that the session cut.
    pub fn refresh_named(&self, number: Option<i64>) -> Option<u64>
        ensures { result ≡ refresh_meant (places_in self.now) number }
    {
        match number {
            Some(number) => natural(number),
            None => self.cut,
        }
    }

    /// The position of the snapshot that the session holds for a refresh.
    pub fn held_at(&self, cut: u64) -> Option<u64>
        ensures { result ≡ held_for cut (places_in self.now).held }
    {
        match self.held.get(&cut) {
            Some(snapshot) => Some(snapshot.place()),
            None => None,
        }
    }

    /// Applies the change of a statement. If it runs out of memory, the session stays as it is.
    pub fn settle(&mut self, change: Change<T>) -> Result<(), NoMemory>
        requires fits { ChangeFits change (places_in self.old).block }
        ensures places { OnOk result (places_in self.new ≡ places_after change (places_in self.old)) }
        ensures kept { OnErr result (Carries self.old self.new) }
        ensures name { self.new.name ≡ self.old.name }
        ensures number { self.new.number ≡ self.old.number }
        ensures holds { HoldsAfter T.Shown change self.old self.new }
    {
        match change {
            Change::Nothing => Ok(()),
            Change::Cuts(cut) => {
                self.cut = Some(cut);
                Ok(())
            }
            Change::Holds { cut, at, job } => self.hold(cut, at, job),
            Change::GivesUp(cut) => {
                self.forget(cut);
                Ok(())
            }
            Change::Enters(block) => {
                self.block = block;
                Ok(())
            }
            Change::Queues { op, bytes } => self.block.push(op, bytes),
        }
    }

    /// Gives up the snapshot for a refresh.
    pub(crate) fn forget(&mut self, cut: u64)
        ensures held { self.new.held.entries ≡ remove_entry (is_at (nat_cmp cut)) self.old.held.entries }
        ensures block { self.new.block ≡ self.old.block }
        ensures cut { self.new.cut ≡ self.old.cut }
        ensures name { self.new.name ≡ self.old.name }
        ensures number { self.new.number ≡ self.old.number }
    {
        self.held.remove(&cut);
    }

    /// Holds a snapshot for a refresh, instead of one that it held.
    fn hold(&mut self, cut: u64, at: u64, job: T::Job) -> Result<(), NoMemory>
        ensures held { OnOk result (self.new.held.entries ≡ with_job cut at job self.old.held.entries) }
        ensures block { self.new.block ≡ self.old.block }
        ensures cut { self.new.cut ≡ self.old.cut }
        ensures name { self.new.name ≡ self.old.name }
        ensures number { self.new.number ≡ self.old.number }
        ensures kept { OnErr result (Carries self.old self.new) }
    {
        let snapshot = Snapshot { at, job: Some(job) };
        self.held.insert(cut, snapshot)?;
        Ok(())
    }
}

/// Returns the number if it isn't negative.
fn natural(number: i64) -> Option<u64>
    ensures { result ≡ natural_of number }
{
    if number < 0 {
        None
    } else {
        Some(number as u64)
    }
}
