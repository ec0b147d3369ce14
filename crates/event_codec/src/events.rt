//! Events: encoding and decoding.
ghost use Rattle.std.specs.Prelude.{◌≡◌, ◌≤◌, ◌++◌, ℕ, IfOk, OnErr, OnOk, length, take};
ghost use Rattle.ts_model.specs.declared.events.Event.{Event};
ghost use Rattle.event_codec.specs.Formed.{IsFormed};
ghost use Rattle.event_codec.specs.Spelling as spelling;
ghost use Rattle.event_codec.specs.Decoding.{BeginsEvent, IfBad, IfEvent};
ghost use Rattle.event_codec.specs.Reading.{Gives, event_at, event_body, whole_event};

use crate::codes::flag_byte;
use crate::errors::ReadError;
use crate::fields::{Field, put_many};
use crate::kinds::Kind;
use crate::numbers::{put_eight, put_four};
use crate::reader::Reader;
use std::alloc::Global;
use ts_bucket::Span;
use ts_model::{Event, Hyper, TableDef, ViewDef};
use ts_schema::{NoMemory, Seq};

impl Field for Event {
    ghost spelling = { spelling.event };

    ghost fits = { IsFormed };

    ghost reading = { event_at };

    #[tactic(auto, using(std::proofs::lemmas::List::append_assoc, crate::proofs::GrowthLaws::grows_by, crate::proofs::GrowthLaws::grows_not, crate::proofs::GrowthLaws::grows_on))]
    fn put(&self, out: &mut Vec<u8>) -> Result<(), NoMemory> {
        match self {
            Event::Table(def) => {
                out.push(1)?;
                def.put(out)
            }
            Event::Hyper { table, hyper } => {
                out.push(2)?;
                put_four(out, *table)?;
                hyper.put(out)
            }
            Event::View(def) => {
                out.push(3)?;
                def.put(out)
            }
            Event::Mode { view, only } => {
                out.push(4)?;
                put_four(out, *view)?;
                out.push(flag_byte(*only))?;
                Ok(())
            }
            Event::Commit(ops) => {
                out.push(5)?;
                put_many(ops, out)
            }
            Event::Cut { view, span } => {
                out.push(6)?;
                put_four(out, *view)?;
                span.put(out)
            }
            Event::Built { cut, snap } => {
                out.push(7)?;
                put_eight(out, *cut)?;
                put_eight(out, *snap)
            }
        }
    }

    #[tactic(auto, unfolding(crate::specs::Reading::event_at))]
    fn read(reader: &mut Reader<'_>) -> Result<Event, ReadError> {
        let kind: Kind = reader.read_coded()?;
        reader.body(kind)
    }
}

impl Reader<'_> {
    /// Reads the rest of an event of this kind.
    fn body(&mut self, kind: Kind) -> Result<Event, ReadError>
        ensures { Gives result (event_body kind self.old) self.new }
    {
        match kind {
            Kind::Table => Ok(Event::Table(TableDef::read(self)?)),
            Kind::Hyper => {
                let table = self.four()?;
                let hyper = Hyper::read(self)?;
                Ok(Event::Hyper { table, hyper })
            }
            Kind::View => Ok(Event::View(ViewDef::read(self)?)),
            Kind::Mode => {
                let view = self.four()?;
                let only = self.read_coded()?;
                Ok(Event::Mode { view, only })
            }
            Kind::Commit => Ok(Event::Commit(self.many()?)),
            Kind::Cut => {
                let view = self.four()?;
                let span = Span::read(self)?;
                Ok(Event::Cut { view, span })
            }
            Kind::Built => {
                let cut = self.eight()?;
                let snap = self.eight()?;
                Ok(Event::Built { cut, snap })
            }
        }
    }

    /// Reads an event, and nothing after it.
    #[tactic(auto, unfolding(crate::specs::Reading::whole_event))]
    pub fn whole_event(&mut self) -> Result<Event, ReadError>
        ensures { Gives result (whole_event self.old) self.new }
    {
        let event = Event::read(self)?;
        if !self.rest().is_empty() {
            return Err(ReadError::Bad);
        }
        Ok(event)
    }
}

/// The outcome of decoding an event.
#[derive(Drop, Debug, PartialEq, Eq)]
pub enum Decoded {
    /// The bytes are those of this event.
    Event(Event),
    /// The bytes aren't those of an event. The number is the length of their longest prefix that is a prefix of
    /// some event's bytes.
    BadEvent(u64),
    /// Memory ran out.
    NoMemory,
}

/// Appends the bytes of an event. If memory runs out, the buffer is as before.
#[tactic(auto, using(crate::proofs::GrowthLaws::front_kept))]
pub fn put_event_bytes(event: &Event, out: &mut Vec<u8>) -> Result<(), NoMemory>
    requires formed { IsFormed event.now }
    ensures appended { OnOk result (out.new.items ≡ out.old.items ++ spelling.event event.now) }
    ensures kept { OnErr result (out.new.items ≡ out.old.items) }
{
    let before = out.len();
    match event.put(out) {
        Ok(()) => Ok(()),
        Err(refused) => {
            out.truncate(before);
            Err(refused)
        }
    }
}

/// Returns the bytes of an event in a new list. The program appends them to a frame with `put_event_bytes`.
pub fn encode(alloc: Global, event: &Event) -> Result<Seq<u8>, NoMemory>
    requires formed { IsFormed event.now }
    ensures bytes { IfOk result (λ bytes. bytes ≡ spelling.event event.now) }
{
    let mut bytes = Vec::new(alloc);
    event.put(&mut bytes)?;
    Ok(Seq::of(bytes))
}

/// Decodes an event from exactly these bytes. If they aren't those of an event, the result has the length of
/// their longest prefix that is a prefix of some event's bytes.
#[tactic(auto, using(crate::proofs::Decodings::is_formed, crate::proofs::Decodings::is_spelled, crate::proofs::Decodings::is_no_event, crate::proofs::Decodings::is_within, crate::proofs::Decodings::is_begun, crate::proofs::Decodings::is_longest))]
pub fn decode(alloc: Global, bytes: &[u8]) -> Decoded
    ensures formed { IfEvent result IsFormed }
    ensures spelled { IfEvent result (λ event. bytes.now ≡ spelling.event event) }
    ensures no_event { IfBad result (λ n. (event : Event) → IsFormed event → bytes.now ≡ spelling.event event → ⊥) }
    ensures within { IfBad result (λ n. n ≤ length bytes.now) }
    ensures begins { IfBad result (λ n. BeginsEvent (take n bytes.now)) }
    ensures longest { IfBad result (λ n. (m : ℕ) → m ≤ length bytes.now → BeginsEvent (take m bytes.now) → m ≤ n) }
{
    let mut reader = Reader::new(alloc, bytes);
    match reader.whole_event() {
        Ok(event) => Decoded::Event(event),
        Err(ReadError::Memory) => Decoded::NoMemory,
        Err(ReadError::Bad) => { Decoded::BadEvent((bytes.len() - reader.rest().len()) as u64) }
    }
}
