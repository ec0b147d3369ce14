//! Fields of events, and lists of them.
ghost use Rattle.std.specs.Prelude.{◌≡◌, ◌++◌, ◌<◌, ◌^◌, List, ℕ, OnOk, length};
ghost use Rattle.std.specs.List.{AllByRecursion, flat_map};
ghost use Rattle.event_codec.specs.Growing.{Grows};
ghost use Rattle.event_codec.specs.Formed.{Few, Many};
ghost use Rattle.event_codec.specs.Spelling.{few, many};
ghost use Rattle.event_codec.specs.Reading.{Gives, Reads, few_of, items, many_of};

use crate::errors::ReadError;
use crate::numbers::put_four;
use crate::reader::Reader;
use ts_schema::{NoMemory, Seq};

/// A part of the bytes of an event.
pub trait Field {
    /// Its bytes.
    ghost spelling: { Self → List ℕ };

    /// Whether it is in range.
    ghost fits: { Self → Type 0 };

    /// The reading of its bytes from the front.
    ghost reading: { Reads Self };

    /// Appends its bytes. If memory runs out, the buffer may have grown, and its old contents stay.
    fn put(&self, out: &mut Vec<u8>) -> Result<(), NoMemory>
        requires fits { fits self.now }
        ensures put { OnOk result (out.new.items ≡ out.old.items ++ spelling self.now) }
        ensures grows { Grows out.old.items out.new.items };

    /// Reads a value.
    fn read(reader: &mut Reader<'_>) -> Result<Self, ReadError>
        ensures read { Gives result (reading reader.old) reader.new };
}

/// Appends items in order.
#[tactic(auto, using(crate::proofs::GrowthLaws::grows_by, crate::proofs::GrowthLaws::grows_not, crate::proofs::GrowthLaws::grows_on))]
pub fn put_items<T: Field>(items: &[T], out: &mut Vec<u8>) -> Result<(), NoMemory>
    requires fit { AllByRecursion T.fits items.now }
    ensures put { OnOk result (out.new.items ≡ out.old.items ++ flat_map T.spelling items.now) }
    ensures grows { Grows out.old.items out.new.items }
{
    for item in items {
        item.put(out)?;
    }
    Ok(())
}

/// Appends a count of one byte and the items of a list.
pub fn put_few<T: Field>(items: &Seq<T>, out: &mut Vec<u8>) -> Result<(), NoMemory>
    requires fit { Few T.fits items.now }
    ensures put { OnOk result (out.new.items ≡ out.old.items ++ few T.spelling items.now) }
    ensures grows { Grows out.old.items out.new.items }
{
    put_few_items(items.items(), out)
}

/// Appends a count of one byte and the items.
#[tactic(auto, using(crate::proofs::GrowthLaws::grows_by, crate::proofs::GrowthLaws::grows_not, crate::proofs::GrowthLaws::grows_on))]
pub fn put_few_items<T: Field>(items: &[T], out: &mut Vec<u8>) -> Result<(), NoMemory>
    requires fit { Few T.fits items.now }
    ensures put { OnOk result (out.new.items ≡ out.old.items ++ few T.spelling items.now) }
    ensures grows { Grows out.old.items out.new.items }
{
    out.push(items.len() as u8)?;
    put_items(items, out)
}

/// Appends a count of four bytes and the items of a list.
pub fn put_many<T: Field>(items: &Seq<T>, out: &mut Vec<u8>) -> Result<(), NoMemory>
    requires fit { Many T.fits items.now }
    ensures put { OnOk result (out.new.items ≡ out.old.items ++ many T.spelling items.now) }
    ensures grows { Grows out.old.items out.new.items }
{
    put_many_items(items.items(), out)
}

/// Appends a count of four bytes and the items.
#[tactic(auto, using(crate::proofs::GrowthLaws::grows_by, crate::proofs::GrowthLaws::grows_not, crate::proofs::GrowthLaws::grows_on))]
pub fn put_many_items<T: Field>(items: &[T], out: &mut Vec<u8>) -> Result<(), NoMemory>
    requires fit { Many T.fits items.now }
    ensures put { OnOk result (out.new.items ≡ out.old.items ++ many T.spelling items.now) }
    ensures grows { Grows out.old.items out.new.items }
{
    put_four(out, items.len() as u32)?;
    put_items(items, out)
}

impl Reader<'_> {
    /// Reads `count` items.
    fn items<T: Field + Drop>(&mut self, count: u32) -> Result<Seq<T>, ReadError>
        ensures { Gives result (items count T.reading self.old) self.new }
    {
        let mut items = Seq::new(self.alloc());
        for _ in 0..count {
            items.push(T::read(self)?)?;
        }
        Ok(items)
    }

    /// Reads a count of one byte and that many items.
    pub fn few<T: Field + Drop>(&mut self) -> Result<Seq<T>, ReadError>
        ensures { Gives result (few_of T.reading self.old) self.new }
    {
        let count = self.byte()?;
        self.items(count as u32)
    }

    /// Reads a count of four bytes and that many items.
    pub fn many<T: Field + Drop>(&mut self) -> Result<Seq<T>, ReadError>
        ensures { Gives result (many_of T.reading self.old) self.new }
    {
        let count = self.four()?;
        self.items(count)
    }
}
