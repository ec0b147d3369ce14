//! Parts of images, and lists of them.
ghost use Rattle.std.specs.Prelude.{◌≡◌, ◌++◌, List, ℕ, OnOk};
ghost use Rattle.std.specs.List.{AllByRecursion, flat_map};
ghost use Rattle.event_codec.specs.Formed.{Many};
ghost use Rattle.event_codec.specs.Growing.{Grows};
ghost use Rattle.event_codec.specs.Spelling.{many};
ghost use Rattle.event_codec.specs.Reading.{Gives, Reads, items, many_of};
ghost use Rattle.base_image.specs.declared.shapes.Shape.{Shape};

use crate::shapes::Shape;
use event_codec::{ReadError, Reader, put_four};
use ts_schema::{NoMemory, Seq};

/// A part of the bytes of an image.
pub trait Part {
    /// Its bytes.
    ghost spelling: { Self → List ℕ };

    /// Whether its counts fit their fields.
    ghost fits: { Self → Type 0 };

    /// The reading of its bytes from the front, for groups of this shape.
    ghost reading: { Shape → Reads Self };

    /// Appends its bytes.
    fn put(&self, out: &mut Vec<u8>) -> Result<(), NoMemory>
        requires fits { fits self.now }
        ensures put { OnOk result (out.new.items ≡ out.old.items ++ spelling self.now) }
        ensures grows { Grows out.old.items out.new.items };

    /// Reads a value.
    fn read(shape: Shape, reader: &mut Reader<'_>) -> Result<Self, ReadError>
        ensures read { Gives result (reading shape reader.old) reader.new };
}

/// Appends items in order.
#[tactic(auto, using(event_codec::proofs::GrowthLaws::grows_by, event_codec::proofs::GrowthLaws::grows_not, event_codec::proofs::GrowthLaws::grows_on))]
pub fn put_items<T: Part>(items: &[T], out: &mut Vec<u8>) -> Result<(), NoMemory>
    requires fit { AllByRecursion T.fits items.now }
    ensures put { OnOk result (out.new.items ≡ out.old.items ++ flat_map T.spelling items.now) }
    ensures grows { Grows out.old.items out.new.items }
{
    for item in items {
        item.put(out)?;
    }
    Ok(())
}

/// Appends a count of four bytes and the items.
#[tactic(auto, using(event_codec::proofs::GrowthLaws::grows_by, event_codec::proofs::GrowthLaws::grows_not, event_codec::proofs::GrowthLaws::grows_on))]
pub fn put_many<T: Part>(items: &Seq<T>, out: &mut Vec<u8>) -> Result<(), NoMemory>
    requires fit { Many T.fits items.now }
    ensures put { OnOk result (out.new.items ≡ out.old.items ++ many T.spelling items.now) }
    ensures grows { Grows out.old.items out.new.items }
{
    put_four(out, items.len() as u32)?;
    put_items(items.items(), out)
}

/// Reads `count` items.
pub fn read_items<T: Part + Drop>(
    shape: Shape,
    count: usize,
    reader: &mut Reader<'_>,
) -> Result<Seq<T>, ReadError>
    ensures { Gives result (items count (T.reading shape) reader.old) reader.new }
{
    let mut items = Seq::new(reader.alloc());
    for _ in 0..count {
        items.push(T::read(shape, reader)?)?;
    }
    Ok(items)
}

/// Reads a count of four bytes and that many items.
pub fn read_many<T: Part + Drop>(shape: Shape, reader: &mut Reader<'_>) -> Result<Seq<T>, ReadError>
    ensures { Gives result (many_of (T.reading shape) reader.old) reader.new }
{
    let count = reader.four()?;
    read_items(shape, count as usize, reader)
}
