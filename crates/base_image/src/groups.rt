//! Groups, their keys, and the saved parts of their columns.
ghost use Rattle.std.specs.Prelude.{◌≡◌, ◌++◌, OnOk};
ghost use Rattle.event_codec.specs.Growing.{Grows};
ghost use Rattle.event_codec.specs.Spelling.{value};
ghost use Rattle.event_codec.specs.Reading.{Gives, value_at};
ghost use Rattle.base_image.specs.Formed.{Any};
ghost use Rattle.base_image.specs.Reading.{group_at, sums_at, to_wide, wide_at};
ghost use Rattle.base_image.specs.Spelling.{group, sums, wide};

use crate::parts::{Part, put_items, read_items};
use crate::shapes::Shape;
use event_codec::{Field, ReadError, Reader, put_eight, put_signed};
use ts_model::{SavedGroup, Sums};
use ts_schema::NoMemory;

/// Appends a signed number in sixteen bytes.
#[tactic(auto, using(event_codec::proofs::GrowthLaws::grows_by, event_codec::proofs::GrowthLaws::grows_not, event_codec::proofs::GrowthLaws::grows_on, crate::proofs::Writable::wide_is))]
fn put_wide(out: &mut Vec<u8>, number: i128) -> Result<(), NoMemory>
    ensures put { OnOk result (out.new.items ≡ out.old.items ++ wide number) }
    ensures grows { Grows out.old.items out.new.items }
{
    out.extend_from_slice(&number.to_le_bytes())?;
    Ok(())
}

/// Appends NULL, or a number.
#[tactic(auto, using(std::proofs::lemmas::List::append_assoc, event_codec::proofs::GrowthLaws::grows_by, event_codec::proofs::GrowthLaws::grows_not, event_codec::proofs::GrowthLaws::grows_on))]
pub fn put_value(out: &mut Vec<u8>, told: Option<i64>) -> Result<(), NoMemory>
    ensures put { OnOk result (out.new.items ≡ out.old.items ++ value told) }
    ensures grows { Grows out.old.items out.new.items }
{
    match told {
        None => {
            out.push(0)?;
            Ok(())
        }
        Some(number) => {
            out.push(1)?;
            put_signed(out, number)
        }
    }
}

/// Appends the least and the greatest value.
#[tactic(auto, using(event_codec::proofs::GrowthLaws::grows_on, std::proofs::lemmas::List::append_assoc))]
fn put_ends(out: &mut Vec<u8>, sums: &Sums) -> Result<(), NoMemory>
    ensures put { OnOk result (out.new.items ≡ out.old.items ++ (value sums.now.least ++ value sums.now.most)) }
    ensures grows { Grows out.old.items out.new.items }
{
    put_value(out, sums.least)?;
    put_value(out, sums.most)
}

/// The signed number of sixteen bytes with the lower eight bytes `low` and the upper eight bytes `high`.
fn join_halves(low: u64, high: i64) -> i128
    ensures { result ≡ to_wide (low, high) }
{
    i128::from(high) * 18_446_744_073_709_551_616 + i128::from(low)
}

/// Reads a signed number of sixteen bytes.
#[tactic(auto, unfolding(crate::specs::Reading::wide_at))]
fn read_wide(reader: &mut Reader<'_>) -> Result<i128, ReadError>
    ensures { Gives result (wide_at reader.old) reader.new }
{
    let low = reader.eight()?;
    let high = reader.word()?;
    Ok(join_halves(low, high))
}

/// Reads NULL, or a number.
pub fn read_value(reader: &mut Reader<'_>) -> Result<Option<i64>, ReadError>
    ensures { Gives result (value_at reader.old) reader.new }
{
    <Option<i64> as Field>::read(reader)
}

impl Part for Option<i64> {
    ghost spelling = { value };

    ghost fits = { Any };

    ghost reading = { λ shape. value_at };

    fn put(&self, out: &mut Vec<u8>) -> Result<(), NoMemory> {
        put_value(out, *self)
    }

    fn read(_shape: Shape, reader: &mut Reader<'_>) -> Result<Option<i64>, ReadError> {
        read_value(reader)
    }
}

impl Part for Sums {
    ghost spelling = { sums };

    ghost fits = { Any };

    ghost reading = { λ shape. sums_at };

    #[tactic(auto, using(std::proofs::lemmas::List::append_assoc, event_codec::proofs::GrowthLaws::grows_by, event_codec::proofs::GrowthLaws::grows_not, event_codec::proofs::GrowthLaws::grows_on))]
    fn put(&self, out: &mut Vec<u8>) -> Result<(), NoMemory> {
        put_eight(out, self.count)?;
        put_eight(out, self.values)?;
        put_wide(out, self.sum)?;
        put_ends(out, self)
    }

    #[tactic(auto, unfolding(crate::specs::Reading::sums_at))]
    fn read(_shape: Shape, reader: &mut Reader<'_>) -> Result<Sums, ReadError> {
        let count = reader.eight()?;
        let values = reader.eight()?;
        let sum = read_wide(reader)?;
        let least = read_value(reader)?;
        let most = read_value(reader)?;
        Ok(Sums {
            count,
            values,
            sum,
            least,
            most,
        })
    }
}

impl Part for SavedGroup {
    ghost spelling = { group };

    ghost fits = { Any };

    ghost reading = { group_at };

    #[tactic(auto, using(std::proofs::lemmas::List::append_assoc, crate::proofs::Writable::any_all, event_codec::proofs::GrowthLaws::grows_by, event_codec::proofs::GrowthLaws::grows_not, event_codec::proofs::GrowthLaws::grows_on))]
    fn put(&self, out: &mut Vec<u8>) -> Result<(), NoMemory> {
        put_signed(out, self.start)?;
        put_items(self.keys.items(), out)?;
        put_items(self.parts.items(), out)
    }

    #[tactic(auto, unfolding(crate::specs::Reading::group_at))]
    fn read(shape: Shape, reader: &mut Reader<'_>) -> Result<SavedGroup, ReadError> {
        let start = reader.word()?;
        let keys = read_items(shape, shape.keys, reader)?;
        let parts = read_items(shape, shape.parts, reader)?;
        Ok(SavedGroup { start, keys, parts })
    }
}
