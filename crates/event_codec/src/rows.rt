//! Rows and their values.
ghost use Rattle.std.specs.Prelude.{◌≡◌, ◌++◌, OnOk};
ghost use Rattle.std.specs.List.{AllByRecursion, flat_map};
ghost use Rattle.event_codec.specs.Formed.{Few, IsRow, IsValue};
ghost use Rattle.event_codec.specs.Growing.{Grows};
ghost use Rattle.event_codec.specs.Spelling.{few, row, value};
ghost use Rattle.event_codec.specs.Reading.{row_at, value_at};

use crate::errors::ReadError;
use crate::fields::Field;
use crate::numbers::put_signed;
use crate::reader::Reader;
use ts_schema::{NoMemory, Row, ValueBlock, Values};

impl Field for Option<i64> {
    ghost spelling = { value };

    ghost fits = { IsValue };

    ghost reading = { value_at };

    #[tactic(auto, using(std::proofs::lemmas::List::append_assoc, crate::proofs::GrowthLaws::grows_by, crate::proofs::GrowthLaws::grows_not, crate::proofs::GrowthLaws::grows_on))]
    fn put(&self, out: &mut Vec<u8>) -> Result<(), NoMemory> {
        match self {
            None => {
                out.push(0)?;
                Ok(())
            }
            Some(number) => {
                out.push(1)?;
                put_signed(out, *number)
            }
        }
    }

    #[tactic(auto, unfolding(crate::specs::Reading::value_at))]
    fn read(reader: &mut Reader<'_>) -> Result<Option<i64>, ReadError> {
        let told: bool = reader.read_coded()?;
        if !told {
            return Ok(None);
        }
        Ok(Some(reader.word()?))
    }
}

impl Field for Row {
    ghost spelling = { row };

    ghost fits = { IsRow };

    ghost reading = { row_at };

    #[tactic(auto, using(std::proofs::lemmas::List::append_assoc, crate::proofs::GrowthLaws::grows_by, crate::proofs::GrowthLaws::grows_not, crate::proofs::GrowthLaws::grows_on))]
    fn put(&self, out: &mut Vec<u8>) -> Result<(), NoMemory> {
        put_signed(out, self.at)?;
        put_vals(&self.vals, out)
    }

    #[tactic(auto, unfolding(crate::specs::Reading::row_at))]
    fn read(reader: &mut Reader<'_>) -> Result<Row, ReadError> {
        let mut vals = ValueBlock::new(reader.alloc());
        let at = reader.row_into(&mut vals)?;
        let vals = Values::of(reader.alloc(), vals)?;
        Ok(Row { at, vals })
    }
}

/// Appends the count of a row's values in one byte, and the values.
#[tactic(auto, using(crate::proofs::GrowthLaws::grows_by, crate::proofs::GrowthLaws::grows_not, crate::proofs::GrowthLaws::grows_on))]
fn put_vals(vals: &Values, out: &mut Vec<u8>) -> Result<(), NoMemory>
    requires fit { Few IsValue vals.now }
    ensures put { OnOk result (out.new.items ≡ out.old.items ++ few value vals.now) }
    ensures grows { Grows out.old.items out.new.items }
{
    out.push(vals.len() as u8)?;
    put_each(vals, out)
}

/// Appends the values of a row.
#[tactic(auto, using(crate::proofs::GrowthLaws::grows_by, crate::proofs::GrowthLaws::grows_not, crate::proofs::GrowthLaws::grows_on))]
fn put_each(vals: &Values, out: &mut Vec<u8>) -> Result<(), NoMemory>
    requires fit { AllByRecursion IsValue vals.now }
    ensures put { OnOk result (out.new.items ≡ out.old.items ++ flat_map value vals.now) }
    ensures grows { Grows out.old.items out.new.items }
{
    for i in 0..vals.len() {
        vals.get(i).put(out)?;
    }
    Ok(())
}
