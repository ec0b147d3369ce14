//! Tests on rows, and aggregates over columns.
ghost use Rattle.std.specs.Prelude.{◌≡◌};
ghost use Rattle.event_codec.specs.Formed.{IsAgg, IsTest, least_number, most_column, most_number};
ghost use Rattle.event_codec.specs.Spelling.{agg, test};
ghost use Rattle.event_codec.specs.Reading.{agg_at, test_at};

use crate::codes::{cmp_byte, fun_byte};
use crate::errors::ReadError;
use crate::fields::Field;
use crate::numbers::{put_four, put_signed};
use crate::reader::Reader;
use ts_model::Agg;
use ts_num::Fun;
use ts_schema::{Cmp, NoMemory, Test};

/// The least number of a test with this comparison.
fn least_number(cmp: Cmp) -> i64
    ensures { result ≡ least_number cmp }
{
    match cmp {
        Cmp::IsNull | Cmp::NotNull => 0,
        Cmp::Eq | Cmp::Ne | Cmp::Lt | Cmp::Le | Cmp::Gt | Cmp::Ge => i64::MIN,
    }
}

/// The greatest number of a test with this comparison.
fn most_number(cmp: Cmp) -> i64
    ensures { result ≡ most_number cmp }
{
    match cmp {
        Cmp::IsNull | Cmp::NotNull => 0,
        Cmp::Eq | Cmp::Ne | Cmp::Lt | Cmp::Le | Cmp::Gt | Cmp::Ge => i64::MAX,
    }
}

/// The greatest column of an aggregate with this function.
fn most_column(fun: Fun) -> u32
    ensures { result ≡ most_column fun }
{
    match fun {
        Fun::CountAll => 0,
        Fun::Count | Fun::Sum | Fun::Min | Fun::Max | Fun::Avg => u32::MAX,
    }
}

impl Field for Test {
    ghost spelling = { test };

    ghost fits = { IsTest };

    ghost reading = { test_at };

    #[tactic(auto, using(std::proofs::lemmas::List::append_assoc, crate::proofs::GrowthLaws::grows_by, crate::proofs::GrowthLaws::grows_not, crate::proofs::GrowthLaws::grows_on))]
    fn put(&self, out: &mut Vec<u8>) -> Result<(), NoMemory> {
        put_four(out, self.col)?;
        out.push(cmp_byte(self.cmp))?;
        put_signed(out, self.num)
    }

    #[tactic(auto, using(crate::proofs::Parts::number_range), unfolding(crate::specs::Reading::test_at))]
    fn read(reader: &mut Reader<'_>) -> Result<Test, ReadError> {
        let col = reader.four()?;
        let cmp: Cmp = reader.read_coded()?;
        let num = reader.between(least_number(cmp), most_number(cmp))?;
        Ok(Test { col, cmp, num })
    }
}

impl Field for Agg {
    ghost spelling = { agg };

    ghost fits = { IsAgg };

    ghost reading = { agg_at };

    #[tactic(auto, using(std::proofs::lemmas::List::append_assoc, crate::proofs::GrowthLaws::grows_by, crate::proofs::GrowthLaws::grows_not, crate::proofs::GrowthLaws::grows_on))]
    fn put(&self, out: &mut Vec<u8>) -> Result<(), NoMemory> {
        out.push(fun_byte(self.fun))?;
        put_four(out, self.col)
    }

    #[tactic(auto, unfolding(crate::specs::Reading::agg_at))]
    fn read(reader: &mut Reader<'_>) -> Result<Agg, ReadError> {
        let fun: Fun = reader.read_coded()?;
        let col = reader.four_upto(most_column(fun))?;
        Ok(Agg { fun, col })
    }
}
