//! The cells of a row that a roll-up takes if it keeps the groups of an aggregate.
ghost use Rattle.std.specs.Prelude.{◌≡◌, ◌++◌, suc, IfOk, map};
ghost use Rattle.hier_agg.specs.Choices.{chosen_places};

use crate::plans::UpperPlan;
use std::alloc::Global;
use ts_schema::{NoMemory, Seq};

/// The places of the cells that a plan takes from a row of the lower answer: its bucket, then its keys, then
/// the columns that it adds up. A column with the greatest 32-bit number has no place, and is reported as out
/// of memory.
pub fn chosen_places(alloc: Global, plan: &UpperPlan) -> Result<Seq<u32>, NoMemory>
    ensures places { IfOk result (λ places. places ≡ chosen_places plan.now) }
{
    let mut places = Vec::new(alloc);
    places.push(0)?;
    put_places(plan.keys.items(), &mut places)?;
    put_places(plan.cols.items(), &mut places)?;
    Ok(Seq::of(places))
}

/// Appends the places of columns, which come after the bucket.
fn put_places(cols: &[u32], places: &mut Vec<u32>) -> Result<(), NoMemory>
    ensures { IfOk result (λ _. places.new.items ≡ places.old.items ++ map suc cols.now) }
{
    for col in cols {
        let Some(place) = col.checked_add(1) else {
            return Err(NoMemory);
        };
        places.push(place)?;
    }
    Ok(())
}
