//! Operations of commits.
ghost use Rattle.std.specs.Prelude.{◌≡◌};
ghost use Rattle.event_codec.specs.Formed.{IsOp};
ghost use Rattle.event_codec.specs.Spelling.{op};
ghost use Rattle.event_codec.specs.Reading.{op_at};

use crate::errors::ReadError;
use crate::fields::{Field, put_many, put_many_items};
use crate::kinds::OpKind;
use crate::numbers::put_four;
use crate::reader::Reader;
use ts_model::Op;
use ts_schema::NoMemory;

impl Field for Op {
    ghost spelling = { op };

    ghost fits = { IsOp };

    ghost reading = { op_at };

    #[tactic(auto, using(std::proofs::lemmas::List::append_assoc, crate::proofs::GrowthLaws::grows_by, crate::proofs::GrowthLaws::grows_not, crate::proofs::GrowthLaws::grows_on))]
    fn put(&self, out: &mut Vec<u8>) -> Result<(), NoMemory> {
        match self {
            Op::Insert { table, rows } => {
                out.push(1)?;
                put_four(out, *table)?;
                put_many_items(rows.items(), out)
            }
            Op::Delete { table, tests } => {
                out.push(2)?;
                put_four(out, *table)?;
                put_many(tests, out)
            }
        }
    }

    #[tactic(auto, unfolding(crate::specs::Reading::op_at))]
    fn read(reader: &mut Reader<'_>) -> Result<Op, ReadError> {
        let kind: OpKind = reader.read_coded()?;
        match kind {
            OpKind::Insert => {
                let table = reader.four()?;
                let rows = reader.rows()?;
                Ok(Op::Insert { table, rows })
            }
            OpKind::Delete => {
                let table = reader.four()?;
                let tests = reader.many()?;
                Ok(Op::Delete { table, tests })
            }
        }
    }
}
