//! Operations of a commit.
ghost use Rattle.std.specs.Prelude.{◌≡◌, ◌&&◌, nat_lt, length};
ghost use Rattle.std.specs.List.{list_all};
ghost use Rattle.ts_model.specs.Sound.{op_fits};

use crate::conditions::tests_are_fit_in;
use crate::relations::table_in;
use crate::rows::rows_are_fit_in;
use ts_model::{Op, Roster};
use ts_schema::Seq;

/// Whether an operation is on a hypertable and fits it.
pub fn op_is_fit(roster: &Roster, op: &Op) -> bool
    ensures { result ≡ op_fits roster.now op.now }
{
    match op {
        Op::Insert { table, rows } => rows_are_fit_in(rows.items(), table_in(roster, *table)),
        Op::Delete { table, tests } => tests_are_fit_in(tests, table_in(roster, *table)),
    }
}

fn each_op_is_fit(roster: &Roster, ops: &[Op]) -> bool
    ensures { result ≡ list_all (op_fits roster.now) ops.now }
{
    ops.iter().all(|op| op_is_fit(roster, op))
}

/// Whether there is an operation, and all are on hypertables and fit them.
pub(crate) fn ops_are_fit(roster: &Roster, ops: &Seq<Op>) -> bool
    ensures { result ≡ (nat_lt 0 (length ops.now) && list_all (op_fits roster.now) ops.now) }
{
    let some = 0 < ops.len();
    let each = each_op_is_fit(roster, ops.items());
    some && each
}
