//! The effect of the operations of a commit on all hypertables.
ghost use Rattle.std.specs.Prelude.{◌≡◌, ◌+◌, ◌≤◌, ◌^◌, length, IfOk};
ghost use Rattle.std.specs.List.{list_any};
ghost use Rattle.ts_model.specs.Effect.{all_appended, all_taken};
ghost use Rattle.row_versions.specs.Tables.{is_on};
ghost use Rattle.engine_state.specs.Lists.{Each};
ghost use Rattle.engine_state.specs.Steps.{AllFrom, AsksIf, GoesIf, TableAsks, TableGoes, appended_to, rows_before, sum_from, taken_from};

use crate::after_event::AfterEvent;
use crate::tables::TableState;
use std::alloc::Global;
use ts_model::Op;
use ts_schema::{NoMemory, Seq};

/// Whether an operation is on the table with this number.
fn is_on(op: &Op, number: u32) -> bool
    ensures { result ≡ is_on number op.now }
{
    match op {
        Op::Insert { table, .. } => *table == number,
        Op::Delete { table, .. } => *table == number,
    }
}

/// Whether one of the operations is on the table with this number.
fn are_on(ops: &[Op], number: u32) -> bool
    ensures { result ≡ list_any (is_on number) ops.now }
{
    for op in ops {
        if is_on(op, number) {
            return true;
        }
    }
    false
}

/// A hypertable after operations. It is shared if none of them is on it.
fn table_after(
    alloc: Global,
    table: &TableState,
    ops: &Seq<Op>,
    number: u32,
    pos: u64,
) -> Result<AfterEvent<TableState>, NoMemory>
    requires { TableAsks ops.now pos number table.now }
    ensures goes { IfOk result (λ m. TableGoes ops.now pos number table.now m.made) }
    ensures inserted { IfOk result (λ m. m.inserted ≡ length (all_appended number ops.now)) }
    ensures removed { IfOk result (λ m. m.removed ≡ length (all_taken number ops.now (rows_before pos table.now))) }
{
    if are_on(ops.items(), number) {
        return table.after_ops(alloc, ops, number, pos);
    }
    Ok(AfterEvent {
        made: table.copy()?,
        inserted: 0,
        removed: 0,
    })
}

/// The state of a table after operations, if it is a hypertable.
fn after_ops_if(
    alloc: Global,
    table: &Option<TableState>,
    ops: &Seq<Op>,
    number: u32,
    pos: u64,
) -> Result<AfterEvent<Option<TableState>>, NoMemory>
    requires { AsksIf ops.now pos number table.now }
    ensures goes { IfOk result (λ m. GoesIf ops.now pos number table.now m.made) }
    ensures inserted { IfOk result (λ m. m.inserted ≡ appended_to ops.now number table.now) }
    ensures removed { IfOk result (λ m. m.removed ≡ taken_from ops.now pos number table.now) }
{
    match table {
        None => Ok(AfterEvent {
            made: None,
            inserted: 0,
            removed: 0,
        }),
        Some(table) => {
            let moved = table_after(alloc, table, ops, number, pos)?;
            Ok(AfterEvent {
                made: Some(moved.made),
                inserted: moved.inserted,
                removed: moved.removed,
            })
        }
    }
}

/// The sum of two counts of rows. A sum over 64 bits is reported as out of memory, since that many rows
/// wouldn't fit.
fn sum(a: u64, b: u64) -> Result<u64, NoMemory>
    ensures { IfOk result (λ n. n ≡ a + b) }
{
    match a.checked_add(b) {
        Some(n) => Ok(n),
        None => Err(NoMemory),
    }
}

/// The states of all tables after operations at a position above those of all earlier changes.
pub(crate) fn all_after(
    alloc: Global,
    tables: &[Option<TableState>],
    ops: &Seq<Op>,
    pos: u64,
) -> Result<AfterEvent<Seq<Option<TableState>>>, NoMemory>
    requires few { length tables.now ≤ 2 ^ 32 }
    requires asks { AllFrom (AsksIf ops.now pos) 0 tables.now }
    ensures goes { IfOk result (λ m. Each (GoesIf ops.now pos) tables.now m.made) }
    ensures inserted { IfOk result (λ m. m.inserted ≡ sum_from (appended_to ops.now) 0 tables.now) }
    ensures removed { IfOk result (λ m. m.removed ≡ sum_from (taken_from ops.now pos) 0 tables.now) }
{
    let mut after = Seq::new(alloc);
    let mut inserted = 0;
    let mut removed = 0;
    for (i, table) in tables.iter().enumerate() {
        let moved = after_ops_if(alloc, table, ops, i as u32, pos)?;
        inserted = sum(inserted, moved.inserted)?;
        removed = sum(removed, moved.removed)?;
        after.push(moved.made)?;
    }
    Ok(AfterEvent {
        made: after,
        inserted,
        removed,
    })
}
