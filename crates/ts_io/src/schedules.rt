//! Which calls of an object in memory fail, and how much the others move.
ghost use Rattle.std.specs.Prelude.{◌≡◌};
ghost use Rattle.ts_schema.specs.Counts.{one_more};
ghost use Rattle.ts_io.specs.Schedule.{is_listed};

/// The calls whose numbers, counted from 1, are in `fails` fail, and each other moves at most `most`
/// bytes.
#[derive(Drop)]
pub struct Schedule {
    pub most: usize,
    pub fails: Vec<u64>,
    pub calls: u64,
    pub faults: u64,
}

/// Counts one more call, and returns whether it fails.
pub fn count_call(schedule: &mut Schedule) -> bool
    ensures failed { result ≡ is_listed schedule.old.fails.items (one_more schedule.old.calls) }
    ensures counted { schedule.new ≡ record schedule.old { calls = one_more schedule.old.calls } }
{
    schedule.calls = schedule.calls.saturating_add(1);
    schedule.fails.contains(&schedule.calls)
}

/// Counts one more fault.
pub fn count_fault(schedule: &mut Schedule)
    ensures { schedule.new ≡ record schedule.old { faults = one_more schedule.old.faults } }
{
    schedule.faults = schedule.faults.saturating_add(1);
}
