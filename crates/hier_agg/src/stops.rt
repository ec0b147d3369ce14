//! Why the reading of a roll-up ends early.
ghost use Rattle.std.specs.Prelude.{unwrap_or};
ghost use Rattle.ts_model.specs.Numbers.{no_column};
ghost use Rattle.stmt_check.specs.Refusals.{marked_refusal, refusal_if_none};
ghost use Rattle.hier_agg.specs.Reads.{Checks};

use ts_model::Refusal;
use ts_model::codes::NO_COLUMN;
use ts_schema::NoMemory;

/// Why the reading ended early.
#[derive(Clone, Copy, Debug, PartialEq, Eq)]
pub(crate) enum PlanStop {
    /// This is refused.
    Refused(Refusal),
    /// Out of memory.
    NoMemory,
}

impl From<NoMemory> for PlanStop {
    ghost use Rattle.std.specs.Prelude.{◌≡◌};
    ghost use Rattle.hier_agg.specs.declared.stops.PlanStop.TheVariants.{NoMemory};

    ghost from_gives = { λ _ e. e ≡ NoMemory };

    fn from(_refused: NoMemory) -> PlanStop {
        PlanStop::NoMemory
    }
}

/// Refuses with this number and mark if `wrong`.
pub(crate) fn refuse_marked(pos: u64, code: u8, mark: u64, wrong: bool) -> Result<(), PlanStop>
    ensures { Checks (marked_refusal pos code mark wrong) tt result }
{
    if wrong {
        return Err(PlanStop::Refused(Refusal { code, pos, mark }));
    }
    Ok(())
}

/// The value if it exists, or the refusal of a column.
pub(crate) fn present(pos: u64, found: Option<u32>) -> Result<u32, PlanStop>
    ensures { Checks (refusal_if_none pos no_column found) (unwrap_or found 0) result }
{
    match found {
        Some(number) => Ok(number),
        None => Err(PlanStop::Refused(Refusal {
            code: NO_COLUMN,
            pos,
            mark: 0,
        })),
    }
}
