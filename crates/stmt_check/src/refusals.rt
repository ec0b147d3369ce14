//! Checks that return a refusal if a condition fails.
ghost use Rattle.std.specs.Prelude.{unwrap_or};
ghost use Rattle.stmt_check.specs.Refusals.{marked_refusal, refusal_if_none, refusal_if};
ghost use Rattle.stmt_check.specs.Results.{Checks, Passes};

use crate::actions::ResolveStop;
use ts_model::Refusal;

/// Refuses with this number if `wrong`.
pub(crate) fn refuse_if(pos: u64, code: u8, wrong: bool) -> Result<(), ResolveStop>
    ensures { Passes (refusal_if pos code wrong) result }
{
    refuse_marked(pos, code, 0, wrong)
}

/// Refuses with this number and mark if `wrong`.
pub(crate) fn refuse_marked(pos: u64, code: u8, mark: u64, wrong: bool) -> Result<(), ResolveStop>
    ensures { Passes (marked_refusal pos code mark wrong) result }
{
    if wrong {
        return Err(ResolveStop::Refused(Refusal { code, pos, mark }));
    }
    Ok(())
}

/// The value if it exists, or the refusal with this number.
pub(crate) fn present(pos: u64, code: u8, found: Option<u32>) -> Result<u32, ResolveStop>
    ensures { Checks (refusal_if_none pos code found) (unwrap_or found 0) result }
{
    match found {
        Some(number) => Ok(number),
        None => Err(ResolveStop::Refused(Refusal { code, pos, mark: 0 })),
    }
}
