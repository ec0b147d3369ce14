//! Refusals of the text, of the block, and of refreshes.
ghost use Rattle.std.specs.Prelude.{◌≡◌, cond, nat_lt};
ghost use Rattle.ts_model.specs.Calls.{refusal as refusal_at};
ghost use Rattle.ts_model.specs.Numbers.{stopped, history_full};
ghost use Rattle.ts_model.specs.Limits.{last_position};
ghost use Rattle.ts_sessions.specs.Step.{bare as bare_refusal, text_refusal_of as placed_refusal};

use ts_model::limits::LAST_POSITION;
use ts_model::{Refusal, codes};

/// Returns a refusal without a position.
pub fn bare(code: u8) -> Refusal
    ensures { result ≡ bare_refusal code }
{
    Refusal {
        code,
        pos: 0,
        mark: 0,
    }
}

/// Returns a refusal of the text, with a place in the line.
pub fn text_refusal(code: u8, place: u32) -> Refusal
    ensures { result ≡ placed_refusal code place }
{
    Refusal {
        code,
        pos: 0,
        mark: u64::from(place),
    }
}

/// Returns a refusal with a position.
pub(crate) fn at(code: u8, pos: u64, mark: u64) -> Refusal
    ensures { result ≡ record { code = code; pos = pos; mark = mark } }
{
    Refusal { code, pos, mark }
}

/// Returns the refusal code for a pending refresh whose job is gone.
pub(crate) fn lost_code(position: u64) -> u8
    ensures { result ≡ cond (nat_lt position last_position) stopped history_full }
{
    if position < LAST_POSITION {
        codes::STOPPED
    } else {
        codes::HISTORY_FULL
    }
}
