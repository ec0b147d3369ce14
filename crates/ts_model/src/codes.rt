//! The numbers of refusals.
ghost use Rattle.std.specs.Prelude.{◌≡◌};
ghost use Rattle.ts_model.specs.Numbers.{no_number, line_long, not_ascii, no_session, no_token, syntax, no_relation, name_taken, no_column, bad_time, bad_number, value_count, null_value, not_hypertable, bad_width, no_bucket, in_write_block, in_read_block, no_block, no_refresh, no_snapshot, too_many, not_aggregate, too_many_sessions, stopped, image_long, bad_policy, too_many_policies, bad_rollup, bad_unit, history_full};
ghost use Rattle.ts_model.specs.declared.codes.TheConstants as codes;

/// An event isn't allowed next. No call creates one like it, and no reply prints this number.
pub const NO_NUMBER: u8 = 0;

/// `E01`: a line has over 65,536 bytes.
pub const LINE_LONG: u8 = 1;

/// `E02`: a byte of 128 or more is before the comment.
pub const NOT_ASCII: u8 = 2;

/// `E03`: a line has no session.
pub const NO_SESSION: u8 = 3;

/// `E04`: no token begins at the place.
pub const NO_TOKEN: u8 = 4;

/// `E05`: the tokens up to the place begin no statement, or the statement isn't complete.
pub const SYNTAX: u8 = 5;

/// `E06`: no relation has the name.
pub const NO_RELATION: u8 = 6;

/// `E07`: a relation, a column or an output has the name, or the table is a hypertable.
pub const NAME_TAKEN: u8 = 7;

/// `E08`: no column has the name, or it isn't the required column.
pub const NO_COLUMN: u8 = 8;

/// `E09`: a time or a bound lies outside the range of times.
pub const BAD_TIME: u8 = 9;

/// `E10`: a number doesn't fit 64 bits.
pub const BAD_NUMBER: u8 = 10;

/// `E11`: a row doesn't have one value per listed column.
pub const VALUE_COUNT: u8 = 11;

/// `E12`: NULL in the time column or in a NOT NULL column, or the column list of an INSERT omits such a column.
pub const NULL_VALUE: u8 = 12;

/// `E13`: the relation exists and isn't a hypertable.
pub const NOT_HYPERTABLE: u8 = 13;

/// `E14`: a width, an offset or an interval is out of its range, or the buckets of an aggregate don't lie whole in
/// those of a roll-up over it.
pub const BAD_WIDTH: u8 = 14;

/// `E15`: a window with a given end holds no whole bucket.
pub const NO_BUCKET: u8 = 15;

/// `E16`: the statement may not be in a write block.
pub const IN_WRITE_BLOCK: u8 = 16;

/// `E17`: the statement may not be in a read block.
pub const IN_READ_BLOCK: u8 = 17;

/// `E18`: there is no block to end.
pub const NO_BLOCK: u8 = 18;

/// `E19`: no refresh of this number is pending.
pub const NO_REFRESH: u8 = 19;

/// `E20`: the session holds no snapshot for the refresh.
pub const NO_SNAPSHOT: u8 = 20;

/// `E21`: the limit is reached.
pub const TOO_MANY: u8 = 21;

/// `E22`: the relation exists and isn't an aggregate.
pub const NOT_AGGREGATE: u8 = 22;

/// `E23`: the session would be the 65th.
pub const TOO_MANY_SESSIONS: u8 = 23;

/// `E24`: the call would append an event, and the store has stopped.
pub const STOPPED: u8 = 24;

/// `E25`: an image is too long.
pub const IMAGE_LONG: u8 = 25;

/// `E26`: an offset or the interval of a policy is out of its range.
pub const BAD_POLICY: u8 = 26;

/// `E27`: the session would have its 65th policy.
pub const TOO_MANY_POLICIES: u8 = 27;

/// `E28`: a function doesn't fit the column that it rolls up.
pub const BAD_ROLLUP: u8 = 28;

/// `E29`: a bucket of the calendar would have fewer than 1 or more than 1,200 units, or its unit isn't a day, a week, a
/// month or a year.
pub const BAD_UNIT: u8 = 29;

/// `E30`: the call would append an event, and the history is at its end.
pub const HISTORY_FULL: u8 = 30;

/// States that these numbers are those of the definitions. Does nothing.
pub fn numbers_law()
    ensures no_number { codes.NO_NUMBER ≡ no_number }
    ensures line_long { codes.LINE_LONG ≡ line_long }
    ensures not_ascii { codes.NOT_ASCII ≡ not_ascii }
    ensures no_session { codes.NO_SESSION ≡ no_session }
    ensures no_token { codes.NO_TOKEN ≡ no_token }
    ensures syntax { codes.SYNTAX ≡ syntax }
    ensures no_relation { codes.NO_RELATION ≡ no_relation }
    ensures name_taken { codes.NAME_TAKEN ≡ name_taken }
    ensures no_column { codes.NO_COLUMN ≡ no_column }
    ensures bad_time { codes.BAD_TIME ≡ bad_time }
    ensures bad_number { codes.BAD_NUMBER ≡ bad_number }
    ensures value_count { codes.VALUE_COUNT ≡ value_count }
    ensures null_value { codes.NULL_VALUE ≡ null_value }
    ensures not_hypertable { codes.NOT_HYPERTABLE ≡ not_hypertable }
    ensures bad_width { codes.BAD_WIDTH ≡ bad_width }
    ensures no_bucket { codes.NO_BUCKET ≡ no_bucket }
    ensures in_write_block { codes.IN_WRITE_BLOCK ≡ in_write_block }
    ensures in_read_block { codes.IN_READ_BLOCK ≡ in_read_block }
    ensures no_block { codes.NO_BLOCK ≡ no_block }
    ensures no_refresh { codes.NO_REFRESH ≡ no_refresh }
    ensures no_snapshot { codes.NO_SNAPSHOT ≡ no_snapshot }
    ensures too_many { codes.TOO_MANY ≡ too_many }
    ensures not_aggregate { codes.NOT_AGGREGATE ≡ not_aggregate }
    ensures too_many_sessions { codes.TOO_MANY_SESSIONS ≡ too_many_sessions }
    ensures stopped { codes.STOPPED ≡ stopped }
    ensures image_long { codes.IMAGE_LONG ≡ image_long }
    ensures bad_policy { codes.BAD_POLICY ≡ bad_policy }
    ensures too_many_policies { codes.TOO_MANY_POLICIES ≡ too_many_policies }
    ensures bad_rollup { codes.BAD_ROLLUP ≡ bad_rollup }
    ensures bad_unit { codes.BAD_UNIT ≡ bad_unit }
    ensures history_full { codes.HISTORY_FULL ≡ history_full }
{}
