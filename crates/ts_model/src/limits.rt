//! Limits of events, of statements and of scripts, where several crates test them.
ghost use Rattle.std.specs.Prelude.{◌≡◌};
ghost use Rattle.ts_bucket.specs.Chunks.{max_interval};
ghost use Rattle.ts_model.specs.Limits.{last_position, most_columns, most_relations, most_sessions};
ghost use Rattle.ts_model.specs.declared.limits.TheConstants as limits;

/// The most tables, and the most aggregates.
pub const MOST_RELATIONS: usize = 64;

/// The most columns of a table, and of an output.
pub const MOST_COLUMNS: usize = 16;

/// The most sessions of a script.
pub const MOST_SESSIONS: usize = 64;

/// The longest interval of a hypertable.
pub const MOST_INTERVAL: i64 = 1_125_899_906_842_624;

/// No event comes after this position.
pub const LAST_POSITION: u64 = 4_611_686_018_427_387_904;

/// States that these limits are those of the definitions. Does nothing.
pub fn limits_law()
    ensures relations { limits.MOST_RELATIONS ≡ most_relations }
    ensures columns { limits.MOST_COLUMNS ≡ most_columns }
    ensures sessions { limits.MOST_SESSIONS ≡ most_sessions }
    ensures interval { limits.MOST_INTERVAL ≡ max_interval }
    ensures position { limits.LAST_POSITION ≡ last_position }
{}
