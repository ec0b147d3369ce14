//! The limits of an input and of its lines.
ghost use Rattle.std.specs.Prelude.{◌≡◌};
ghost use Rattle.ts_io.specs.declared.limits.TheConstants.{INPUT_LIMIT, LINE_LIMIT};

/// The greatest number of bytes of an input.
pub const INPUT_LIMIT: usize = 67_108_864;

/// The greatest number of bytes of a line before its line end.
pub const LINE_LIMIT: usize = 65_536;

/// States the limits as numbers. Does nothing.
pub fn limits_law()
    ensures input { INPUT_LIMIT ≡ 67108864 }
    ensures line { LINE_LIMIT ≡ 65536 }
{}
