//! How long texts may be.
ghost use Rattle.std.specs.Prelude.{◌≡◌};
ghost use Rattle.stmt_syntax.specs.Limits.{longest_input, longest_line};

/// States the limits as numbers. Does nothing.
pub fn lengths_law()
    ensures line { longest_line ≡ 65536 }
    ensures input { longest_input ≡ 67108864 }
{}
