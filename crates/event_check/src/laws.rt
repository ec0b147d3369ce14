//! Bounds of every name, width and number. Each function does nothing.
ghost use Rattle.std.specs.Prelude.{◌≡◌, true};
ghost use Rattle.ts_bucket.specs.Bucket.{IsWidth, is_width};
ghost use Rattle.ts_model.specs.Limits.{is_word};
ghost use Rattle.ts_schema.specs.Names.{is_name};

use ts_bucket::Width;
use ts_schema::Name;

/// A name is one in lower case.
pub(crate) fn name_law(name: &Name)
    ensures { is_name name.now ≡ true }
{
    let _bytes = name.bytes();
}

/// A width keeps its bounds.
pub(crate) fn width_law(width: Width)
    ensures width { is_width width ≡ true }
    ensures bounds { IsWidth width }
{
    let _step = width.step;
}

/// A number has 64 bits.
pub(crate) fn word_law(_number: i64)
    ensures { is_word _number ≡ true }
{}
