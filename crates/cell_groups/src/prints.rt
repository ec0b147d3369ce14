//! Hashes: rows of the same bucket and keys have the same one, and others seldom do.

use crate::cells::RowCells;

/// The hash of a row, in the bucket that starts at `start`.
pub(crate) fn print_of(keys: &[u32], start: i128, cells: &RowCells<'_>) -> u64 {
    let mut print = mix(0, Some(start));
    for key in keys {
        print = mix(print, cells.value_at(*key));
    }
    print
}

/// A hash with one more number.
fn mix(print: u64, number: Option<i128>) -> u64 {
    let bits = match number {
        None => 0x5851_f42d_4c95_7f2d,
        Some(number) => (number.cast_unsigned() & 0xffff_ffff_ffff_ffff) as u64,
    };
    (print.rotate_left(25) ^ bits).wrapping_mul(0x9e37_79b9_7f4a_7c15)
}
