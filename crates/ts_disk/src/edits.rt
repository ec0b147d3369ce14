//! Writes bytes over others.
ghost use Rattle.std.specs.Prelude.{◌≡◌, ◌+◌, ◌≤◌, length, vec_len, vec_capacity, OnOk, OnErr};
ghost use Rattle.ts_disk.specs.CrashImage.{file_after_write};
ghost use Rattle.ts_disk.specs.PickedImages.{file_with};
ghost use Rattle.ts_disk.specs.declared.disks.TheConstants.{MOST_BYTES};

use ts_schema::NoMemory;

/// Writes a piece at a place, if there is room for it.
pub fn write_over(bytes: &mut Vec<u8>, at: usize, piece: &[u8])
    requires range { at ≤ length bytes.old.items }
    requires room { vec_len bytes.old + length piece.now ≤ vec_capacity bytes.old }
    ensures { bytes.new.items ≡ file_after_write bytes.old.items at piece.now }
{
    let end = at + piece.len();
    if end > bytes.len() {
        match bytes.resize(end, 0) {
            Ok(()) => {}
            Err(_) => unreachable!(),
        }
    }
    bytes[at..end].copy_from_slice(piece);
}

/// Writes a piece at a place, or fails as out of memory.
pub fn write_growing(bytes: &mut Vec<u8>, at: usize, piece: &[u8]) -> Result<(), NoMemory>
    requires range { at ≤ length bytes.old.items }
    ensures done { OnOk result (bytes.new.items ≡ file_after_write bytes.old.items at piece.now) }
    ensures kept { OnErr result (bytes.new.items ≡ bytes.old.items) }
{
    bytes.reserve(piece.len())?;
    write_over(bytes, at, piece);
    Ok(())
}

/// Writes a piece at a place, and zeros before it if the place lies past the end. May fail as out of memory.
pub fn write_with_gap(bytes: &mut Vec<u8>, at: usize, piece: &[u8]) -> Result<(), NoMemory>
    requires most { at ≤ MOST_BYTES }
    ensures done { OnOk result (bytes.new.items ≡ file_with bytes.old.items at piece.now) }
    ensures kept { OnErr result (bytes.new.items ≡ bytes.old.items) }
{
    let gap = at.saturating_sub(bytes.len());
    bytes.reserve(gap + piece.len())?;
    match bytes.resize(bytes.len() + gap, 0) {
        Ok(()) => {}
        Err(_) => unreachable!(),
    }
    write_over(bytes, at, piece);
    Ok(())
}
