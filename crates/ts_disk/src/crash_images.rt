//! One of the images that a crash may leave.
ghost use Rattle.std.specs.Prelude.{◌≡◌, ◌+◌, ◌<◌, ◌≤◌, ◌^◌, length, drop, IfOk, OnOk};
ghost use Rattle.ts_disk.specs.CrashImage.{at_rest, file_after_write};
ghost use Rattle.ts_disk.specs.MemDisk.{state_after, pieces_of};
ghost use Rattle.ts_disk.specs.PickedImages.{bit, is_kept, none_kept, half, kept_part, file_with, picked_from, image_picked};

use crate::disk_acts::Act;
use crate::edits::write_growing;
use std::alloc::Global;
use ts_schema::NoMemory;

/// The image that a number picks after these acts.
pub fn pick_image(alloc: Global, first: &[u8], acts: &[Act], pick: u64) -> Result<Vec<u8>, NoMemory>
    ensures { IfOk result (λ image. image.items ≡ image_picked pick (state_after (at_rest first.now) acts.now)) }
{
    let replayed = replay(alloc, first, acts)?;
    let mut image = replayed.synced;
    keep_picked(&mut image, &acts[replayed.since..], pick)?;
    Ok(image)
}

/// The bytes of a disk at its last sync.
#[derive(Drop)]
struct SyncedBytes {
    /// The bytes at the last sync.
    synced: Vec<u8>,
    /// The number of acts up to that sync.
    since: usize,
}

/// Repeats these acts.
fn replay(alloc: Global, first: &[u8], acts: &[Act]) -> Result<SyncedBytes, NoMemory>
    ensures within { IfOk result (λ r. r.since ≤ length acts.now) }
    ensures synced { IfOk result (λ r. r.synced.items ≡ (state_after (at_rest first.now) acts.now).synced) }
    ensures writes { IfOk result (λ r.
        pieces_of (drop r.since acts.now) ≡ (state_after (at_rest first.now) acts.now).writes) }
{
    let mut synced = Vec::from_slice(alloc, first)?;
    let mut now = Vec::from_slice(alloc, first)?;
    let mut since = 0;
    for i in 0..acts.len() {
        match &acts[i] {
            Act::Write(piece) => {
                let at = now.len().min(piece.at as usize);
                write_growing(&mut now, at, piece.bytes.items())?;
            }
            Act::Sync => {
                synced = Vec::from_slice(alloc, &now)?;
                since = i + 1;
            }
        }
    }
    Ok(SyncedBytes { synced, since })
}

/// Applies the writes that are kept.
fn keep_picked(image: &mut Vec<u8>, acts: &[Act], pick: u64) -> Result<(), NoMemory>
    ensures { OnOk result (image.new.items ≡ picked_from pick 0 image.old.items (pieces_of acts.now)) }
{
    let mut left = acts;
    let mut i = 0;
    while let [act, rest @ ..] = left {
        if let Act::Write(piece) = act {
            if is_kept_write(pick, i) {
                let bytes = part_to_keep(pick, i, piece.bytes.items(), rest);
                patch(image, piece.at as usize, bytes)?;
            }
            i += 1;
        }
        left = rest;
    }
    Ok(())
}

/// Bit `i` of a number.
fn has_bit(pick: u64, i: u64) -> bool
    requires { i < 64 }
    ensures { result ≡ bit pick i }
{
    (pick >> i) % 2 == 1
}

/// Whether write number `i` is kept.
fn is_kept_write(pick: u64, i: u64) -> bool
    ensures { result ≡ is_kept pick i }
{
    has_bit(pick, i % 63)
}

/// Whether none of these writes, numbered from `i` on, is kept.
fn is_none_kept(pick: u64, i: u64, acts: &[Act]) -> bool
    requires small { i + length acts.now < 2 ^ 64 }
    ensures { result ≡ none_kept pick i (pieces_of acts.now) }
{
    let mut left = acts;
    let mut number = i;
    while let [act, rest @ ..] = left {
        if let Act::Write(_) = act {
            if is_kept_write(pick, number) {
                return false;
            }
            number += 1;
        }
        left = rest;
    }
    true
}

/// The part kept of write number `i`, which these writes follow.
fn part_to_keep<'a>(pick: u64, i: u64, bytes: &'a [u8], acts: &[Act]) -> &'a [u8]
    requires small { i + 1 + length acts.now < 2 ^ 64 }
    ensures { result.now ≡ kept_part pick i bytes.now (pieces_of acts.now) }
{
    if has_bit(pick, 63) && is_none_kept(pick, i + 1, acts) {
        &bytes[..bytes.len().div_ceil(2)]
    } else {
        bytes
    }
}

/// Writes bytes at a place, and zeros into a gap before them.
fn patch(file: &mut Vec<u8>, at: usize, bytes: &[u8]) -> Result<(), NoMemory>
    ensures { OnOk result (file.new.items ≡ file_with file.old.items at bytes.now) }
{
    if at > file.len() {
        file.resize(at, 0)?;
    }
    write_growing(file, at, bytes)
}
