//! Decoding an image.
ghost use Rattle.std.specs.Prelude.{◌≡◌, true};
ghost use Rattle.ts_model.specs.Valid.{valid};
ghost use Rattle.ts_model.specs.declared.images.Image.{Image};
ghost use Rattle.base_image.specs.Answering.{IfBad, IfImage};
ghost use Rattle.base_image.specs.Formed.{IsFormed};
ghost use Rattle.base_image.specs.Spelling as spelling;

use crate::images::read_whole;
use crate::validity::is_valid;
use event_codec::{ReadError, Reader};
use std::alloc::Global;
use ts_model::Image;

/// The outcome of decoding an image.
#[derive(Drop, Debug, PartialEq, Eq)]
pub enum ReadImage {
    /// The bytes are those of this valid image.
    Image(Image),
    /// The bytes aren't those of a valid image.
    BadImage,
    /// Memory ran out.
    NoMemory,
}

/// Decodes a valid image from exactly these bytes.
#[tactic(auto, using(crate::proofs::ReadLaws::is_made, crate::proofs::ReadLaws::is_roster, crate::proofs::ReadLaws::is_formed, crate::proofs::ReadLaws::is_spelled, crate::proofs::ReadLaws::not_another, crate::proofs::ReadLaws::not_one))]
pub fn read(alloc: Global, bytes: &[u8]) -> ReadImage
    ensures valid { IfImage result (λ image. valid image ≡ true) }
    ensures formed { IfImage result IsFormed }
    ensures spelled { IfImage result (λ image. bytes.now ≡ spelling.image image) }
    ensures no_image { IfBad result ((image : Image) → IsFormed image → valid image ≡ true
        → bytes.now ≡ spelling.image image → ⊥) }
{
    let mut reader = Reader::new(alloc, bytes);
    match read_whole(&mut reader) {
        Ok((image, roster)) => {
            if is_valid(&roster, &image) {
                ReadImage::Image(image)
            } else {
                ReadImage::BadImage
            }
        }
        Err(ReadError::Memory) => ReadImage::NoMemory,
        Err(ReadError::Bad) => ReadImage::BadImage,
    }
}
