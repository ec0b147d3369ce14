//! Images: encoding and decoding.
ghost use Rattle.std.specs.Prelude.{◌≡◌, ◌++◌, ◌∷◌, ◌==◌, ◌<◌, ◌^◌, true, length, IfOk, OnOk};
ghost use Rattle.ts_model.specs.Valid.{valid};
ghost use Rattle.event_codec.specs.Growing.{Grows};
ghost use Rattle.event_codec.specs.Reading.{Gives, byte_where};
ghost use Rattle.event_codec.specs.Spelling.{eight, many};
ghost use Rattle.base_image.specs.Formed.{IsWritable};
ghost use Rattle.base_image.specs.Reading.{image_at, roster_at, whole_image};
ghost use Rattle.base_image.specs.Spelling as spelling;
ghost use Rattle.base_image.specs.Spelling.{bytes_of_finished, bytes_of_frame, bytes_of_saved_view, bytes_of_waiting};

use crate::parts::{put_many, read_many};
use crate::relations::roster_of;
use crate::shapes::Shape;
use crate::views::read_views;
use event_codec::{ReadError, Reader, put_eight};
use std::alloc::Global;
use ts_model::{Event, Image, Roster};
use ts_schema::{NoMemory, Seq};

/// The byte that images begin with, and events don't.
const IMAGE_KIND: u8 = 8;

/// Appends the refreshes.
#[tactic(auto, using(event_codec::proofs::GrowthLaws::grows_on, std::proofs::lemmas::List::append_assoc))]
fn put_refreshes(image: &Image, out: &mut Vec<u8>) -> Result<(), NoMemory>
    requires { IsWritable image.now }
    ensures put { OnOk result (out.new.items
        ≡ out.old.items ++ (many bytes_of_waiting image.now.waiting ++ many bytes_of_finished image.now.done)) }
    ensures grows { Grows out.old.items out.new.items }
{
    put_many(&image.waiting, out)?;
    put_many(&image.done, out)
}

/// Appends the part after the rows.
#[tactic(auto, using(event_codec::proofs::GrowthLaws::grows_on, std::proofs::lemmas::List::append_assoc))]
pub(crate) fn put_behind(image: &Image, out: &mut Vec<u8>) -> Result<(), NoMemory>
    requires { IsWritable image.now }
    ensures put { OnOk result (out.new.items ≡ out.old.items ++ (many bytes_of_saved_view image.now.views
        ++ (many bytes_of_waiting image.now.waiting ++ many bytes_of_finished image.now.done))) }
    ensures grows { Grows out.old.items out.new.items }
{
    put_many(&image.views, out)?;
    put_refreshes(image, out)
}

/// Appends the part before the rows.
#[tactic(auto, using(event_codec::proofs::GrowthLaws::grows_by, event_codec::proofs::GrowthLaws::grows_on, std::proofs::lemmas::List::append_assoc))]
pub(crate) fn put_front(image: &Image, out: &mut Vec<u8>) -> Result<(), NoMemory>
    requires { IsWritable image.now }
    ensures put { OnOk result (out.new.items
        ≡ out.old.items ++ 8 ∷ (eight image.now.pos ++ many bytes_of_frame image.now.roster)) }
    ensures grows { Grows out.old.items out.new.items }
{
    out.push(IMAGE_KIND)?;
    put_eight(out, image.pos)?;
    put_many(&image.roster, out)
}

/// Appends an image.
#[tactic(auto, using(event_codec::proofs::GrowthLaws::grows_by, event_codec::proofs::GrowthLaws::grows_on, std::proofs::lemmas::List::append_assoc))]
fn put_whole(image: &Image, out: &mut Vec<u8>) -> Result<(), NoMemory>
    requires { IsWritable image.now }
    ensures put { OnOk result (out.new.items ≡ out.old.items ++ spelling.image image.now) }
    ensures grows { Grows out.old.items out.new.items }
{
    put_front(image, out)?;
    put_many(&image.rows, out)?;
    put_behind(image, out)
}

/// Reads the byte that images begin with.
fn read_kind(reader: &mut Reader<'_>) -> Result<u8, ReadError>
    ensures { Gives result (byte_where (λ b. b == 8) reader.old) reader.new }
{
    let [byte, rest @ ..] = reader.rest() else {
        return Err(ReadError::Bad);
    };
    if *byte != IMAGE_KIND {
        return Err(ReadError::Bad);
    }
    reader.pass_to(rest);
    Ok(*byte)
}

/// Reads the events that create a roster, and builds the roster.
#[tactic(auto, unfolding(crate::specs::Reading::roster_at))]
fn read_roster(reader: &mut Reader<'_>) -> Result<(Seq<Event>, Roster), ReadError>
    ensures { Gives result (roster_at reader.old) reader.new }
{
    let events: Seq<Event> = read_many(Shape::none(), reader)?;
    match roster_of(reader.alloc(), events.items())? {
        Some(roster) => Ok((events, roster)),
        None => Err(ReadError::Bad),
    }
}

/// Reads an image, and builds its roster.
#[tactic(auto, unfolding(crate::specs::Reading::image_at))]
fn read_image(reader: &mut Reader<'_>) -> Result<(Image, Roster), ReadError>
    ensures { Gives result (image_at reader.old) reader.new }
{
    let _kind = read_kind(reader)?;
    let pos = reader.eight()?;
    let (roster, made) = read_roster(reader)?;
    let rows = read_many(Shape::none(), reader)?;
    let views = read_views(made.views.items(), reader)?;
    let waiting = read_many(Shape::none(), reader)?;
    let done = read_many(Shape::none(), reader)?;
    let image = Image {
        pos,
        roster,
        rows,
        views,
        waiting,
        done,
    };
    Ok((image, made))
}

/// Reads an image with its roster, and nothing after it. The image need not be valid.
#[tactic(auto, unfolding(crate::specs::Reading::whole_image))]
pub(crate) fn read_whole(reader: &mut Reader<'_>) -> Result<(Image, Roster), ReadError>
    ensures { Gives result (whole_image reader.old) reader.new }
{
    let found = read_image(reader)?;
    if !reader.rest().is_empty() {
        return Err(ReadError::Bad);
    }
    Ok(found)
}

/// Returns the bytes of a valid image.
#[tactic(auto, using(crate::proofs::WritableLaws::writable))]
pub fn put(alloc: Global, image: &Image) -> Result<Seq<u8>, NoMemory>
    requires valid { valid image.now ≡ true }
    requires few { length (spelling.image image.now) < 2 ^ 32 }
    ensures bytes { IfOk result (λ bytes. bytes ≡ spelling.image image.now) }
{
    let mut bytes = Vec::new(alloc);
    put_whole(image, &mut bytes)?;
    Ok(Seq::of(bytes))
}
