//! The image of a history whose rows stay in the state that represents it.
ghost use Rattle.std.specs.Prelude.{◌≡◌, ◌≤◌, ◌<◌, ◌-◌, ◌^◌, ◌++◌, ◌∷◌, ℕ, List, length, min, true, IfOk, OnOk};
ghost use Rattle.ts_schema.specs.declared.rows.Row.{Row as RowValue};
ghost use Rattle.ts_model.specs.History.{History};
ghost use Rattle.ts_model.specs.Valid.{valid};
ghost use Rattle.image_laws.specs.Images.{IsImage};
ghost use Rattle.event_codec.specs.Growing.{Grows};
ghost use Rattle.event_codec.specs.Spelling.{four};
ghost use Rattle.std.specs.List.{flat_map};
ghost use Rattle.base_image.specs.Formed.{IsWritable};
ghost use Rattle.base_image.specs.Outlines.{commits, whole, IsOutline};
ghost use Rattle.base_image.specs.Spelling as spelling;

use crate::capture::saved_views;
use crate::imaged::Imaged;
use crate::images::{put_behind, put_front};
use crate::roster_events::roster_events;
use crate::row_writers::put_commits;
use crate::sizes::size;
use crate::tallies::{Tally, bytes_of_commits, table_tallies};
use std::alloc::Global;
use ts_model::Image;
use ts_schema::{NoMemory, Seq};

/// The image of a history without its rows, and a tally of the rows of each table.
#[derive(Drop)]
pub struct Outline {
    /// The image without rows.
    pub rest: Image,
    /// The tallies of the tables.
    pub tallies: Seq<Tally>,
}

/// Takes the outline of the history that a state represents. Holds the rows of one span of `Imaged::spans` at
/// a time.
pub fn outline_of<I: Imaged>(alloc: Global, of: &I) -> Result<Outline, NoMemory>
    ensures outline { IfOk result (IsOutline (I.held of.now)) }
    ensures image { (h : History) → I.stands of.now h
        → IfOk result (λ outline. IsImage h (whole (I.held of.now) outline)) }
{
    let tallies = table_tallies(alloc, of)?;
    let rest = Image {
        pos: of.position(),
        roster: roster_events(alloc, of.roster())?,
        rows: Seq::new(alloc),
        views: saved_views(alloc, of)?,
        waiting: of.waiting()?,
        done: of.done()?,
    };
    Ok(Outline { rest, tallies })
}

impl Outline {
    /// Returns the number of bytes of the image, or 2^64 - 1 if there are more. Takes no memory.
    pub fn size(&self) -> u64
        ensures size { (held : ℕ → List RowValue) → IsOutline held self.now
            → result ≡ min (length (spelling.image (whole held self.now))) (2 ^ 64 - 1) }
    {
        size(&self.rest).saturating_add(bytes_of_commits(self.tallies.items()))
    }

    /// Appends the bytes of the image, which is valid and has fewer than 2^32 of them. Reads the rows from the
    /// state from which the outline was taken, one span at a time. If memory runs out, `out` may have some of
    /// the bytes.
    pub fn put<I: Imaged>(&self, of: &I, out: &mut Vec<u8>) -> Result<(), NoMemory>
        requires outline { IsOutline (I.held of.now) self.now }
        requires valid { valid (whole (I.held of.now) self.now) ≡ true }
        requires few { length (spelling.image (whole (I.held of.now) self.now)) < 2 ^ 32 }
        ensures put { OnOk result (out.new.items ≡ out.old.items ++ spelling.image (whole (I.held of.now) self.now)) }
    {
        put_front(&self.rest, out)?;
        put_commits(of, self.tallies.items(), out)?;
        put_behind(&self.rest, out)
    }
}
