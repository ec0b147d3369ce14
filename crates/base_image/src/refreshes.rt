//! Pending refreshes, and finished ones.
ghost use Rattle.std.specs.Prelude.{◌≡◌};
ghost use Rattle.base_image.specs.Formed.{Any};
ghost use Rattle.base_image.specs.Reading.{finished_at, waiting_at};
ghost use Rattle.base_image.specs.Spelling.{bytes_of_finished, bytes_of_waiting};

use crate::parts::Part;
use crate::shapes::Shape;
use crate::views::{put_span, read_span};
use event_codec::{ReadError, Reader, put_eight, put_four};
use ts_model::{Finished, Waiting};
use ts_schema::NoMemory;

impl Part for Waiting {
    ghost spelling = { bytes_of_waiting };

    ghost fits = { Any };

    ghost reading = { λ shape. waiting_at };

    #[tactic(auto, using(std::proofs::lemmas::List::append_assoc, event_codec::proofs::GrowthLaws::grows_by, event_codec::proofs::GrowthLaws::grows_not, event_codec::proofs::GrowthLaws::grows_on))]
    fn put(&self, out: &mut Vec<u8>) -> Result<(), NoMemory> {
        put_eight(out, self.cut)?;
        put_four(out, self.view)?;
        put_span(out, self.span)
    }

    #[tactic(auto, unfolding(crate::specs::Reading::waiting_at))]
    fn read(_shape: Shape, reader: &mut Reader<'_>) -> Result<Waiting, ReadError> {
        let cut = reader.eight()?;
        let view = reader.four()?;
        let span = read_span(reader)?;
        Ok(Waiting { cut, view, span })
    }
}

impl Part for Finished {
    ghost spelling = { bytes_of_finished };

    ghost fits = { Any };

    ghost reading = { λ shape. finished_at };

    #[tactic(auto, using(std::proofs::lemmas::List::append_assoc, event_codec::proofs::GrowthLaws::grows_by, event_codec::proofs::GrowthLaws::grows_not, event_codec::proofs::GrowthLaws::grows_on))]
    fn put(&self, out: &mut Vec<u8>) -> Result<(), NoMemory> {
        put_eight(out, self.cut)?;
        put_eight(out, self.built)
    }

    #[tactic(auto, unfolding(crate::specs::Reading::finished_at))]
    fn read(_shape: Shape, reader: &mut Reader<'_>) -> Result<Finished, ReadError> {
        let cut = reader.eight()?;
        let built = reader.eight()?;
        Ok(Finished { cut, built })
    }
}
