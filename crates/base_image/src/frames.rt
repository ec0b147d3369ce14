//! Events, each after the count of its bytes.
ghost use Rattle.std.specs.Prelude.{◌≡◌};
ghost use Rattle.event_codec.specs.Reading.{Gives};
ghost use Rattle.base_image.specs.Formed.{IsFramed};
ghost use Rattle.base_image.specs.Reading.{frame_body, framed_at};
ghost use Rattle.base_image.specs.Spelling.{bytes_of_frame};

use crate::parts::Part;
use crate::shapes::Shape;
use event_check::bytes_of;
use event_codec::{ReadError, Reader, put_event_bytes, put_four};
use ts_model::Event;
use ts_schema::NoMemory;

/// Reads an event of `count` bytes.
fn read_body(count: u32, reader: &mut Reader<'_>) -> Result<Event, ReadError>
    ensures { Gives result (frame_body count reader.old) reader.new }
{
    let left = reader.rest();
    if left.len() < count as usize {
        return Err(ReadError::Bad);
    }
    let mut own = Reader::new(reader.alloc(), &left[..count as usize]);
    let event = own.whole_event()?;
    reader.pass_to(&left[count as usize..]);
    Ok(event)
}

impl Part for Event {
    ghost spelling = { bytes_of_frame };

    ghost fits = { IsFramed };

    ghost reading = { λ shape. framed_at };

    #[tactic(auto, using(std::proofs::lemmas::List::append_assoc, event_codec::proofs::GrowthLaws::grows_by, event_codec::proofs::GrowthLaws::grows_not, event_codec::proofs::GrowthLaws::grows_on, crate::proofs::Writable::count_is, crate::proofs::Writable::count_small))]
    fn put(&self, out: &mut Vec<u8>) -> Result<(), NoMemory> {
        let count = bytes_of(self);
        put_four(out, count as u32)?;
        put_event_bytes(self, out)
    }

    #[tactic(auto, unfolding(crate::specs::Reading::framed_at))]
    fn read(_shape: Shape, reader: &mut Reader<'_>) -> Result<Event, ReadError> {
        let count = reader.four()?;
        read_body(count, reader)
    }
}
