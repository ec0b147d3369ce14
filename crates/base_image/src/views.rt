//! The saved parts of an aggregate.
ghost use Rattle.std.specs.Prelude.{◌≡◌, ◌++◌, OnOk, length};
ghost use Rattle.event_codec.specs.Growing.{Grows};
ghost use Rattle.event_codec.specs.Spelling.{span};
ghost use Rattle.event_codec.specs.Reading.{Gives, span_at};
ghost use Rattle.base_image.specs.Formed.{Any, HasCounts};
ghost use Rattle.base_image.specs.Reading.{last_at, saved_at, saved_each, views_at};
ghost use Rattle.base_image.specs.Spelling.{last, bytes_of_saved_view};

use crate::groups::{put_value, read_value};
use crate::parts::{Part, put_many, read_many};
use crate::shapes::Shape;
use event_codec::{Field, ReadError, Reader, put_eight, put_signed};
use ts_bucket::Span;
use ts_model::{SavedLast, SavedView, ViewDef};
use ts_schema::{NoMemory, Seq};

/// Appends a span.
#[tactic(auto, using(std::proofs::lemmas::List::append_assoc, event_codec::proofs::GrowthLaws::grows_by, event_codec::proofs::GrowthLaws::grows_not, event_codec::proofs::GrowthLaws::grows_on))]
pub fn put_span(out: &mut Vec<u8>, held: Span) -> Result<(), NoMemory>
    ensures put { OnOk result (out.new.items ≡ out.old.items ++ span held) }
    ensures grows { Grows out.old.items out.new.items }
{
    put_signed(out, held.lo)?;
    put_signed(out, held.hi)
}

/// Reads a span that isn't empty.
pub fn read_span(reader: &mut Reader<'_>) -> Result<Span, ReadError>
    ensures { Gives result (span_at reader.old) reader.new }
{
    <Span as Field>::read(reader)
}

impl Part for Span {
    ghost spelling = { span };

    ghost fits = { Any };

    ghost reading = { λ shape. span_at };

    fn put(&self, out: &mut Vec<u8>) -> Result<(), NoMemory> {
        put_span(out, *self)
    }

    fn read(_shape: Shape, reader: &mut Reader<'_>) -> Result<Span, ReadError> {
        read_span(reader)
    }
}

impl Part for SavedLast {
    ghost spelling = { last };

    ghost fits = { Any };

    ghost reading = { λ shape. last_at };

    #[tactic(auto, using(std::proofs::lemmas::List::append_assoc, event_codec::proofs::GrowthLaws::grows_by, event_codec::proofs::GrowthLaws::grows_not, event_codec::proofs::GrowthLaws::grows_on))]
    fn put(&self, out: &mut Vec<u8>) -> Result<(), NoMemory> {
        put_span(out, self.span)?;
        put_eight(out, self.pos)
    }

    #[tactic(auto, unfolding(crate::specs::Reading::last_at))]
    fn read(_shape: Shape, reader: &mut Reader<'_>) -> Result<SavedLast, ReadError> {
        let span = read_span(reader)?;
        let pos = reader.eight()?;
        Ok(SavedLast { span, pos })
    }
}

impl Part for SavedView {
    ghost spelling = { bytes_of_saved_view };

    ghost fits = { HasCounts };

    ghost reading = { saved_at };

    #[tactic(auto, using(std::proofs::lemmas::List::append_assoc, event_codec::proofs::GrowthLaws::grows_by, event_codec::proofs::GrowthLaws::grows_not, event_codec::proofs::GrowthLaws::grows_on))]
    fn put(&self, out: &mut Vec<u8>) -> Result<(), NoMemory> {
        put_many(&self.lasts, out)?;
        put_many(&self.dirty, out)?;
        put_many(&self.groups, out)?;
        put_value(out, self.mark)
    }

    #[tactic(auto, unfolding(crate::specs::Reading::saved_at))]
    fn read(shape: Shape, reader: &mut Reader<'_>) -> Result<SavedView, ReadError> {
        let lasts = read_many(shape, reader)?;
        let dirty = read_many(shape, reader)?;
        let groups = read_many(shape, reader)?;
        let mark = read_value(reader)?;
        Ok(SavedView {
            lasts,
            dirty,
            groups,
            mark,
        })
    }
}

/// Reads the saved parts of each of these aggregates.
fn read_each(defs: &[ViewDef], reader: &mut Reader<'_>) -> Result<Seq<SavedView>, ReadError>
    ensures { Gives result (saved_each defs.now reader.old) reader.new }
{
    let mut views = Seq::new(reader.alloc());
    let mut left = defs;
    while let [def, rest @ ..] = left {
        views.push(SavedView::read(Shape::of(def), reader)?)?;
        left = rest;
    }
    Ok(views)
}

/// Reads the number of aggregates, which must be that of `defs`, and the saved parts of each.
#[tactic(auto, unfolding(crate::specs::Reading::views_at))]
pub fn read_views(defs: &[ViewDef], reader: &mut Reader<'_>) -> Result<Seq<SavedView>, ReadError>
    ensures { Gives result (views_at defs.now reader.old) reader.new }
{
    let count = reader.four()?;
    if count as usize != defs.len() {
        return Err(ReadError::Bad);
    }
    read_each(defs, reader)
}
