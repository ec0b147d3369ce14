//! Aggregates, their folds and the widths of their buckets; and spans of buckets.
ghost use Rattle.std.specs.Prelude.{◌≡◌};
ghost use Rattle.event_codec.specs.Formed.{IsFold, IsSpan, IsStep, IsView, IsFour};
ghost use Rattle.event_codec.specs.Spelling.{fold, four, span, view, width};
ghost use Rattle.event_codec.specs.Reading.{any_four, fold_at, span_at, view_at, width_at};

use crate::codes::flag_byte;
use crate::errors::ReadError;
use crate::fields::{Field, put_few, put_many};
use crate::numbers::{put_four, put_signed};
use crate::reader::Reader;
use ts_bucket::{MOST_STEP, Span, Width};
use ts_model::{Fold, ViewDef};
use ts_schema::NoMemory;

impl Field for u32 {
    ghost spelling = { four };

    ghost fits = { IsFour };

    ghost reading = { any_four };

    fn put(&self, out: &mut Vec<u8>) -> Result<(), NoMemory> {
        put_four(out, *self)
    }

    fn read(reader: &mut Reader<'_>) -> Result<u32, ReadError> {
        reader.four()
    }
}

impl Field for Width {
    ghost spelling = { width };

    ghost fits = { IsStep };

    ghost reading = { width_at };

    #[tactic(auto, using(std::proofs::lemmas::List::append_assoc, crate::proofs::GrowthLaws::grows_by, crate::proofs::GrowthLaws::grows_not, crate::proofs::GrowthLaws::grows_on))]
    fn put(&self, out: &mut Vec<u8>) -> Result<(), NoMemory> {
        put_signed(out, self.step)?;
        put_signed(out, self.shift)
    }

    #[tactic(auto, unfolding(crate::specs::Reading::width_at))]
    fn read(reader: &mut Reader<'_>) -> Result<Width, ReadError> {
        let step = reader.between(1, MOST_STEP)?;
        let shift = reader.between(0, step - 1)?;
        Ok(Width { step, shift })
    }
}

impl Field for Span {
    ghost spelling = { span };

    ghost fits = { IsSpan };

    ghost reading = { span_at };

    #[tactic(auto, using(std::proofs::lemmas::List::append_assoc, crate::proofs::GrowthLaws::grows_by, crate::proofs::GrowthLaws::grows_not, crate::proofs::GrowthLaws::grows_on))]
    fn put(&self, out: &mut Vec<u8>) -> Result<(), NoMemory> {
        put_signed(out, self.lo)?;
        put_signed(out, self.hi)
    }

    #[tactic(auto, unfolding(crate::specs::Reading::span_at))]
    fn read(reader: &mut Reader<'_>) -> Result<Span, ReadError> {
        let lo = reader.between(i64::MIN, i64::MAX - 1)?;
        let hi = reader.between(lo + 1, i64::MAX)?;
        Ok(Span { lo, hi })
    }
}

impl Field for Fold {
    ghost spelling = { fold };

    ghost fits = { IsFold };

    ghost reading = { fold_at };

    #[tactic(auto, using(std::proofs::lemmas::List::append_assoc, crate::proofs::GrowthLaws::grows_by, crate::proofs::GrowthLaws::grows_not, crate::proofs::GrowthLaws::grows_on))]
    fn put(&self, out: &mut Vec<u8>) -> Result<(), NoMemory> {
        self.width.put(out)?;
        put_few(&self.keys, out)?;
        put_few(&self.aggs, out)?;
        put_many(&self.tests, out)
    }

    #[tactic(auto, unfolding(crate::specs::Reading::fold_at))]
    fn read(reader: &mut Reader<'_>) -> Result<Fold, ReadError> {
        let width = Width::read(reader)?;
        let keys = reader.few()?;
        let aggs = reader.few()?;
        let tests = reader.many()?;
        Ok(Fold {
            width,
            keys,
            aggs,
            tests,
        })
    }
}

impl Field for ViewDef {
    ghost spelling = { view };

    ghost fits = { IsView };

    ghost reading = { view_at };

    #[tactic(auto, using(std::proofs::lemmas::List::append_assoc, crate::proofs::GrowthLaws::grows_by, crate::proofs::GrowthLaws::grows_not, crate::proofs::GrowthLaws::grows_on))]
    fn put(&self, out: &mut Vec<u8>) -> Result<(), NoMemory> {
        self.name.put(out)?;
        put_four(out, self.table)?;
        self.fold.put(out)?;
        put_few(&self.names, out)?;
        out.push(flag_byte(self.only))?;
        Ok(())
    }

    #[tactic(auto, unfolding(crate::specs::Reading::view_at))]
    fn read(reader: &mut Reader<'_>) -> Result<ViewDef, ReadError> {
        let name = reader.name()?;
        let table = reader.four()?;
        let fold = Fold::read(reader)?;
        let names = reader.few()?;
        let only = reader.read_coded()?;
        Ok(ViewDef {
            name,
            table,
            fold,
            names,
            only,
        })
    }
}
