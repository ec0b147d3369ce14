//! Tables, their columns, and hypertables.
ghost use Rattle.std.specs.Prelude.{◌≡◌};
ghost use Rattle.event_codec.specs.Formed.{IsColumn, IsHyper, IsTable};
ghost use Rattle.event_codec.specs.Spelling.{column, hyper, table};
ghost use Rattle.event_codec.specs.Reading.{column_at, hyper_at, table_at};

use crate::codes::flag_byte;
use crate::errors::ReadError;
use crate::fields::{Field, put_few};
use crate::numbers::{put_four, put_signed};
use crate::reader::Reader;
use ts_model::{Hyper, TableDef};
use ts_schema::{Column, NoMemory};

impl Field for Column {
    ghost spelling = { column };

    ghost fits = { IsColumn };

    ghost reading = { column_at };

    #[tactic(auto, using(std::proofs::lemmas::List::append_assoc, crate::proofs::GrowthLaws::grows_by, crate::proofs::GrowthLaws::grows_not, crate::proofs::GrowthLaws::grows_on))]
    fn put(&self, out: &mut Vec<u8>) -> Result<(), NoMemory> {
        self.name.put(out)?;
        out.push(flag_byte(self.must))?;
        Ok(())
    }

    #[tactic(auto, unfolding(crate::specs::Reading::column_at))]
    fn read(reader: &mut Reader<'_>) -> Result<Column, ReadError> {
        let name = reader.name()?;
        let must = reader.read_coded()?;
        Ok(Column { name, must })
    }
}

impl Field for TableDef {
    ghost spelling = { table };

    ghost fits = { IsTable };

    ghost reading = { table_at };

    #[tactic(auto, using(std::proofs::lemmas::List::append_assoc, crate::proofs::GrowthLaws::grows_by, crate::proofs::GrowthLaws::grows_not, crate::proofs::GrowthLaws::grows_on))]
    fn put(&self, out: &mut Vec<u8>) -> Result<(), NoMemory> {
        self.name.put(out)?;
        put_few(&self.cols, out)
    }

    #[tactic(auto, unfolding(crate::specs::Reading::table_at))]
    fn read(reader: &mut Reader<'_>) -> Result<TableDef, ReadError> {
        let name = reader.name()?;
        let cols = reader.few()?;
        Ok(TableDef { name, cols })
    }
}

impl Field for Hyper {
    ghost spelling = { hyper };

    ghost fits = { IsHyper };

    ghost reading = { hyper_at };

    #[tactic(auto, using(std::proofs::lemmas::List::append_assoc, crate::proofs::GrowthLaws::grows_by, crate::proofs::GrowthLaws::grows_not, crate::proofs::GrowthLaws::grows_on))]
    fn put(&self, out: &mut Vec<u8>) -> Result<(), NoMemory> {
        put_four(out, self.at)?;
        put_signed(out, self.interval)
    }

    #[tactic(auto, unfolding(crate::specs::Reading::hyper_at))]
    fn read(reader: &mut Reader<'_>) -> Result<Hyper, ReadError> {
        let at = reader.four()?;
        let interval = reader.word()?;
        Ok(Hyper { at, interval })
    }
}
