//! The forms of statements, in order.
ghost use Rattle.std.specs.Prelude.{◌≡◌, Ok};
ghost use Rattle.stmt_reader.specs.Cursor.{ahead};
ghost use Rattle.stmt_reader.specs.Reading as spec;
ghost use Rattle.stmt_reader.specs.Reading.{Gives};

use crate::faults::ReadError;
use crate::folds::CALENDAR_NAME;
use crate::phrases::Separator;
use crate::reader::Reader;
use stmt_syntax::Stmt;
use stmt_tokens::{Keyword, Mark};
use ts_schema::{Name, Seq};

/// `'n' , bound , bound`
#[derive(Drop)]
struct Window {
    view: Name,
    lo: Option<i64>,
    hi: Option<i64>,
}

impl Reader<'_> {
    /// A whole statement, with an optional `;` at its end.
    #[tactic(auto, unfolding(crate::specs::Reading::statement, crate::specs::Reading::bind))]
    pub fn statement(&mut self) -> Result<Stmt, ReadError>
        ensures { Gives result (spec.statement (ahead self.old)) (ahead self.new) }
    {
        let stmt = self.form()?;
        self.semicolon();
        self.end()?;
        Ok(stmt)
    }

    /// `[;]`
    #[tactic(auto, unfolding(crate::specs::Reading::semicolon, crate::specs::Reading::takes))]
    fn semicolon(&mut self)
        ensures { spec.semicolon (ahead self.old) ≡ Ok (tt, ahead self.new) }
    {
        self.takes_mark(Mark::Semicolon);
    }

    #[tactic(auto, unfolding(crate::specs::Reading::form, crate::specs::Reading::bind, crate::specs::Reading::takes))]
    fn form(&mut self) -> Result<Stmt, ReadError>
        ensures { Gives result (spec.form (ahead self.old)) (ahead self.new) }
    {
        if self.takes_keyword(Keyword::Create) {
            return self.create();
        }
        if self.takes_keyword(Keyword::Select) {
            return self.select();
        }
        if self.takes_keyword(Keyword::Alter) {
            return self.alter();
        }
        if self.takes_keyword(Keyword::Insert) {
            return self.insert();
        }
        if self.takes_keyword(Keyword::Delete) {
            return self.delete();
        }
        if self.takes_keyword(Keyword::Call) {
            return self.call();
        }
        if self.takes_keyword(Keyword::Refresh) {
            return self.refresh();
        }
        self.block()
    }

    /// A statement that begins, commits or rolls back a block.
    #[tactic(auto, unfolding(crate::specs::Reading::block, crate::specs::Reading::bind, crate::specs::Reading::takes))]
    fn block(&mut self) -> Result<Stmt, ReadError>
        ensures { Gives result (spec.block (ahead self.old)) (ahead self.new) }
    {
        if self.takes_keyword(Keyword::Begin) {
            return self.begin();
        }
        if self.takes_keyword(Keyword::Commit) {
            return Ok(Stmt::Commit);
        }
        self.keyword(Keyword::Rollback)?;
        Ok(Stmt::Rollback)
    }

    /// What follows `CREATE`.
    #[tactic(auto, unfolding(crate::specs::Reading::create_rest, crate::specs::Reading::bind, crate::specs::Reading::takes))]
    fn create(&mut self) -> Result<Stmt, ReadError>
        ensures { Gives result (spec.create_rest (ahead self.old)) (ahead self.new) }
    {
        if self.takes_keyword(Keyword::Materialized) {
            return self.view();
        }
        self.keyword(Keyword::Table)?;
        self.table()
    }

    /// What follows `CREATE TABLE`.
    #[tactic(auto, unfolding(crate::specs::Reading::table_rest, crate::specs::Reading::bind))]
    fn table(&mut self) -> Result<Stmt, ReadError>
        ensures { Gives result (spec.table_rest (ahead self.old)) (ahead self.new) }
    {
        let name = self.name()?;
        self.mark(Mark::Open)?;
        let cols = self.read_list(Separator::Comma)?;
        self.mark(Mark::Close)?;
        Ok(Stmt::Table { name, cols })
    }

    /// What follows `CREATE MATERIALIZED`.
    #[tactic(auto, unfolding(crate::specs::Reading::view_rest, crate::specs::Reading::bind))]
    fn view(&mut self) -> Result<Stmt, ReadError>
        ensures { Gives result (spec.view_rest (ahead self.old)) (ahead self.new) }
    {
        self.keyword(Keyword::View)?;
        let name = self.name()?;
        self.keyword(Keyword::With)?;
        let only = self.options()?;
        self.keyword(Keyword::As)?;
        self.keyword(Keyword::Select)?;
        let fold = self.fold()?;
        let filled = self.read_with_data()?;
        Ok(Stmt::View {
            name,
            only,
            filled,
            fold,
        })
    }

    /// `( timescaledb . continuous [= true] [, read_mode_setting] )`
    #[tactic(auto, unfolding(crate::specs::Reading::options, crate::specs::Reading::bind))]
    fn options(&mut self) -> Result<bool, ReadError>
        ensures { Gives result (spec.options (ahead self.old)) (ahead self.new) }
    {
        self.mark(Mark::Open)?;
        self.keyword(Keyword::Timescaledb)?;
        self.mark(Mark::Point)?;
        self.keyword(Keyword::Continuous)?;
        self.read_equals_true()?;
        let only = self.mode()?;
        self.mark(Mark::Close)?;
        Ok(only)
    }

    /// `[= true]`
    #[tactic(auto, unfolding(crate::specs::Reading::equals_true, crate::specs::Reading::takes))]
    fn read_equals_true(&mut self) -> Result<(), ReadError>
        ensures { Gives result (spec.equals_true (ahead self.old)) (ahead self.new) }
    {
        if self.takes_mark(Mark::Equal) {
            self.keyword(Keyword::True)
        } else {
            Ok(())
        }
    }

    /// `[, read_mode_setting]`; without it an aggregate shows materialized buckets only.
    #[tactic(auto, unfolding(crate::specs::Reading::mode, crate::specs::Reading::takes))]
    fn mode(&mut self) -> Result<bool, ReadError>
        ensures { Gives result (spec.mode (ahead self.old)) (ahead self.new) }
    {
        if self.takes_mark(Mark::Comma) {
            self.read_mode_setting()
        } else {
            Ok(true)
        }
    }

    /// `timescaledb . materialized_only = flag`
    #[tactic(auto, unfolding(crate::specs::Reading::mode_setting, crate::specs::Reading::bind))]
    fn read_mode_setting(&mut self) -> Result<bool, ReadError>
        ensures { Gives result (spec.mode_setting (ahead self.old)) (ahead self.new) }
    {
        self.keyword(Keyword::Timescaledb)?;
        self.mark(Mark::Point)?;
        self.keyword(Keyword::MaterializedOnly)?;
        self.mark(Mark::Equal)?;
        self.flag()
    }

    /// `[WITH DATA | WITH NO DATA]`
    #[tactic(auto, unfolding(crate::specs::Reading::with_data, crate::specs::Reading::bind, crate::specs::Reading::takes))]
    fn read_with_data(&mut self) -> Result<bool, ReadError>
        ensures { Gives result (spec.with_data (ahead self.old)) (ahead self.new) }
    {
        if !self.takes_keyword(Keyword::With) {
            return Ok(true);
        }
        let empty = self.takes_keyword(Keyword::No);
        self.keyword(Keyword::Data)?;
        Ok(!empty)
    }

    /// What follows `ALTER`.
    #[tactic(auto, unfolding(crate::specs::Reading::alter_rest, crate::specs::Reading::bind))]
    fn alter(&mut self) -> Result<Stmt, ReadError>
        ensures { Gives result (spec.alter_rest (ahead self.old)) (ahead self.new) }
    {
        self.keyword(Keyword::Materialized)?;
        self.keyword(Keyword::View)?;
        let view = self.name()?;
        self.keyword(Keyword::Set)?;
        self.mark(Mark::Open)?;
        let only = self.read_mode_setting()?;
        self.mark(Mark::Close)?;
        Ok(Stmt::Mode { view, only })
    }

    /// What follows `INSERT`.
    #[tactic(auto, unfolding(crate::specs::Reading::insert_rest, crate::specs::Reading::bind))]
    fn insert(&mut self) -> Result<Stmt, ReadError>
        ensures { Gives result (spec.insert_rest (ahead self.old)) (ahead self.new) }
    {
        self.keyword(Keyword::Into)?;
        let table = self.name()?;
        let cols = self.column_list()?;
        self.keyword(Keyword::Values)?;
        let rows = self.rows_of_values()?;
        Ok(Stmt::Insert { table, cols, rows })
    }

    /// `[( c { , c } )]`
    #[tactic(auto, unfolding(crate::specs::Reading::column_list, crate::specs::Reading::bind, crate::specs::Reading::takes))]
    fn column_list(&mut self) -> Result<Option<Seq<Name>>, ReadError>
        ensures { Gives result (spec.column_list (ahead self.old)) (ahead self.new) }
    {
        if !self.takes_mark(Mark::Open) {
            return Ok(None);
        }
        let cols = self.read_list(Separator::Comma)?;
        self.mark(Mark::Close)?;
        Ok(Some(cols))
    }

    /// What follows `DELETE`.
    #[tactic(auto, unfolding(crate::specs::Reading::delete_rest, crate::specs::Reading::bind))]
    fn delete(&mut self) -> Result<Stmt, ReadError>
        ensures { Gives result (spec.delete_rest (ahead self.old)) (ahead self.new) }
    {
        let (table, tests) = self.source()?;
        Ok(Stmt::Delete { table, tests })
    }

    /// What follows `SELECT`.
    #[tactic(auto, unfolding(crate::specs::Reading::select_rest, crate::specs::Reading::bind, crate::specs::Reading::takes))]
    fn select(&mut self) -> Result<Stmt, ReadError>
        ensures { Gives result (spec.select_rest (ahead self.old)) (ahead self.new) }
    {
        if self.takes_keyword(Keyword::CreateHypertable) {
            return self.hypertable();
        }
        if self.takes_keyword(Keyword::DropChunks) {
            return self.drop_chunks();
        }
        if self.takes_mark(Mark::Star) {
            return self.rows();
        }
        if self.takes_word(CALENDAR_NAME) {
            return self.calendar();
        }
        Ok(Stmt::Buckets(self.fold()?))
    }

    /// What follows `SELECT calendar_bucket`.
    #[tactic(auto, unfolding(crate::specs::Reading::calendar_rest, crate::specs::Reading::bind))]
    fn calendar(&mut self) -> Result<Stmt, ReadError>
        ensures { Gives result (spec.calendar_rest (ahead self.old)) (ahead self.new) }
    {
        let calendar = self.calendar_bucket()?;
        let fold = self.fold_behind(CALENDAR_NAME, calendar.head)?;
        Ok(Stmt::Calendar {
            number: calendar.number,
            unit: calendar.unit,
            fold,
        })
    }

    /// What follows `SELECT create_hypertable`.
    #[tactic(auto, unfolding(crate::specs::Reading::hyper_rest, crate::specs::Reading::bind))]
    fn hypertable(&mut self) -> Result<Stmt, ReadError>
        ensures { Gives result (spec.hyper_rest (ahead self.old)) (ahead self.new) }
    {
        self.mark(Mark::Open)?;
        let table = self.read_quoted()?;
        self.mark(Mark::Comma)?;
        let col = self.read_quoted()?;
        self.mark(Mark::Comma)?;
        self.keyword(Keyword::ChunkTimeInterval)?;
        self.mark(Mark::Arrow)?;
        let interval = self.number()?;
        self.mark(Mark::Close)?;
        Ok(Stmt::Hyper {
            table,
            col,
            interval,
        })
    }

    /// What follows `SELECT drop_chunks`.
    #[tactic(auto, unfolding(crate::specs::Reading::drop_rest, crate::specs::Reading::bind))]
    fn drop_chunks(&mut self) -> Result<Stmt, ReadError>
        ensures { Gives result (spec.drop_rest (ahead self.old)) (ahead self.new) }
    {
        self.mark(Mark::Open)?;
        let table = self.read_quoted()?;
        self.mark(Mark::Comma)?;
        self.older_than()?;
        let below = self.number()?;
        self.mark(Mark::Close)?;
        Ok(Stmt::Drop { table, below })
    }

    /// `[older_than =>]`
    #[tactic(auto, unfolding(crate::specs::Reading::older_than, crate::specs::Reading::takes))]
    fn older_than(&mut self) -> Result<(), ReadError>
        ensures { Gives result (spec.older_than (ahead self.old)) (ahead self.new) }
    {
        if self.takes_keyword(Keyword::OlderThan) {
            self.mark(Mark::Arrow)
        } else {
            Ok(())
        }
    }

    /// What follows `SELECT *`.
    #[tactic(auto, unfolding(crate::specs::Reading::rows_rest, crate::specs::Reading::bind))]
    fn rows(&mut self) -> Result<Stmt, ReadError>
        ensures { Gives result (spec.rows_rest (ahead self.old)) (ahead self.new) }
    {
        let (table, tests) = self.source()?;
        Ok(Stmt::Rows { table, tests })
    }

    /// What follows `CALL`.
    #[tactic(auto, unfolding(crate::specs::Reading::call_rest, crate::specs::Reading::bind))]
    fn call(&mut self) -> Result<Stmt, ReadError>
        ensures { Gives result (spec.call_rest (ahead self.old)) (ahead self.new) }
    {
        self.keyword(Keyword::RefreshContinuousAggregate)?;
        self.mark(Mark::Open)?;
        let Window { view, lo, hi } = self.window()?;
        self.mark(Mark::Close)?;
        Ok(Stmt::Refresh { view, lo, hi })
    }

    #[tactic(auto, unfolding(crate::specs::Reading::window, crate::specs::Reading::bind))]
    fn window(&mut self) -> Result<Window, ReadError>
        ensures { Gives result (spec.window (ahead self.old)) (ahead self.new) }
    {
        let view = self.read_quoted()?;
        self.mark(Mark::Comma)?;
        let lo = self.value()?;
        self.mark(Mark::Comma)?;
        let hi = self.value()?;
        Ok(Window { view, lo, hi })
    }

    /// What follows `REFRESH`.
    #[tactic(auto, unfolding(crate::specs::Reading::refresh_rest, crate::specs::Reading::bind, crate::specs::Reading::takes))]
    fn refresh(&mut self) -> Result<Stmt, ReadError>
        ensures { Gives result (spec.refresh_rest (ahead self.old)) (ahead self.new) }
    {
        if self.takes_keyword(Keyword::Cut) {
            let Window { view, lo, hi } = self.window()?;
            return Ok(Stmt::Cut { view, lo, hi });
        }
        if self.takes_keyword(Keyword::Snap) {
            return Ok(Stmt::Snap {
                cut: self.read_optional_number()?,
            });
        }
        self.keyword(Keyword::Finish)?;
        Ok(Stmt::Finish {
            cut: self.read_optional_number()?,
        })
    }

    /// `[num]`
    #[tactic(auto, unfolding(crate::specs::Reading::optional_number, crate::specs::Reading::bind, crate::specs::Reading::choose))]
    fn read_optional_number(&mut self) -> Result<Option<i64>, ReadError>
        ensures { Gives result (spec.optional_number (ahead self.old)) (ahead self.new) }
    {
        if !self.is_at_number() {
            return Ok(None);
        }
        Ok(Some(self.number()?))
    }

    /// What follows `BEGIN`.
    #[tactic(auto, unfolding(crate::specs::Reading::begin_rest, crate::specs::Reading::bind, crate::specs::Reading::takes))]
    fn begin(&mut self) -> Result<Stmt, ReadError>
        ensures { Gives result (spec.begin_rest (ahead self.old)) (ahead self.new) }
    {
        if !self.takes_keyword(Keyword::Read) {
            return Ok(Stmt::Begin);
        }
        self.keyword(Keyword::Only)?;
        Ok(Stmt::BeginRead)
    }
}
