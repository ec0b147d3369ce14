//! Parts of statements: values, rows, columns, tests, and the name after AS.
ghost use Rattle.std.specs.Prelude.{◌≡◌, ◌≤◌, Ok, Some, None, IfOk};
ghost use Rattle.stmt_reader.specs.Cursor.{ahead};
ghost use Rattle.stmt_tokens.specs.Streams.{size};
ghost use Rattle.stmt_reader.specs.Reading as spec;
ghost use Rattle.stmt_reader.specs.Reading.{Gives};
ghost use Rattle.stmt_reader.specs.declared.phrases.Separator.TheVariants as separators;
ghost use Rattle.stmt_reader.specs.Forward.{forward-name, forward-value, forward-column, forward-test};

use crate::faults::ReadError;
use crate::phrases::{Phrase, Separator};
use crate::reader::Reader;
use crate::rows::{row_behind, rows_behind};
use cell_rows::CellRows;
use stmt_syntax::NamedTest;
use stmt_tokens::{Keyword, Mark};
use ts_schema::{Cmp, Column, Name, NoMemory, Seq};

/// A name.
impl Phrase for Name {
    ghost phrase = { spec.name };

    fn read(reader: &mut Reader<'_>) -> Result<Name, ReadError> {
        reader.name()
    }

    ghost forward = { forward-name.goes };
}

/// A number, or NULL.
impl Phrase for Option<i64> {
    ghost phrase = { spec.value };

    fn read(reader: &mut Reader<'_>) -> Result<Option<i64>, ReadError> {
        reader.value()
    }

    ghost forward = { forward-value.goes };
}

/// A column with its type.
impl Phrase for Column {
    ghost phrase = { spec.column };

    fn read(reader: &mut Reader<'_>) -> Result<Column, ReadError> {
        reader.column()
    }

    ghost forward = { forward-column.goes };
}

/// A test.
impl Phrase for NamedTest {
    ghost phrase = { spec.any_test };

    fn read(reader: &mut Reader<'_>) -> Result<NamedTest, ReadError> {
        reader.test()
    }

    ghost forward = { forward-test.goes };
}

impl Reader<'_> {
    #[tactic(auto, unfolding(crate::specs::Reading::value, crate::specs::Reading::bind, crate::specs::Reading::takes))]
    pub fn value(&mut self) -> Result<Option<i64>, ReadError>
        ensures { Gives result (spec.value (ahead self.old)) (ahead self.new) }
    {
        if self.takes_keyword(Keyword::Null) {
            return Ok(None);
        }
        Ok(Some(self.number()?))
    }

    /// The values of a row in parentheses, in the memory of `room`, whose values are dropped.
    fn row(&mut self, room: Seq<Option<i64>>) -> Result<Seq<Option<i64>>, ReadError>
        ensures { Gives result (spec.row (ahead self.old)) (ahead self.new) }
    {
        let mut values = room.into_items();
        match row_behind(self.text(), self.read_len(), &mut values)? {
            Some(end) => {
                self.go_on_behind(end);
                Ok(Seq::of(values))
            }
            None => self.row_of_tokens(Seq::of(values)),
        }
    }

    /// The same, token by token.
    #[tactic(auto, unfolding(crate::specs::Reading::row, crate::specs::Reading::bind))]
    fn row_of_tokens(&mut self, room: Seq<Option<i64>>) -> Result<Seq<Option<i64>>, ReadError>
        ensures { Gives result (spec.row (ahead self.old)) (ahead self.new) }
    {
        self.mark(Mark::Open)?;
        let values = self.listed_in(Separator::Comma, room)?;
        self.mark(Mark::Close)?;
        Ok(values)
    }

    /// One row or more.
    #[tactic(auto, unfolding(crate::specs::Reading::list_parser, crate::specs::Reading::bind))]
    pub(crate) fn rows_of_values(&mut self) -> Result<CellRows<Option<i64>>, ReadError>
        ensures { Gives result (spec.list_parser separators.Comma spec.row (ahead self.old)) (ahead self.new) }
    {
        let mut rows = CellRows::new(self.alloc());
        let room = Seq::new(self.alloc());
        let begin = self.read_len();
        let values = self.row(room)?;
        rows.push(values.items())?;
        self.make_room(begin, &mut rows, values.len())?;
        self.more_rows(rows, values)
    }

    /// Makes room for the rows in the rest of the text, assuming that all are as long as the one that begins
    /// there.
    fn make_room(
        &self,
        begin: usize,
        rows: &mut CellRows<Option<i64>>,
        count: usize,
    ) -> Result<(), NoMemory>
        ensures { rows.new ≡ rows.old }
    {
        let end = self.read_len();
        let left = self.text().len().saturating_sub(end);
        let more = left / end.saturating_sub(begin).max(1);
        rows.reserve(more, more.saturating_mul(count))
    }

    /// Reads one more row each time a comma comes next, each in turn into the memory of `room`.
    fn more_rows(
        &mut self,
        front: CellRows<Option<i64>>,
        room: Seq<Option<i64>>,
    ) -> Result<CellRows<Option<i64>>, ReadError>
        ensures { Gives result
            (spec.more (spec.parts separators.Comma) spec.row front (ahead self.old)) (ahead self.new) }
    {
        let mut rows = front;
        let mut values = room;
        'rows: loop {
            let room = self.rows_in_bytes(&mut rows, values)?;
            if !self.takes_separator(Separator::Comma) {
                return Ok(rows);
            }
            values = self.row_of_tokens(room)?;
            rows.push(values.items())?;
        }
    }

    /// Reads one more row each time a comma and a row come next.
    fn rows_in_bytes(
        &mut self,
        rows: &mut CellRows<Option<i64>>,
        room: Seq<Option<i64>>,
    ) -> Result<Seq<Option<i64>>, NoMemory>
        ensures read { IfOk result (λ _.
            spec.more (spec.parts separators.Comma) spec.row rows.new (ahead self.new)
            ≡ spec.more (spec.parts separators.Comma) spec.row rows.old (ahead self.old)) }
        ensures forward { IfOk result (λ _. size (ahead self.new) ≤ size (ahead self.old)) }
    {
        let mut values = room.into_items();
        let end = rows_behind(self.text(), self.read_len(), rows, &mut values)?;
        self.go_on_behind(end);
        Ok(Seq::of(values))
    }

    /// `[NOT NULL]`
    #[tactic(auto, unfolding(crate::specs::Reading::not_null, crate::specs::Reading::bind, crate::specs::Reading::takes))]
    fn not_null(&mut self) -> Result<bool, ReadError>
        ensures { Gives result (spec.not_null (ahead self.old)) (ahead self.new) }
    {
        if !self.takes_keyword(Keyword::Not) {
            return Ok(false);
        }
        self.keyword(Keyword::Null)?;
        Ok(true)
    }

    #[tactic(auto, unfolding(crate::specs::Reading::column, crate::specs::Reading::bind))]
    fn column(&mut self) -> Result<Column, ReadError>
        ensures { Gives result (spec.column (ahead self.old)) (ahead self.new) }
    {
        let name = self.name()?;
        self.keyword(Keyword::Bigint)?;
        let must = self.not_null()?;
        Ok(Column { name, must })
    }

    #[tactic(auto, unfolding(crate::specs::Reading::any_test, crate::specs::Reading::bind, crate::specs::Reading::takes))]
    fn test(&mut self) -> Result<NamedTest, ReadError>
        ensures { Gives result (spec.any_test (ahead self.old)) (ahead self.new) }
    {
        let col = self.name()?;
        if self.takes_keyword(Keyword::Is) {
            return self.null_test(col);
        }
        self.number_test(col)
    }

    /// `IS NULL` or `IS NOT NULL`, after the `IS`.
    #[tactic(auto, unfolding(crate::specs::Reading::null_test, crate::specs::Reading::bind, crate::specs::Reading::takes))]
    fn null_test(&mut self, col: Name) -> Result<NamedTest, ReadError>
        ensures { Gives result (spec.null_test col (ahead self.old)) (ahead self.new) }
    {
        let cmp = if self.takes_keyword(Keyword::Not) {
            Cmp::NotNull
        } else {
            Cmp::IsNull
        };
        self.keyword(Keyword::Null)?;
        Ok(NamedTest { col, cmp, num: 0 })
    }

    /// A comparison with a number.
    #[tactic(auto, unfolding(crate::specs::Reading::number_test, crate::specs::Reading::bind))]
    fn number_test(&mut self, col: Name) -> Result<NamedTest, ReadError>
        ensures { Gives result (spec.number_test col (ahead self.old)) (ahead self.new) }
    {
        let cmp = self.comparison()?;
        let num = self.number()?;
        Ok(NamedTest { col, cmp, num })
    }

    /// `[WHERE tests]`
    #[tactic(auto, unfolding(crate::specs::Reading::filters, crate::specs::Reading::bind, crate::specs::Reading::takes))]
    pub fn filters(&mut self) -> Result<Seq<NamedTest>, ReadError>
        ensures { Gives result (spec.filters (ahead self.old)) (ahead self.new) }
    {
        if !self.takes_keyword(Keyword::Where) {
            return Ok(Seq::new(self.alloc()));
        }
        self.read_list(Separator::And)
    }

    /// `[AS x]`
    #[tactic(auto, unfolding(crate::specs::Reading::alias, crate::specs::Reading::bind, crate::specs::Reading::takes))]
    pub fn alias(&mut self) -> Result<Option<Name>, ReadError>
        ensures { Gives result (spec.alias (ahead self.old)) (ahead self.new) }
    {
        if !self.takes_keyword(Keyword::As) {
            return Ok(None);
        }
        Ok(Some(self.name()?))
    }
}
