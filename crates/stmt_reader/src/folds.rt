//! Folds: the bucket, the keys, the aggregates, and what they are grouped by.
ghost use Rattle.std.specs.Prelude.{◌≡◌, [], if◌then◌else◌};
ghost use Rattle.stmt_tokens.specs.Bytes.{lower};
ghost use Rattle.stmt_reader.specs.Cursor.{ahead};
ghost use Rattle.stmt_tokens.specs.Streams.{heads, tail};
ghost use Rattle.stmt_tokens.specs.Words.{function_of_word, is_item, is_star_of};
ghost use Rattle.stmt_syntax.specs.Heads.{head_name};
ghost use Rattle.stmt_reader.specs.Reading as spec;
ghost use Rattle.stmt_reader.specs.Reading.{Gives, token_parser};
ghost use Rattle.stmt_reader.specs.Forward.{forward-aggregate};

use crate::faults::ReadError;
use crate::phrases::{Phrase, Separator};
use crate::reader::Reader;
use stmt_syntax::{NamedAgg, NamedFold, NamedTest};
use stmt_tokens::{Keyword, Mark, function_named};
use ts_num::Fun;
use ts_schema::{Name, Seq};

/// The name of a bucket that has none after AS.
const BUCKET_NAME: &[u8] = b"time_bucket";

/// The word of a bucket of the calendar. It is the bucket's name if no name follows AS.
pub const CALENDAR_NAME: &[u8] = b"calendar_bucket";

/// The start of a fold: a width, the column that it is over, and the name after AS. The rest of the fold
/// follows it.
#[derive(Drop)]
pub struct Head {
    /// The length of a bucket.
    pub step: i64,
    /// The offset of the buckets.
    pub shift: i64,
    /// The column whose values fall into buckets.
    pub at: Name,
    /// The name of the output column after AS.
    pub name: Option<Name>,
}

/// The start of a fold by buckets of the calendar.
#[derive(Drop)]
pub struct CalendarHead {
    /// The number of units of a bucket.
    pub number: i64,
    /// The unit.
    pub unit: Name,
    /// The column that it is over and the name after AS, with step 1 and offset 0.
    pub head: Head,
}

/// An aggregate.
impl Phrase for NamedAgg {
    ghost phrase = { spec.aggregate };

    fn read(reader: &mut Reader<'_>) -> Result<NamedAgg, ReadError> {
        reader.aggregate()
    }

    ghost forward = { forward-aggregate.goes };
}

impl Reader<'_> {
    /// A fold after its SELECT.
    #[tactic(auto, unfolding(crate::specs::Reading::fold_rest, crate::specs::Reading::bind))]
    pub fn fold(&mut self) -> Result<NamedFold, ReadError>
        ensures { Gives result (spec.fold_rest (ahead self.old)) (ahead self.new) }
    {
        let bucket = self.bucket()?;
        self.fold_behind(BUCKET_NAME, bucket)
    }

    /// The rest of a fold after its head. `own` is the name of the head if there is none after AS.
    #[tactic(auto, unfolding(crate::specs::Reading::fold_behind, crate::specs::Reading::bind))]
    pub fn fold_behind(&mut self, own: &[u8], head: Head) -> Result<NamedFold, ReadError>
        requires { lower own.now ≡ own.now }
        ensures { Gives result (spec.fold_behind own.now head (ahead self.old)) (ahead self.new) }
    {
        let (keys, aggs) = self.select_list()?;
        let (table, tests) = self.source()?;
        self.read_group_by(own, &head.name, &keys)?;
        let Head {
            step,
            shift,
            at,
            name,
        } = head;
        Ok(NamedFold {
            step,
            shift,
            at,
            name,
            keys,
            aggs,
            table,
            tests,
        })
    }

    /// `time_bucket ( num , c [ , num ] ) [AS x]`
    #[tactic(auto, unfolding(crate::specs::Reading::bucket, crate::specs::Reading::bind))]
    fn bucket(&mut self) -> Result<Head, ReadError>
        ensures { Gives result (spec.bucket (ahead self.old)) (ahead self.new) }
    {
        self.keyword(Keyword::TimeBucket)?;
        self.mark(Mark::Open)?;
        let step = self.number()?;
        self.mark(Mark::Comma)?;
        let at = self.name()?;
        let shift = self.offset()?;
        self.mark(Mark::Close)?;
        let name = self.alias()?;
        Ok(Head {
            step,
            shift,
            at,
            name,
        })
    }

    /// `( num , 'unit' , c ) [AS x]` after `calendar_bucket`.
    #[tactic(auto, unfolding(crate::specs::Reading::calendar_bucket, crate::specs::Reading::bind))]
    pub fn calendar_bucket(&mut self) -> Result<CalendarHead, ReadError>
        ensures { Gives result (spec.calendar_bucket (ahead self.old)) (ahead self.new) }
    {
        self.mark(Mark::Open)?;
        let number = self.number()?;
        self.mark(Mark::Comma)?;
        let unit = self.read_quoted()?;
        self.mark(Mark::Comma)?;
        let at = self.name()?;
        self.mark(Mark::Close)?;
        let name = self.alias()?;
        Ok(CalendarHead {
            number,
            unit,
            head: Head {
                step: 1,
                shift: 0,
                at,
                name,
            },
        })
    }

    /// `[, num]`
    #[tactic(auto, unfolding(crate::specs::Reading::offset, crate::specs::Reading::takes))]
    fn offset(&mut self) -> Result<i64, ReadError>
        ensures { Gives result (spec.offset (ahead self.old)) (ahead self.new) }
    {
        if self.takes_mark(Mark::Comma) {
            self.number()
        } else {
            Ok(0)
        }
    }

    /// The keys and the aggregates after the bucket.
    #[tactic(auto, unfolding(crate::specs::Reading::select_list, crate::specs::Reading::bind))]
    fn select_list(&mut self) -> Result<(Seq<Name>, Seq<NamedAgg>), ReadError>
        ensures { Gives result (spec.select_list (ahead self.old)) (ahead self.new) }
    {
        let (keys, fun) = self.keys()?;
        let aggs = self.aggregates(fun)?;
        Ok((keys, aggs))
    }

    /// The keys, and the function of the first aggregate with its opening parenthesis.
    fn keys(&mut self) -> Result<(Seq<Name>, Fun), ReadError>
        ensures { Gives result (spec.keys_and_function [] (ahead self.old)) (ahead self.new) }
    {
        let mut keys = Seq::new(self.alloc());
        loop {
            self.mark(Mark::Comma)?;
            let name = self.name()?;
            if self.is_at_mark(Mark::Open) {
                let fun = self.read_function(&name)?;
                return Ok((keys, fun));
            }
            keys.push(name)?;
        }
    }

    /// The function that a word names, with its opening parenthesis.
    #[tactic(auto, unfolding(crate::specs::Reading::bind))]
    fn read_function(&mut self, name: &Name) -> Result<Fun, ReadError>
        ensures { Gives result (spec.function_head (function_of_word name.now) (ahead self.old)) (ahead self.new) }
    {
        let Some(fun) = function_named(name.bytes()) else {
            return Err(self.refusal());
        };
        self.mark(Mark::Open)?;
        Ok(fun)
    }

    /// The aggregates. The first begins after its opening parenthesis.
    #[tactic(auto, unfolding(crate::specs::Reading::aggregates, crate::specs::Reading::bind))]
    fn aggregates(&mut self, fun: Fun) -> Result<Seq<NamedAgg>, ReadError>
        ensures { Gives result (spec.aggregates fun (ahead self.old)) (ahead self.new) }
    {
        let first = self.aggregate_rest(fun)?;
        let mut aggs = Seq::new(self.alloc());
        aggs.push(first)?;
        self.more(Separator::Comma, aggs)
    }

    #[tactic(auto, unfolding(crate::specs::Reading::aggregate, crate::specs::Reading::bind))]
    fn aggregate(&mut self) -> Result<NamedAgg, ReadError>
        ensures { Gives result (spec.aggregate (ahead self.old)) (ahead self.new) }
    {
        let fun = self.function()?;
        self.mark(Mark::Open)?;
        self.aggregate_rest(fun)
    }

    /// An aggregate after its opening parenthesis.
    #[tactic(auto, unfolding(crate::specs::Reading::aggregate_rest, crate::specs::Reading::bind))]
    fn aggregate_rest(&mut self, fun: Fun) -> Result<NamedAgg, ReadError>
        ensures { Gives result (spec.aggregate_rest fun (ahead self.old)) (ahead self.new) }
    {
        let (fun, col) = self.argument(fun)?;
        self.mark(Mark::Close)?;
        let name = self.alias()?;
        Ok(NamedAgg { fun, col, name })
    }

    /// `*` of count, or a column.
    #[tactic(auto, unfolding(crate::specs::Reading::argument, crate::specs::Reading::bind, crate::specs::Reading::takes))]
    fn argument(&mut self, fun: Fun) -> Result<(Fun, Option<Name>), ReadError>
        ensures { Gives result (spec.argument fun (ahead self.old)) (ahead self.new) }
    {
        if self.takes_star_of(fun) {
            return Ok((Fun::CountAll, None));
        }
        let col = self.name()?;
        Ok((fun, Some(col)))
    }

    /// Moves past a `*` if it comes next and the function is count.
    fn takes_star_of(&mut self, fun: Fun) -> bool
        ensures taken { result ≡ heads (is_star_of fun) (ahead self.old) }
        ensures left { ahead self.new ≡ (if result then tail (ahead self.old) else ahead self.old) }
    {
        match fun {
            Fun::Count => self.takes_mark(Mark::Star),
            Fun::CountAll | Fun::Sum | Fun::Min | Fun::Max | Fun::Avg => false,
        }
    }

    /// `FROM n [WHERE tests]`
    #[tactic(auto, unfolding(crate::specs::Reading::source, crate::specs::Reading::bind))]
    pub fn source(&mut self) -> Result<(Name, Seq<NamedTest>), ReadError>
        ensures { Gives result (spec.source (ahead self.old)) (ahead self.new) }
    {
        self.keyword(Keyword::From)?;
        let table = self.name()?;
        let tests = self.filters()?;
        Ok((table, tests))
    }

    /// `GROUP BY` and as many items as the head and the keys together.
    #[tactic(auto, unfolding(crate::specs::Reading::group_by, crate::specs::Reading::items, crate::specs::Reading::bind))]
    fn read_group_by(
        &mut self,
        own: &[u8],
        name: &Option<Name>,
        keys: &Seq<Name>,
    ) -> Result<(), ReadError>
        requires { lower own.now ≡ own.now }
        ensures { Gives result (spec.group_by (head_name own.now name.now) keys.now (ahead self.old)) (ahead self.new) }
    {
        self.keyword(Keyword::Group)?;
        self.keyword(Keyword::By)?;
        self.first_item(own, name)?;
        self.more_items(keys.items())
    }

    /// The item of the head, by the name after AS or by its default name.
    fn first_item(&mut self, own: &[u8], name: &Option<Name>) -> Result<(), ReadError>
        requires { lower own.now ≡ own.now }
        ensures { Gives result (token_parser (is_item 0 (head_name own.now name.now)) (ahead self.old)) (ahead self.new) }
    {
        match name {
            Some(name) => self.named_item(0, name),
            None => self.item(0, own),
        }
    }

    /// The items after the first.
    fn more_items(&mut self, names: &[Name]) -> Result<(), ReadError>
        ensures { Gives result (spec.items_from 1 names.now (ahead self.old)) (ahead self.new) }
    {
        for (i, name) in names.iter().enumerate() {
            self.mark(Mark::Comma)?;
            self.named_item(i + 1, name)?;
        }
        Ok(())
    }

    /// An output column that has `before` others before it, by its number or its name.
    fn named_item(&mut self, before: usize, name: &Name) -> Result<(), ReadError>
        ensures { Gives result (token_parser (is_item before name.now) (ahead self.old)) (ahead self.new) }
    {
        self.item(before, name.bytes())
    }
}
