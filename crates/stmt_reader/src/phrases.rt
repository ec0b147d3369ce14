//! Phrases that a reader reads, and lists of them.
ghost use Rattle.std.specs.Prelude.{◌≡◌, ◌≤◌, if◌then◌else◌, [], ◌∷◌, Ok};
ghost use Rattle.stmt_reader.specs.Cursor.{ahead};
ghost use Rattle.stmt_tokens.specs.Streams.{Stream, heads, tail, size};
ghost use Rattle.stmt_reader.specs.Reading.{Parser, Gives, parts, more, list_parser};

use crate::faults::ReadError;
use crate::reader::Reader;
use stmt_tokens::{Keyword, Mark};
use ts_schema::Seq;

/// The separator of the items of a list.
#[derive(Clone, Copy, Debug, PartialEq, Eq)]
pub enum Separator {
    /// `,`
    Comma,
    /// `AND`
    And,
}

/// A part of a statement that a reader reads in one call.
pub trait Phrase {
    /// The value of the tokens in front, and the tokens after them.
    ghost phrase: { Parser Self };

    /// Reads a value.
    fn read(reader: &mut Reader<'_>) -> Result<Self, ReadError>
        ensures { Gives result (phrase (ahead reader.old)) (ahead reader.new) };

    /// Reading never goes back.
    ghost forward: { (s : Stream) (a : Self) (left : Stream) → phrase s ≡ Ok (a, left) → size left ≤ size s };
}

impl Reader<'_> {
    /// Moves past this separator, if it comes next.
    pub(crate) fn takes_separator(&mut self, separator: Separator) -> bool
        ensures taken { result ≡ heads (parts separator) (ahead self.old) }
        ensures left { ahead self.new ≡ (if result then tail (ahead self.old) else ahead self.old) }
    {
        match separator {
            Separator::Comma => self.takes_mark(Mark::Comma),
            Separator::And => self.takes_keyword(Keyword::And),
        }
    }

    /// Reads one more item each time such a separator comes next.
    pub fn more<T: Phrase + Drop>(
        &mut self,
        separator: Separator,
        front: Seq<T>,
    ) -> Result<Seq<T>, ReadError>
        ensures { Gives result (more (parts separator) T.phrase front (ahead self.old)) (ahead self.new) }
    {
        let mut items = front;
        while self.takes_separator(separator) {
            items.push(T::read(self)?)?;
        }
        Ok(items)
    }

    /// Reads one or more items.
    pub fn read_list<T: Phrase + Drop>(&mut self, separator: Separator) -> Result<Seq<T>, ReadError>
        ensures { Gives result (list_parser separator T.phrase (ahead self.old)) (ahead self.new) }
    {
        let room = Seq::new(self.alloc());
        self.listed_in(separator, room)
    }

    /// Reads one or more items into the memory of a list, whose items are dropped.
    #[tactic(auto, unfolding(crate::specs::Reading::list_parser, crate::specs::Reading::bind))]
    pub(crate) fn listed_in<T: Phrase + Drop>(
        &mut self,
        separator: Separator,
        room: Seq<T>,
    ) -> Result<Seq<T>, ReadError>
        ensures { Gives result (list_parser separator T.phrase (ahead self.old)) (ahead self.new) }
    {
        let mut items = room.into_items();
        items.clear();
        let mut items = Seq::of(items);
        items.push(T::read(self)?)?;
        self.more(separator, items)
    }
}
