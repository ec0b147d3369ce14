//! A reader of the tokens of a line, in order.
ghost use Rattle.std.specs.Prelude.{◌≡◌, ◌≤◌, length, if◌then◌else◌, option_map};
ghost use Rattle.stmt_syntax.specs.Limits.{longest_line};
ghost use Rattle.stmt_tokens.specs.Bytes.{lower};
ghost use Rattle.stmt_tokens.specs.Streams.{heads, tail, seen_ahead, place, is_end};
ghost use Rattle.stmt_reader.specs.Reading.{fault_here, Gives, token_parser, one, name, quoted_name, number, end};
ghost use Rattle.stmt_tokens.specs.Words.{is_keyword, is_spelled, is_mark, is_number, is_item, flag_of, comparison_of, function_of};
ghost use Rattle.stmt_reader.specs.Cursor.{ahead};
ghost use Rattle.stmt_tokens.specs.Scan.{view, IsNamed};

use crate::faults::{Fault, ReadError};
use std::alloc::Global;
use std::marker::Model;
use stmt_tokens::{Keyword, Mark, NextToken, Token, look, name_of};
use ts_num::Fun;
use ts_schema::{Cmp, Name};

/// A reader over the text of a line. It knows the token that comes next, and never goes back. Contracts see the
/// text and how many of its bytes were read.
///
/// `is_at_..` checks the next token, and `takes_..` moves past it if it is the one named. A method that returns
/// `Result` reads what its name says and moves past it. Otherwise it returns the first fault with its place, or
/// `ReadError::Memory`, and no clause says how far it has read.
#[derive(Drop)]
pub struct Reader<'a> {
    alloc: Global,
    text: &'a [u8],
    at: usize,
    ahead: NextToken<'a>,
}

impl<'a> Model for Reader<'a> {
    ghost use Rattle.std.specs.Prelude.{◌≡◌, ◌≤◌, length};
    ghost use Rattle.stmt_reader.specs.Cursor.{Cursor};
    ghost use Rattle.stmt_syntax.specs.Limits.{longest_line};
    ghost use Rattle.stmt_tokens.specs.Tokens.{next};
    ghost use Rattle.stmt_tokens.specs.Scan.{view_ahead, seen_next};

    ghost Value = { Cursor };

    ghost view = { λ r. record { text = r.text.now; at = r.at } };

    ghost invariant = { λ r. (length r.text.now ≤ longest_line) × (r.at ≤ length r.text.now)
        × (view_ahead r.ahead ≡ seen_next (next r.text.now r.at)) };
}

impl<'a> Reader<'a> {
    /// A reader of a text after its first `skip` bytes.
    pub fn new(alloc: Global, text: &'a [u8], skip: usize) -> Reader<'a>
        requires short { length text.now ≤ longest_line }
        requires within { skip ≤ length text.now }
        ensures begins { result ≡ record { text = text.now; at = skip } }
    {
        Reader {
            alloc,
            text,
            at: skip,
            ahead: look(text, skip),
        }
    }

    /// The allocator for what is returned.
    pub fn alloc(&self) -> Global {
        self.alloc
    }

    /// The text.
    pub(crate) fn text(&self) -> &'a [u8]
        ensures text { result.now ≡ self.now.text }
    {
        self.text
    }

    /// The number of its bytes that were read.
    pub(crate) fn read_len(&self) -> usize
        ensures len { result ≡ self.now.at }
        ensures within { result ≤ length self.now.text }
    {
        self.at
    }

    /// Continues after this many bytes of the text.
    pub(crate) fn go_on_behind(&mut self, read_len: usize)
        requires within { read_len ≤ length self.old.text }
        ensures goes { self.new ≡ record { text = self.old.text; at = read_len } }
    {
        self.at = read_len;
        self.ahead = look(self.text, read_len);
    }

    /// The token that comes next.
    fn token(&self) -> Option<Token<'a>>
        ensures seen { option_map view result ≡ seen_ahead (ahead self.now) }
        ensures named { IsNamed result }
    {
        match self.ahead {
            NextToken::Token { token, .. } => Some(token),
            NextToken::End => None,
            NextToken::Nothing(_) => None,
        }
    }

    /// The place of what comes next.
    fn place(&self) -> u32
        ensures { result ≡ place (ahead self.now) }
    {
        match self.ahead {
            NextToken::Token { begin, .. } => begin as u32 + 1,
            NextToken::End => self.at as u32 + 1,
            NextToken::Nothing(begin) => begin as u32 + 1,
        }
    }

    /// The fault if no allowed token comes next.
    pub fn refusal(&self) -> ReadError
        ensures { result ≡ ReadError.Fault (fault_here (ahead self.now)) }
    {
        let place = self.place();
        ReadError::Fault(match self.ahead {
            NextToken::Token { .. } => Fault::Syntax(place),
            NextToken::End => Fault::Syntax(place),
            NextToken::Nothing(_) => Fault::NoToken(place),
        })
    }

    /// Moves past the next token.
    fn advance(&mut self)
        ensures tail { ahead self.new ≡ tail (ahead self.old) }
    {
        match self.ahead {
            NextToken::Token { end, .. } => {
                self.at = end;
                self.ahead = look(self.text, end);
            }
            NextToken::End => {}
            NextToken::Nothing(_) => {}
        }
    }

    /// Whether this word of the grammar comes next.
    pub fn is_at_keyword(&self, keyword: Keyword) -> bool
        ensures { result ≡ heads (is_keyword keyword) (ahead self.now) }
    {
        match self.token() {
            Some(token) => token.is_keyword(keyword),
            None => false,
        }
    }

    /// Whether the word with this text comes next. The text is in lower case, and the word in any.
    pub fn is_at_word(&self, text: &[u8]) -> bool
        requires { lower text.now ≡ text.now }
        ensures { result ≡ heads (is_spelled text.now) (ahead self.now) }
    {
        match self.token() {
            Some(token) => token.is_spelled(text),
            None => false,
        }
    }

    /// Whether this mark comes next.
    pub fn is_at_mark(&self, mark: Mark) -> bool
        ensures { result ≡ heads (is_mark mark) (ahead self.now) }
    {
        match self.token() {
            Some(token) => token.is_mark(mark),
            None => false,
        }
    }

    /// Whether a number comes next.
    pub fn is_at_number(&self) -> bool
        ensures { result ≡ heads is_number (ahead self.now) }
    {
        match self.token() {
            Some(token) => token.is_number(),
            None => false,
        }
    }

    /// Whether the next token is the output column that has `before` others before it.
    fn is_at_item(&self, before: usize, name: &[u8]) -> bool
        requires { lower name.now ≡ name.now }
        ensures { result ≡ heads (is_item before name.now) (ahead self.now) }
    {
        match self.token() {
            Some(token) => token.is_item(before, name),
            None => false,
        }
    }

    /// Whether the end of the statement comes next.
    fn is_at_end(&self) -> bool
        ensures { result ≡ is_end (ahead self.now) }
    {
        match self.ahead {
            NextToken::End => true,
            NextToken::Token { .. } => false,
            NextToken::Nothing(_) => false,
        }
    }

    /// Moves past this word of the grammar if it comes next.
    pub fn takes_keyword(&mut self, keyword: Keyword) -> bool
        ensures taken { result ≡ heads (is_keyword keyword) (ahead self.old) }
        ensures left { ahead self.new ≡ (if result then tail (ahead self.old) else ahead self.old) }
    {
        let here = self.is_at_keyword(keyword);
        if here {
            self.advance();
        }
        here
    }

    /// Moves past the word with this text if it comes next. The text is in lower case.
    pub fn takes_word(&mut self, text: &[u8]) -> bool
        requires { lower text.now ≡ text.now }
        ensures taken { result ≡ heads (is_spelled text.now) (ahead self.old) }
        ensures left { ahead self.new ≡ (if result then tail (ahead self.old) else ahead self.old) }
    {
        let here = self.is_at_word(text);
        if here {
            self.advance();
        }
        here
    }

    /// Moves past this mark if it comes next.
    pub fn takes_mark(&mut self, mark: Mark) -> bool
        ensures taken { result ≡ heads (is_mark mark) (ahead self.old) }
        ensures left { ahead self.new ≡ (if result then tail (ahead self.old) else ahead self.old) }
    {
        let here = self.is_at_mark(mark);
        if here {
            self.advance();
        }
        here
    }

    /// A word of the grammar.
    #[tactic(auto, unfolding(crate::specs::Reading::token_parser))]
    pub fn keyword(&mut self, keyword: Keyword) -> Result<(), ReadError>
        ensures { Gives result (token_parser (is_keyword keyword) (ahead self.old)) (ahead self.new) }
    {
        if !self.takes_keyword(keyword) {
            return Err(self.refusal());
        }
        Ok(())
    }

    /// The word with this text, which is in lower case.
    #[tactic(auto, unfolding(crate::specs::Reading::token_parser))]
    pub fn word(&mut self, text: &[u8]) -> Result<(), ReadError>
        requires { lower text.now ≡ text.now }
        ensures { Gives result (token_parser (is_spelled text.now) (ahead self.old)) (ahead self.new) }
    {
        if !self.takes_word(text) {
            return Err(self.refusal());
        }
        Ok(())
    }

    /// A mark.
    #[tactic(auto, unfolding(crate::specs::Reading::token_parser))]
    pub fn mark(&mut self, mark: Mark) -> Result<(), ReadError>
        ensures { Gives result (token_parser (is_mark mark) (ahead self.old)) (ahead self.new) }
    {
        if !self.takes_mark(mark) {
            return Err(self.refusal());
        }
        Ok(())
    }

    /// The name of a relation or a column, or another name.
    #[tactic(auto, unfolding(crate::specs::Reading::one))]
    pub fn name(&mut self) -> Result<Name, ReadError>
        ensures { Gives result (name (ahead self.old)) (ahead self.new) }
    {
        match self.token() {
            Some(Token::Word(word)) => {
                let name = name_of(self.alloc, word)?;
                self.advance();
                Ok(name)
            }
            Some(Token::Number(_)) | Some(Token::Quoted(_)) | Some(Token::Mark(_)) | None => {
                Err(self.refusal())
            }
        }
    }

    /// A name in quotes.
    #[tactic(auto, unfolding(crate::specs::Reading::one))]
    pub fn read_quoted(&mut self) -> Result<Name, ReadError>
        ensures { Gives result (quoted_name (ahead self.old)) (ahead self.new) }
    {
        match self.token() {
            Some(Token::Quoted(word)) => {
                let name = name_of(self.alloc, word)?;
                self.advance();
                Ok(name)
            }
            Some(Token::Number(_)) | Some(Token::Word(_)) | Some(Token::Mark(_)) | None => {
                Err(self.refusal())
            }
        }
    }

    /// A number.
    #[tactic(auto, unfolding(crate::specs::Reading::number))]
    pub fn number(&mut self) -> Result<i64, ReadError>
        ensures { Gives result (number (ahead self.old)) (ahead self.new) }
    {
        match self.token() {
            Some(Token::Number(Some(number))) => {
                self.advance();
                Ok(number)
            }
            Some(Token::Number(None)) => Err(ReadError::Fault(Fault::BadNumber(self.place()))),
            Some(Token::Word(_)) | Some(Token::Quoted(_)) | Some(Token::Mark(_)) | None => {
                Err(self.refusal())
            }
        }
    }

    /// An item of GROUP BY: the output column that has `before` others before it.
    #[tactic(auto, unfolding(crate::specs::Reading::token_parser))]
    pub fn item(&mut self, before: usize, name: &[u8]) -> Result<(), ReadError>
        requires { lower name.now ≡ name.now }
        ensures { Gives result (token_parser (is_item before name.now) (ahead self.old)) (ahead self.new) }
    {
        if !self.is_at_item(before, name) {
            return Err(self.refusal());
        }
        self.advance();
        Ok(())
    }

    /// `true` or `false`
    #[tactic(auto, unfolding(crate::specs::Reading::one))]
    pub fn flag(&mut self) -> Result<bool, ReadError>
        ensures { Gives result (one flag_of (ahead self.old)) (ahead self.new) }
    {
        match self.token().and_then(|token| token.flag()) {
            Some(flag) => {
                self.advance();
                Ok(flag)
            }
            None => Err(self.refusal()),
        }
    }

    /// A comparison with a number.
    #[tactic(auto, unfolding(crate::specs::Reading::one))]
    pub fn comparison(&mut self) -> Result<Cmp, ReadError>
        ensures { Gives result (one comparison_of (ahead self.old)) (ahead self.new) }
    {
        match self.token().and_then(|token| token.comparison()) {
            Some(cmp) => {
                self.advance();
                Ok(cmp)
            }
            None => Err(self.refusal()),
        }
    }

    /// The function of an aggregate.
    #[tactic(auto, unfolding(crate::specs::Reading::one))]
    pub fn function(&mut self) -> Result<Fun, ReadError>
        ensures { Gives result (one function_of (ahead self.old)) (ahead self.new) }
    {
        match self.token().and_then(|token| token.function()) {
            Some(fun) => {
                self.advance();
                Ok(fun)
            }
            None => Err(self.refusal()),
        }
    }

    /// The end of the statement.
    #[tactic(auto, unfolding(crate::specs::Reading::end))]
    pub fn end(&mut self) -> Result<(), ReadError>
        ensures { Gives result (end (ahead self.old)) (ahead self.new) }
    {
        if !self.is_at_end() {
            return Err(self.refusal());
        }
        Ok(())
    }
}
