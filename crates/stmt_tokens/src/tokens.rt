//! Words, numbers, quoted names and marks.
ghost use Rattle.std.specs.Prelude.{◌≡◌, ◌≤◌, ◌<◌, ◌+◌, ◌-◌, ◌*◌, ◌^◌, ◌==◌, ◌||◌, length, take, true, Some, None, IfSome, IsTrue, pos};
ghost use Rattle.std.specs.List.{prefix_len};
ghost use Rattle.std.specs.Char.{is_ascii_digit, digit_value};
ghost use Rattle.std.specs.Ordering.{int_eq};
ghost use Rattle.std.specs.Str.{bytes_eq};
ghost use Rattle.std.specs.Str.Parse.{IsNumeral, without_leading_sign, digits_value, signed_digits_value};
ghost use Rattle.stmt_syntax.specs.Limits.{longest_line};
ghost use Rattle.stmt_tokens.specs.Bytes.{is_space, begins_word, continues_word, lower};
ghost use Rattle.stmt_tokens.specs.Tokens as spec;
ghost use Rattle.stmt_tokens.specs.Words.{mark_number, comparison_of_mark, is_keyword, is_mark, is_number, is_item, value_of, function_of, function_of_word, comparison_of, flag_of, is_spelled};
ghost use Rattle.stmt_tokens.specs.Scan as seen;
ghost use Rattle.stmt_tokens.specs.Scan.{view, view_lexeme, view_ahead, seen_lexeme, seen_next, SeenFits, i64_of, signed_number, shown_token};

use crate::keywords::Keyword;
use crate::names::WORD_BYTES;
use fast_float::parse_i64;
use ts_num::Fun;
use ts_schema::Cmp;

/// The next token of a text. `at` and `end` count bytes from 0: the token is `text[at..end]`. The other numbers
/// are places, which count from 1.
#[derive(Clone, Copy, Debug, PartialEq, Eq)]
pub enum TokenAt {
    /// A token.
    Token { kind: TokenKind, at: u32, end: u32 },
    /// No token is left. The place is that of the first byte after those that were skipped.
    End(u32),
    /// No token begins at this place.
    NoToken(u32),
    /// The number at this place isn't an i64.
    BadNumber(u32),
}

/// The kind of a token.
#[derive(Clone, Copy, Debug, PartialEq, Eq)]
pub enum TokenKind {
    Word,
    Number(i64),
    Quoted,
    Mark,
}

/// A mark.
#[derive(Clone, Copy, Debug, PartialEq, Eq)]
pub enum Mark {
    /// `(`
    Open,
    /// `)`
    Close,
    /// `,`
    Comma,
    /// `;`
    Semicolon,
    /// `.`
    Point,
    /// `*`
    Star,
    /// `=`
    Equal,
    /// `<`
    Less,
    /// `>`
    Greater,
    /// `<=`
    AtMost,
    /// `>=`
    AtLeast,
    /// `<>`
    Differs,
    /// `!=`
    Unequal,
    /// `=>`
    Arrow,
}

impl Mark {
    /// The number of the mark in the order of declaration.
    pub fn number(self) -> u8
        ensures { result ≡ mark_number self }
    {
        self as u8
    }

    /// Whether it is this mark.
    #[inline]
    pub fn is(self, mark: Mark) -> bool
        ensures { result ≡ is_mark mark (seen.mark self) }
    {
        self.number() == mark.number()
    }

    /// The comparison that the token or mark represents.
    pub fn comparison(self) -> Option<Cmp>
        ensures { result ≡ comparison_of_mark self }
    {
        match self {
            Mark::Equal => Some(Cmp::Eq),
            Mark::Differs | Mark::Unequal => Some(Cmp::Ne),
            Mark::Less => Some(Cmp::Lt),
            Mark::AtMost => Some(Cmp::Le),
            Mark::Greater => Some(Cmp::Gt),
            Mark::AtLeast => Some(Cmp::Ge),
            Mark::Open
            | Mark::Close
            | Mark::Comma
            | Mark::Semicolon
            | Mark::Point
            | Mark::Star
            | Mark::Arrow => None,
        }
    }
}

/// A token, as it is written.
#[derive(Clone, Copy, Debug)]
pub enum Token<'a> {
    /// A word of 1 to 63 bytes.
    Word(&'a [u8]),
    /// A number, if it is an i64.
    Number(Option<i64>),
    /// The word between two quotes.
    Quoted(&'a [u8]),
    Mark(Mark),
}

impl<'a> Token<'a> {
    /// Whether it is this word of the grammar, in any case.
    pub fn is_keyword(self, keyword: Keyword) -> bool
        ensures { result ≡ is_keyword keyword (view self.entry) }
    {
        match self {
            Token::Word(word) => is_text(word, keyword.text()),
            Token::Number(_) | Token::Quoted(_) | Token::Mark(_) => false,
        }
    }

    /// Whether it is the word with this text, which is in lower case.
    pub fn is_spelled(self, text: &[u8]) -> bool
        requires { lower text.now ≡ text.now }
        ensures { result ≡ is_spelled text.now (view self.entry) }
    {
        match self {
            Token::Word(word) => is_text(word, text),
            Token::Number(_) | Token::Quoted(_) | Token::Mark(_) => false,
        }
    }

    /// Whether it is this mark.
    pub fn is_mark(self, mark: Mark) -> bool
        ensures { result ≡ is_mark mark (view self.entry) }
    {
        match self {
            Token::Mark(own) => own.is(mark),
            Token::Word(_) | Token::Number(_) | Token::Quoted(_) => false,
        }
    }

    /// Whether it is a number.
    pub fn is_number(self) -> bool
        ensures { result ≡ is_number (view self.entry) }
    {
        match self {
            Token::Number(_) => true,
            Token::Word(_) | Token::Quoted(_) | Token::Mark(_) => false,
        }
    }

    /// Whether the token is the number or the name of the output column that has `before` others before it.
    pub fn is_item(self, before: usize, name: &[u8]) -> bool
        requires { lower name.now ≡ name.now }
        ensures { result ≡ is_item before name.now (view self.entry) }
    {
        match self {
            Token::Word(word) => is_text(word, name),
            Token::Number(Some(number)) => is_one_more(number, before),
            Token::Number(None) | Token::Quoted(_) | Token::Mark(_) => false,
        }
    }

    /// The value of a row, if the token is one: an i64 or NULL.
    #[inline]
    pub fn value(self) -> Option<Option<i64>>
        ensures { result ≡ value_of (view self.entry) }
    {
        match self {
            Token::Number(Some(number)) => Some(Some(number)),
            Token::Word(word) => {
                if is_text(word, Keyword::Null.text()) {
                    Some(None)
                } else {
                    None
                }
            }
            Token::Number(None) | Token::Quoted(_) | Token::Mark(_) => None,
        }
    }

    /// The function that the token names.
    pub fn function(self) -> Option<Fun>
        ensures { result ≡ function_of (view self.entry) }
    {
        match self {
            Token::Word(word) => function_named(word),
            Token::Number(_) | Token::Quoted(_) | Token::Mark(_) => None,
        }
    }

    /// The comparison that the token or mark represents.
    pub fn comparison(self) -> Option<Cmp>
        ensures { result ≡ comparison_of (view self.entry) }
    {
        match self {
            Token::Mark(mark) => mark.comparison(),
            Token::Word(_) | Token::Number(_) | Token::Quoted(_) => None,
        }
    }

    /// `true` or `false`
    pub fn flag(self) -> Option<bool>
        ensures { result ≡ flag_of (view self.entry) }
    {
        if self.is_keyword(Keyword::True) {
            return Some(true);
        }
        if self.is_keyword(Keyword::False) {
            return Some(false);
        }
        None
    }
}

/// Whether a word is this text in lower case.
fn is_text(word: &[u8], text: &[u8]) -> bool
    requires { lower text.now ≡ text.now }
    ensures { result ≡ bytes_eq (lower word.now) text.now }
{
    word.eq_ignore_ascii_case(text)
}

/// Whether a number is one more than another.
fn is_one_more(number: i64, before: usize) -> bool
    ensures { result ≡ int_eq number (pos (before + 1)) }
{
    number >= 1 && (number - 1) as u64 == before as u64
}

/// The function that a word names, in any case.
pub fn function_named(word: &[u8]) -> Option<Fun>
    ensures { result ≡ function_of_word (lower word.now) }
{
    if is_text(word, b"count") {
        Some(Fun::Count)
    } else if is_text(word, b"sum") {
        Some(Fun::Sum)
    } else if is_text(word, b"min") {
        Some(Fun::Min)
    } else if is_text(word, b"max") {
        Some(Fun::Max)
    } else if is_text(word, b"avg") {
        Some(Fun::Avg)
    } else {
        None
    }
}

/// A token and its number of bytes.
#[derive(Clone, Copy, Debug)]
pub struct Lexeme<'a> {
    pub token: Token<'a>,
    pub len: usize,
}

/// What follows some blanks. The numbers count bytes from 0.
#[derive(Clone, Copy, Debug)]
pub enum NextToken<'a> {
    /// A token, its first byte, and the byte after it.
    Token {
        token: Token<'a>,
        begin: usize,
        end: usize,
    },
    /// No token is left.
    End,
    /// No token begins at this byte.
    Nothing(usize),
}

/// The next token after the first `skip` bytes of a text, by its places. The text is a line before its comment.
/// The reader of statements uses `look`, which returns the token itself. This is for callers that need only its
/// places.
pub fn next_token(text: &[u8], skip: u32) -> TokenAt
    requires short { length text.now ≤ longest_line }
    requires within { skip ≤ length text.now }
    ensures token { result ≡ spec.token_at text.now skip }
{
    match look(text, skip as usize) {
        NextToken::End => TokenAt::End(skip + 1),
        NextToken::Nothing(begin) => TokenAt::NoToken(begin as u32 + 1),
        NextToken::Token { token, begin, end } => token_at(token, begin as u32, end as u32),
    }
}

/// A token with its bytes, or the place of a number that isn't an i64.
fn token_at(token: Token<'_>, at: u32, end: u32) -> TokenAt
    requires { at < 2 ^ 32 - 1 }
    ensures { result ≡ shown_token (view token.entry) at end }
{
    let kind = match token {
        Token::Word(_) => TokenKind::Word,
        Token::Number(Some(number)) => TokenKind::Number(number),
        Token::Number(None) => return TokenAt::BadNumber(at + 1),
        Token::Quoted(_) => TokenKind::Quoted,
        Token::Mark(_) => TokenKind::Mark,
    };
    TokenAt::Token { kind, at, end }
}

/// What comes after the first `skip` bytes of a text.
#[inline]
pub fn look(text: &[u8], skip: usize) -> NextToken<'_>
    requires within { skip ≤ length text.now }
    ensures next { view_ahead result ≡ seen_next (spec.next text.now skip) }
    ensures fits { SeenFits skip (length text.now) (view_ahead result) }
{
    match lone_mark_at(text, skip) {
        Some(MarkAt { mark, begin, end }) => NextToken::Token {
            token: Token::Mark(mark),
            begin,
            end,
        },
        None => look_behind_blanks(text, skip),
    }
}

/// A mark and its place. The bytes count from 0.
#[derive(Clone, Copy, Debug)]
pub struct MarkAt {
    pub mark: Mark,
    /// Its first byte.
    pub begin: usize,
    /// The byte after it.
    pub end: usize,
}

/// The mark after the first `skip` bytes of a text, if at most one space precedes it and no mark of two bytes
/// begins with its byte. Most marks are like this. `None` doesn't mean that no mark comes next.
#[inline]
pub fn lone_mark_at(text: &[u8], skip: usize) -> Option<MarkAt>
    requires within { skip ≤ length text.now }
    ensures next { IfSome result (λ m. seen.token (seen.mark m.mark) m.begin m.end
        ≡ seen_next (spec.next text.now skip)) }
    ensures behind { IfSome result (λ m. (skip ≤ m.begin) × (m.begin < m.end)) }
    ensures within { IfSome result (λ m. m.end ≤ length text.now) }
{
    let begin = past_space(text, skip);
    let mark = lone_mark(text, begin)?;
    Some(MarkAt {
        mark,
        begin,
        end: begin + 1,
    })
}

/// The byte after a space directly after the first `skip` bytes, or `skip` if there is no space.
#[inline]
#[tactic(auto, using(crate::proofs::Spaces::next_past_space))]
fn past_space(text: &[u8], skip: usize) -> usize
    requires within { skip ≤ length text.now }
    ensures next { spec.next text.now result ≡ spec.next text.now skip }
    ensures behind { skip ≤ result }
    ensures within { result ≤ length text.now }
{
    match text.get(skip) {
        Some(b' ') => skip + 1,
        _ => skip,
    }
}

/// The mark directly after the first `skip` bytes, if its byte doesn't begin a longer one. Most marks are
/// directly after a word or a number.
#[inline]
fn lone_mark(text: &[u8], skip: usize) -> Option<Mark>
    ensures next { IfSome result (λ mark. spec.next text.now skip
        ≡ spec.token (spec.mark mark) skip (skip + 1)) }
    ensures within { IfSome result (λ mark. skip < length text.now) }
{
    match text.get(skip) {
        Some(b',') => Some(Mark::Comma),
        Some(b'(') => Some(Mark::Open),
        Some(b')') => Some(Mark::Close),
        Some(b';') => Some(Mark::Semicolon),
        Some(b'.') => Some(Mark::Point),
        Some(b'*') => Some(Mark::Star),
        _ => None,
    }
}

/// The token after the blanks there. It is a separate function to keep the search for a mark short.
#[inline(never)]
fn look_behind_blanks(text: &[u8], skip: usize) -> NextToken<'_>
    requires within { skip ≤ length text.now }
    ensures next { view_ahead result ≡ seen_next (spec.next text.now skip) }
    ensures fits { SeenFits skip (length text.now) (view_ahead result) }
{
    let (_, left) = text.split_at(skip);
    let begin = skip + blank_len(left);
    let (_, rest) = text.split_at(begin);
    if rest.is_empty() {
        return NextToken::End;
    }
    match lexeme_at(rest) {
        None => NextToken::Nothing(begin),
        Some(lexeme) => NextToken::Token {
            token: lexeme.token,
            begin,
            end: begin + lexeme.len,
        },
    }
}

/// The number of blanks in front: spaces, tabs, and a CR at the end of the text. Most often there are none.
#[inline]
pub fn blank_len(text: &[u8]) -> usize
    ensures len { result ≡ spec.blank_len text.now }
    ensures within { result ≤ length text.now }
{
    match text {
        [first, ..] => {
            if may_be_blank(*first) {
                blanks_in_front(text)
            } else {
                0
            }
        }
        [] => 0,
    }
}

/// The number of blanks in front, if there are any.
fn blanks_in_front(text: &[u8]) -> usize
    ensures len { result ≡ spec.blank_len text.now }
    ensures within { result ≤ length text.now }
{
    let spaces = space_len(text);
    let (_, rest) = text.split_at(spaces);
    if is_lone_return(rest) {
        spaces + 1
    } else {
        spaces
    }
}

/// The number of spaces and tabs in front.
fn space_len(text: &[u8]) -> usize
    ensures len { result ≡ prefix_len is_space text.now }
    ensures within { result ≤ length text.now }
{
    text.iter().take_while(|b| is_space_byte(**b)).count()
}

/// Whether this is exactly one byte, CR.
fn is_lone_return(text: &[u8]) -> bool
    ensures lone { result ≡ spec.is_return text.now }
    ensures one { IsTrue result → length text.now ≡ 1 }
{
    match text {
        [byte] => *byte == b'\r',
        _ => false,
    }
}

/// The token that begins here. Numbers come first: most tokens are numbers, and their first byte begins no
/// other token.
#[inline]
fn lexeme_at(text: &[u8]) -> Option<Lexeme<'_>>
    ensures lexeme { view_lexeme result ≡ seen_lexeme (spec.lexeme_at text.now) }
{
    let [first, rest @ ..] = text else {
        return None;
    };
    if may_begin_number(*first) {
        return number_at(text);
    }
    if may_begin_word(*first) {
        return word_at(text);
    }
    match *first {
        b'\'' => quoted_at(rest),
        _ => mark_at(text),
    }
}

/// A word: as many bytes as continue one, 1 to 63.
fn word_at(text: &[u8]) -> Option<Lexeme<'_>>
    ensures { view_lexeme result ≡ seen_lexeme (spec.word_at text.now) }
{
    let len = word_len(text);
    if len > WORD_BYTES {
        return None;
    }
    Some(Lexeme {
        token: Token::Word(&text[..len]),
        len,
    })
}

/// The greatest number of digits that always fit an i64.
const SHORT_NUMBER: usize = 18;

/// The digits in front: their number, and their value if there are at most `SHORT_NUMBER`.
#[derive(Clone, Copy, Debug)]
struct Digits {
    len: usize,
    value: u64,
}

/// All digits that follow, after a minus if there is one.
#[inline]
fn number_at(text: &[u8]) -> Option<Lexeme<'_>>
    ensures { view_lexeme result ≡ seen_lexeme (spec.number_at text.now) }
{
    let sign = sign_len(text);
    let (_, unsigned) = text.split_at(sign);
    let digits = digits_in_front(unsigned);
    if digits.len == 0 {
        return None;
    }
    let len = sign + digits.len;
    Some(Lexeme {
        token: Token::Number(number_of(&text[..len], sign, digits)),
        len,
    })
}

/// The value of a numeral, if it is an i64. The value of few digits is known already.
fn number_of(text: &[u8], sign: usize, digits: Digits) -> Option<i64>
    requires numeral { IsNumeral 10 (without_leading_sign text.now) }
    requires small { digits.value < 10 ^ 18 }
    requires read { digits.len ≤ 18
        → i64_of (signed_digits_value 10 text.now) ≡ Some (signed_number sign digits.value) }
    ensures { result ≡ i64_of (signed_digits_value 10 text.now) }
{
    if digits.len <= SHORT_NUMBER {
        Some(signed_number(sign, digits.value))
    } else {
        parse_i64(text).ok()
    }
}

/// A number and its place. The bytes count from 0.
#[derive(Clone, Copy, Debug)]
pub struct NumberAt {
    pub value: i64,
    /// Its first byte.
    pub begin: usize,
    /// The byte after it.
    pub end: usize,
}

/// The number after the first `skip` bytes of a text, if it has fewer than 18 digits and at most one space
/// precedes it. Most values of a row are like this. `None` doesn't mean that no number comes next.
#[inline]
pub fn short_number_at(text: &[u8], skip: usize) -> Option<NumberAt>
    requires within { skip ≤ length text.now }
    ensures next { IfSome result (λ n. seen.token (seen.number (Some n.value)) n.begin n.end
        ≡ seen_next (spec.next text.now skip)) }
    ensures within { IfSome result (λ n. n.end ≤ length text.now) }
{
    let begin = past_space(text, skip);
    let (_, rest) = text.split_at(begin);
    let sign = sign_len(rest);
    let (_, unsigned) = rest.split_at(sign);
    let digits = few_digits(unsigned);
    if digits.len == 0 || digits.len == SHORT_NUMBER {
        return None;
    }
    Some(NumberAt {
        value: signed_number(sign, digits.value),
        begin,
        end: begin + (sign + digits.len),
    })
}

/// The digits in front. Few digits are read only once, since most bytes of a statement are digits of short
/// numbers.
#[inline]
fn digits_in_front(text: &[u8]) -> Digits
    ensures len { result.len ≡ prefix_len is_ascii_digit text.now }
    ensures within { result.len ≤ length text.now }
    ensures value { result.len ≤ 18 → result.value ≡ digits_value 10 (take result.len text.now) }
    ensures small { result.value < 10 ^ 18 }
{
    let few = few_digits(text);
    if few.len < SHORT_NUMBER {
        return few;
    }
    Digits {
        len: digit_len(text),
        value: few.value,
    }
}

/// The first digits in front, at most `SHORT_NUMBER`.
#[inline]
fn few_digits(text: &[u8]) -> Digits
    ensures most { result.len ≤ 18 }
    ensures front { result.len ≤ prefix_len is_ascii_digit text.now }
    ensures all { result.len < 18 → result.len ≡ prefix_len is_ascii_digit text.now }
    ensures within { result.len ≤ length text.now }
    ensures value { result.value ≡ digits_value 10 (take result.len text.now) }
    ensures small { result.value < 10 ^ 18 }
{
    let most = text.len().min(SHORT_NUMBER);
    let mut len = 0;
    let mut value = 0;
    while len < most && text[len].is_ascii_digit() {
        value = value_with(value, text[len]);
        len += 1;
    }
    Digits { len, value }
}

/// The value of digits with one more after them.
#[inline]
fn value_with(value: u64, digit: u8) -> u64
    requires small { value < 10 ^ 17 }
    requires digit { is_ascii_digit digit ≡ true }
    ensures { result ≡ value * 10 + digit_value digit }
{
    value * 10 + u64::from(digit - b'0')
}

/// The number of digits in front.
fn digit_len(text: &[u8]) -> usize
    ensures len { result ≡ prefix_len is_ascii_digit text.now }
    ensures within { result ≤ length text.now }
{
    text.iter().take_while(|b| b.is_ascii_digit()).count()
}

/// The number with a sign of `sign` bytes and this value of the digits after it.
fn signed_number(sign: usize, value: u64) -> i64
    requires { value < 10 ^ 18 }
    ensures { result ≡ signed_number sign value }
{
    if sign == 0 {
        value as i64
    } else {
        -(value as i64)
    }
}

/// After the first quote: a word of 1 to 63 bytes and a second quote.
fn quoted_at(text: &[u8]) -> Option<Lexeme<'_>>
    ensures { view_lexeme result ≡ seen_lexeme (spec.quoted_at text.now) }
{
    let [first, ..] = text else {
        return None;
    };
    let len = word_len(text);
    if !may_begin_word(*first) || len > WORD_BYTES || text[len..].first() != Some(&b'\'') {
        return None;
    }
    Some(Lexeme {
        token: Token::Quoted(&text[..len]),
        len: len + 2,
    })
}

/// The longest mark that fits.
fn mark_at(text: &[u8]) -> Option<Lexeme<'_>>
    ensures { view_lexeme result ≡ seen_lexeme (spec.mark_at text.now) }
{
    let [first, rest @ ..] = text else {
        return None;
    };
    if let [second, ..] = rest {
        if let Some(mark) = long_mark(*first, *second) {
            return Some(Lexeme {
                token: Token::Mark(mark),
                len: 2,
            });
        }
    }
    let mark = short_mark(*first)?;
    Some(Lexeme {
        token: Token::Mark(mark),
        len: 1,
    })
}

/// A mark of two bytes.
fn long_mark(first: u8, second: u8) -> Option<Mark>
    ensures { result ≡ spec.long_mark first second }
{
    match (first, second) {
        (b'<', b'=') => Some(Mark::AtMost),
        (b'>', b'=') => Some(Mark::AtLeast),
        (b'<', b'>') => Some(Mark::Differs),
        (b'!', b'=') => Some(Mark::Unequal),
        (b'=', b'>') => Some(Mark::Arrow),
        _ => None,
    }
}

/// A mark of one byte.
fn short_mark(byte: u8) -> Option<Mark>
    ensures { result ≡ spec.short_mark byte }
{
    match byte {
        b'(' => Some(Mark::Open),
        b')' => Some(Mark::Close),
        b',' => Some(Mark::Comma),
        b';' => Some(Mark::Semicolon),
        b'.' => Some(Mark::Point),
        b'*' => Some(Mark::Star),
        b'=' => Some(Mark::Equal),
        b'<' => Some(Mark::Less),
        b'>' => Some(Mark::Greater),
        _ => None,
    }
}

/// The number of bytes in front that continue a word.
fn word_len(text: &[u8]) -> usize
    ensures len { result ≡ prefix_len continues_word text.now }
    ensures within { result ≤ length text.now }
{
    text.iter().take_while(|b| may_continue_word(**b)).count()
}

/// 1 if a minus is in front, otherwise 0.
fn sign_len(text: &[u8]) -> usize
    ensures len { result ≡ spec.sign_len text.now }
    ensures within { result ≤ length text.now }
{
    match text {
        [b'-', ..] => 1,
        _ => 0,
    }
}

fn is_space_byte(byte: u8) -> bool
    ensures { result ≡ is_space byte }
{
    byte == b' ' || byte == b'\t'
}

fn may_be_blank(byte: u8) -> bool
    ensures { result ≡ (is_space byte || byte == 13) }
{
    is_space_byte(byte) || byte == b'\r'
}

fn may_begin_number(byte: u8) -> bool
    ensures { result ≡ (is_ascii_digit byte || byte == 45) }
{
    byte.is_ascii_digit() || byte == b'-'
}

fn may_begin_word(byte: u8) -> bool
    ensures { result ≡ begins_word byte }
{
    matches!(byte, b'a'..=b'z' | b'A'..=b'Z' | b'_')
}

fn may_continue_word(byte: u8) -> bool
    ensures { result ≡ continues_word byte }
{
    matches!(byte, b'a'..=b'z' | b'A'..=b'Z' | b'0'..=b'9' | b'_')
}
