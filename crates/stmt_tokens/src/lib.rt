//! Lines of a script and their tokens.
//!
//! - `lines`: a line without its comment, and its session.
//! - `tokens`: words, numbers, quoted names and marks.
//! - `keywords`, `names`: the words of the grammar, and names as they are written.
#![tactic(auto)]

mod keywords;
mod lines;
mod names;
mod tokens;

pub use keywords::Keyword;
pub use lines::{LineKind, split_line};
pub use names::name_of;
pub use tokens::{
    Mark, MarkAt, NextToken, NumberAt, Token, TokenAt, TokenKind, function_named, lone_mark_at,
    look, next_token, short_number_at,
};
