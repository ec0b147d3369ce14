//! Read positions and numbers of events, read from the text of the reply that prints them.
//!
//! - `numbers`: the numbers that a text begins with.
//! - `lines`: the read positions of one line, by its head.
//! - `replies`: the read positions of a reply.
//! - `laws`: what is read from a text is what its reply prints, and a replay by it yields what the line gave.
#![tactic(auto)]

mod laws;
mod lines;
mod numbers;
mod replies;

pub use laws::{
    procedures_are_told_once, replies_tell_their_looks, texts_tell_looks, texts_tell_numbers,
    what_is_told_is_given,
};
pub use replies::looks_of_reply;
