//! The bytes of events: each event has one encoding, and no encoding is a prefix of another.
#![tactic(auto)]

mod blocks;
mod codes;
mod conditions;
mod errors;
mod events;
mod fields;
mod kinds;
pub mod laws;
mod names;
mod numbers;
mod ops;
mod reader;
mod rows;
mod tables;
mod views;

pub use errors::ReadError;
pub use events::{Decoded, decode, encode, put_event_bytes};
pub use fields::{Field, put_items, put_many};
pub use numbers::{put_eight, put_four, put_signed};
pub use reader::Reader;
