//! A partial function from whole numbers to positions, stored as the numbers at which its value changes.
#![tactic(auto)]

mod changes;
mod combine;
mod edges;
mod floors;
mod maps;
mod parts;
mod patches;
mod pieces;
mod rules;
mod search;
mod shared;

pub use maps::SpanMap;
pub use pieces::Piece;
pub use rules::Rule;
pub use shared::SharedMap;
