//! Checkpoint images. An image of a history is taken from a state that represents it. The rest is about the
//! bytes of an image: their number, how they are written, and how they are read from left to right. Reading
//! returns a valid image, and no other image has these bytes.
#![tactic(auto)]

mod capture;
mod countable_rows;
mod frames;
mod group_checks;
mod groups;
mod imaged;
mod images;
pub mod laws;
mod orders;
mod outlines;
mod parts;
mod ranges;
mod read_outcome;
mod refreshes;
mod relations;
mod roster_events;
mod row_writers;
mod searches;
mod shapes;
mod sizes;
mod tallies;
mod validity;
mod views;
mod waiting_checks;

pub use capture::take;
pub use imaged::Imaged;
pub use images::put;
pub use outlines::{Outline, outline_of};
pub use read_outcome::{ReadImage, read};
pub use sizes::size;
pub use tallies::Tally;
