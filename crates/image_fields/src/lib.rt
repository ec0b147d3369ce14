//! The parts of an image are numbers of the code, so they are in the range of their fields.
#![tactic(auto)]

mod fields;
mod groups;

pub use fields::image_law;
pub use groups::{groups_are_few, validity_law};
