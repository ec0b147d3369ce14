//! Tests of inputs whose sessions run in parallel, only by public calls. They check that workers overlap, which no
//! contract says, and what a run prints. They are in a crate without other code, since a crate with tests is proved
//! twice.
#![tactic(auto)]

#[cfg(test)]
mod gates;
#[cfg(test)]
mod overlaps;
#[cfg(test)]
mod runs;
#[cfg(test)]
mod stops;
