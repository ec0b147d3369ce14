//! Tests of the top call under faults of its source, its sink and its disk, only by public calls. The expected results
//! were worked out manually. The tests are in a crate without other code, since a crate with tests is proved twice.
//!
//! - `script`: a script with its replies and its events.
//! - `calls`: makes calls and checks their results.
//! - `ends`: a read or a write that fails.
//! - `disks`: a call of the disk that fails, a disk that stops, and what a crash leaves of it.
//! - `reads`: how many stored rows a run reads, which no reply reports.
//! - `checkpoints`: a checkpoint whose sink or disk fails.
//! - `ticks`: a tick whose disk fails.
//! - `stops`: a disk that fails under one session of a parallel run.
#![tactic(auto)]

#[cfg(test)]
mod calls;
#[cfg(test)]
mod checkpoints;
#[cfg(test)]
mod disks;
#[cfg(test)]
mod ends;
#[cfg(test)]
mod reads;
#[cfg(test)]
mod script;
#[cfg(test)]
mod stops;
#[cfg(test)]
mod ticks;
