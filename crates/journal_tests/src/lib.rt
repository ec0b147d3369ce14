//! Tests of disks, journals, checkpoints and the lock by their public calls, for cases that no script reaches. They are
//! in a crate without other code, since a crate with tests is proved twice.
#![tactic(auto)]

#[cfg(test)]
mod checkpoints;
#[cfg(test)]
mod disks;
#[cfg(test)]
mod files;
#[cfg(test)]
mod journals;
#[cfg(test)]
mod locks;
