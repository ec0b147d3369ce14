//! Workers that use one store in parallel, each in its own thread and through its own store handle. The pass that comes
//! back knows what they all did.
#![tactic(auto)]

mod crews;
mod passes;
mod slots;
mod workers;

pub use crews::run_at_once;
pub use slots::Slot;
pub use workers::Worker;
