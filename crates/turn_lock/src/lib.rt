//! A lock around one value whose events only grow. It serves its holders in the order of their tickets. A pass carries
//! what its holder has seen of the value, and which events it added.
#![tactic(auto)]

mod backoff;
mod ending;
mod grown;
mod held;
mod laws;
mod lock;
mod lock_rule;
mod making;
mod opening;
mod pass;
mod sharing;
mod steps;
mod turns;
mod view;

pub use grown::Grown;
pub use held::Held;
pub use laws::every_moment;
pub use lock::TurnLock;
pub use making::MadeLock;
pub use pass::Pass;
