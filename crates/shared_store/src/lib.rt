//! One backend that several threads use, each through its own store handle. Nothing outside the lock uses the backend.
//! A store handle is a store too: each of its calls takes its turn at the backend.
#![tactic(auto)]

mod calls;
mod desk;
mod kept;
mod making;
mod sharing;
mod store;
mod turns;

pub use desk::{Desk, desk_at};
pub use kept::Kept;
pub use making::MadeStore;
pub use store::{Pass, SharedStore, StoreLock};
