//! The engine: its list of events, and the state that answers queries. Also a store in memory, and the states
//! of a history at its positions.
//!
//! - `engines`, `prepared`, `moments`, `shots`: the engine, and its state after one more event.
//! - `ledgers`: a history without its rows, which knows which event may come next.
//! - `followers`: an engine or a ledger that follows a history event by event while its journal is read.
//! - `event_calls`, `mem_stores`: the calls of a store, and a store in memory.
//! - `timelines`: the states of a history at its positions.
//! - `images`: the parts of the image of a history.
#![tactic(auto)]

mod engines;
mod event_calls;
mod followers;
mod images;
mod ledgers;
mod mem_stores;
mod prepared;
mod shots;
mod state_at;
mod timelines;

pub use engines::{Engine, begun_at};
pub use event_calls::{cut_over, no_bucket, number_only};
pub use followers::Follower;
pub use ledgers::Ledger;
pub use mem_stores::MemStore;
pub use prepared::Prepared;
pub use shots::Shot;
pub use timelines::{Timeline, end_of};
