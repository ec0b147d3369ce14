//! A store: an engine, and a journal of its events on a disk. Each event is on the disk before it counts, and a
//! start reads them again.
//!
//! - `starts`: from a disk to a store, or to the place at which its journal is damaged.
//! - `histories`: the same for the history only, without an engine.
//! - `stores`: a store, and how it appends an event.
//! - `backends`: the calls of a store.
//! - `checkpoints`: the image of a store's history, appended to its journal.
//! - `laws`: each journal contains one history, or is damaged at one place.
#![tactic(auto)]

mod appends;
mod backends;
mod checkpoints;
mod drafts;
mod histories;
mod image_writes;
mod initial_value;
pub mod laws;
mod recorders;
mod replays;
mod starts;
mod stores;

pub use checkpoints::{CheckEnd, Checkpointed};
pub use histories::{HistoryRead, read_history};
pub use starts::Started;
pub use stores::Store;
