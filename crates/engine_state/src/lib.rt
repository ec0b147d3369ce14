//! The state of an engine: its data of a history, in one value that snapshots share.
#![tactic(auto)]

mod after_event;
mod answers;
mod chunk_parts;
mod commits;
mod cuts;
mod finishes;
mod group_rebuilds;
mod image_state;
mod image_tables;
mod image_views;
mod images;
mod jobs;
mod parts;
mod queues;
mod scans;
mod states;
mod steps;
mod tables;
mod views;
mod windows;

pub use after_event::AfterEvent;
pub use image_state::roster_from_image;
pub use states::State;
pub use tables::TableState;
pub use views::ViewState;
