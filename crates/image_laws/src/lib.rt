//! What a checkpoint image keeps: a history that begins with the image of another has the same answers as the
//! whole. These are laws of definitions; no code runs.
//!
//! `specs/Images.antt` says what the image of a history is, table by table, refresh by refresh and bucket by
//! bucket. `specs/Alike.antt` says what it means that two histories are alike. `ts_model` (`specs/Saved.antt`,
//! `specs/Valid.antt`) says what an image contains, and which images are valid.
#![tactic(auto)]

pub mod laws;
