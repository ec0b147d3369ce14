//! Scripts over a history and over its image: the same lines write the same, and the same events follow both. This is a
//! law on definitions; no code runs.
//!
//! `specs/Laws.antt` has the law, for any meaning of lines; it is proved for sessions with policies and without.
//! `image_laws` says what the image of a history is, and when two histories are alike. `specs/Script.antt` of
//! `ts_sessions` says what a script does, and `specs/Turns.antt` of `policy_jobs` what policies do.
#![tactic(auto)]

pub mod laws;
