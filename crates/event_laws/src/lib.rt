//! The events that the replies to a script name: the history after a script is the opening one and then those events,
//! and no others. This is a law on definitions; no code runs.
//!
//! `specs/Events.antt` has the law for any meaning of lines; it is proved for sessions with policies, which are those
//! of the program. `specs/Script.antt` of `ts_sessions` defines what a script does, and `specs/Made.antt` there which
//! events a reply names.
#![tactic(auto)]

pub mod laws;
