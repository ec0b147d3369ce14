//! Tests that no script reaches, only by public calls. They have sources and sinks that give and take few bytes a call
//! or fail, and inputs of the greatest size. They check numbers beyond 64 bits, and the words of refusals that no
//! statement has yet. They are in a crate without other code, since a crate with tests is proved twice.
#![tactic(auto)]

#[cfg(test)]
mod inputs;
#[cfg(test)]
mod numbers;
#[cfg(test)]
mod texts;
