//! What a pass knows, only for the proofs. No value of these types is ever created.
use std::collections::LinkedList;

/// The stage of a pass on the way to its turn.
pub enum Stage<E> {
    Idle,
    /// It has this ticket.
    Waiting(u64),
    /// It has the turn by this ticket. The stage also has the events of the value as the others know them, and what
    /// closed it, if it is closed.
    Turn(u64, LinkedList<E>, Option<E>),
}

/// What a pass knows and has done.
pub struct PassState<B, E> {
    pub stage: Stage<E>,
    pub shares: u32,
    pub base: Option<B>,
    pub seen: LinkedList<E>,
    /// What closed the value with the events seen, if it has seen it closed.
    pub shut: Option<E>,
    pub made: LinkedList<u64>,
    /// The base of the pass that was joined last.
    pub other_base: Option<B>,
    /// The shorter list of the two at that join.
    pub other_seen: LinkedList<E>,
    /// What closed the value, if the pass with that list had seen it closed.
    pub other_shut: Option<E>,
}
