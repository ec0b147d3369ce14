//! Worker hooks: places at which a test may hold a worker.

/// Calls by which a worker reports its progress. They return nothing.
pub trait Gate {
    /// Called by the worker of this session directly before each finish of a refresh.
    fn between(&self, session: u32);

    /// Called by the worker of this session after each reply.
    fn answered(&self, session: u32);
}

/// The worker hook that holds no worker.
#[derive(Clone, Copy, Debug)]
pub struct NoGate;

impl Gate for NoGate {
    fn between(&self, _session: u32) {}

    fn answered(&self, _session: u32) {}
}
