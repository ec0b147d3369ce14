//! Passes that are split and joined, and how a shared store ends.
ghost use Rattle.std.specs.Prelude.{◌≡◌, ◌+◌, ◌-◌, ◌<◌, ◌++◌, [], IsPermutation};
ghost use Rattle.turn_lock.specs.Pass.{shares_of, seen_of, closed_of, made_of, with_shares, longer, either, StaysIn, BeginsIn};
ghost use Rattle.shared_store.specs.Stores.{IsPassOf, history_of};
ghost use Rattle.shared_store.specs.Wrapped.{GoesOn, positions_made};

use crate::store::{Pass, SharedStore};
use ts_model::Backend;

impl<B: Backend> SharedStore<B> {
    /// Moves shares to a new pass, which has seen as much and has appended nothing.
    pub fn split(&self, pass: &mut Pass<B>, shares: u32) -> Pass<B>
        requires pass { IsPassOf self.now pass.old }
        requires shares { (0 < shares) × (shares < shares_of pass.old) }
        ensures kept { pass.new ≡ with_shares (shares_of pass.old - shares) pass.old }
        ensures old { IsPassOf self.now pass.new }
        ensures pass { IsPassOf self.now result }
        ensures shares { shares_of result ≡ shares }
        ensures seen { seen_of result ≡ seen_of pass.old }
        ensures closed { closed_of result ≡ closed_of pass.old }
        ensures made { made_of result ≡ [] }
    {
        self.lock.split(pass, shares)
    }

    /// Joins two passes. The result has seen the longer history, which begins with the other, and has appended what
    /// both appended.
    pub fn join(&self, a: Pass<B>, b: Pass<B>) -> Pass<B>
        requires first { IsPassOf self.now a }
        requires second { IsPassOf self.now b }
        ensures pass { IsPassOf self.now result }
        ensures shares { shares_of result ≡ shares_of a + shares_of b }
        ensures seen { seen_of result ≡ longer (seen_of a) (seen_of b) }
        ensures begins { BeginsIn result a × BeginsIn result b }
        ensures closed { closed_of result ≡ either (closed_of a) (closed_of b) }
        ensures stays { StaysIn result a × StaysIn result b }
        ensures made { made_of result ≡ made_of a ++ made_of b }
    {
        self.lock.join(a, b)
    }

    /// Returns the backend to the holder of all the shares. It holds what the pass has seen, and the pass has appended
    /// each event since the start once.
    pub fn close(self, pass: Pass<B>) -> B
        requires pass { IsPassOf self pass }
        requires all { shares_of pass ≡ self.shares }
        ensures history { (B.state result).history ≡ history_of B.state self pass }
        ensures failed { (B.state result).failed ≡ closed_of pass }
        ensures goes_on { GoesOn (B.state self.opened.value) (B.state result) }
        ensures kin { B.kin result ≡ B.kin self.opened.value }
        ensures made { IsPermutation (made_of pass) (positions_made (B.state self.opened.value) (B.state result)) }
    {
        let Self { lock } = self;
        lock.close(pass).into_backend()
    }
}
