//! Actors, which execute the lines of a session.
use crate::blocks::Block;
use crate::replies::StepEnd;
use crate::sessions::Session;
use std::alloc::Global;
use std::thread::Threads;
use ts_model::{Backend, Gate, Shown};
use ts_schema::{Name, Steps};

/// An actor executes the lines of a session on any store with snapshots of this type. A session is an actor. So is a
/// type around a session that does more at each line.
pub trait Actor {
    ghost use Rattle.std.specs.Prelude.{◌≡◌, ℕ, ◌+◌, ◌≤◌, List, length};
    ghost use Rattle.std.specs.Thread.{IsSync};
    ghost use Rattle.ts_model.specs.States.{State};
    ghost use Rattle.stmt_syntax.specs.Limits.{longest_line};
    ghost use Rattle.ts_sessions.specs.Actors.{HadBegun, StaysOutside, TellsReplies};
    ghost use Rattle.ts_sessions.specs.Held.{GoesOn, WaitsInside, most_queued};
    ghost use Rattle.ts_sessions.specs.Places.{Block as BlockPlace, Turn, block_kind, none};
    ghost use Rattle.ts_sessions.specs.Procedures.{Procedure};
    ghost use Rattle.ts_sessions.specs.Script.{Semantics};
    ghost use Rattle.ts_sessions.specs.Sessions.{IfAnswered, Stepped};

    /// The snapshots of the stores that it acts on.
    type Shot: Shown;

    // The state that it keeps from one line to the next.
    ghost Places: { Type 0 };

    // The meaning of its lines.
    ghost semantics: { Semantics Self.Places };

    // What the reply to a line says, as a procedure. It depends on the session state, the bytes of the line, and how
    // many of them precede its statement.
    ghost replies: { Self.Places → List ℕ → ℕ → Procedure (Turn Self.Places) };

    ghost places: { Self → Self.Places };

    ghost named: { Self → List ℕ };

    ghost numbered: { Self → ℕ };

    // How many bytes the texts of the queued operations have.
    ghost waiting: { Self → ℕ };

    // The block in a session state.
    ghost within: { Self.Places → BlockPlace };

    // Only a write block queues operations.
    ghost waits: { (actor : Self) → WaitsInside (block_kind (Self.within (Self.places actor))) (Self.waiting actor) };

    // What it holds fits the history of its store, and whether the store has stopped.
    ghost holds: { Self → State → Type 0 };

    /// Returns the actor before its first line. Sessions are numbered from 0 in order of appearance. It allocates
    /// nothing.
    fn begin(alloc: Global, name: Name, number: u32) -> Self
        ensures name { Self.named result ≡ name }
        ensures number { Self.numbered result ≡ number }
        ensures places { Self.places result ≡ Self.semantics.opening number }
        ensures waiting { Self.waiting result ≡ 0 }
        ensures holds { (s : State) → Self.holds result s };

    /// The number of the session.
    fn number(&self) -> u32
        ensures { result ≡ Self.numbered self.now };

    /// The name of the session.
    fn name(&self) -> &Name
        ensures { result.now ≡ Self.named self.now };

    /// How many bytes the texts of the queued operations have: 0 outside a write block.
    fn queued(&self) -> u64
        ensures { result ≡ Self.waiting self.now };

    /// The block that the session is in.
    fn block(&self) -> Block
        ensures { result ≡ block_kind (Self.within (Self.places self.now)) };

    /// Executes a line. `text` is the line before its comment, and its statement begins after the first `skip` bytes.
    /// `rt` has the threads that queries and refreshes may use. `gate` is a worker hook, called directly before the
    /// finish of a refresh. `steps` counts the stored rows read. The caller may call it again after a disk fault, but
    /// not after `NoMemory`: then no clause says that what it holds fits the store.
    fn act<R: Threads + Sync, B: Backend<Shot = Self::Shot>, G: Gate, L>(
        &mut self,
        rt: &R,
        alloc: Global,
        backend: &mut B,
        gate: &G,
        text: &[u8],
        skip: u32,
        steps: &mut Steps<L>,
    ) -> StepEnd
        requires sync { IsSync R.row }
        requires short { length text.now ≤ longest_line }
        requires within { skip ≤ length text.now }
        requires room { Self.waiting self.old + length text.now ≤ most_queued }
        requires holds { Self.holds self.old (B.state backend.old) }
        ensures stepped { Stepped B.alone (B.state backend.old)
            (Self.semantics.does (Self.places self.old) text.now skip) (Self.named self.old) result
            (B.state backend.new) (Self.places self.new) steps.old steps.new }
        ensures name { Self.named self.new ≡ Self.named self.old }
        ensures number { Self.numbered self.new ≡ Self.numbered self.old }
        ensures waiting { Self.waiting self.new ≤ Self.waiting self.old + length text.now }
        ensures quiet { Self.within (Self.places self.old) ≡ none → Self.waiting self.new ≡ 0 }
        ensures holds { IfAnswered result (Self.holds self.new (B.state backend.new)) }
        ensures kin { B.kin backend.new ≡ B.kin backend.old };

    /// States the law that the lines do what their replies say, over each longer history. It does nothing: its clause
    /// is the law.
    fn tells_replies()
        ensures { TellsReplies Self.within Self.semantics.does Self.replies };

    /// States the law that a line with an event leaves the session outside a block, if it was outside. It does nothing:
    /// its clause is the law.
    fn stays_outside()
        ensures { StaysOutside Self.within Self.semantics.does };

    ghost holds_on: { (actor : Self) (g h : State) → GoesOn g h → Self.holds actor g → Self.holds actor h };

    // The first state doesn't depend on the number of the session.
    ghost alike: { (m n : ℕ) → Self.semantics.opening m ≡ Self.semantics.opening n };

    // If what it holds fits the history of its store, its block began within that history.
    ghost begun: { (actor : Self) (s : State) → Self.holds actor s
        → HadBegun Self.within (Self.places actor) s.history };
}

impl<T: Shown + Drop> Actor for Session<T>
where
    T::Job: Drop,
{
    ghost use Rattle.std.specs.Prelude.{refl};
    ghost use Rattle.ts_sessions.specs.Held.{HoldsOf, places_in, waiting_bytes};
    ghost use Rattle.ts_sessions.specs.Places.{Places};
    ghost use Rattle.ts_sessions.specs.Replies.{reply_to};
    ghost use Rattle.ts_sessions.specs.Script.{session_semantics};
    ghost use Rattle.ts_sessions.specs.Holding.{had_begun, holds_on as goes_on, waits_inside};

    type Shot = T;

    ghost Places = { Places };

    ghost semantics = { session_semantics };

    ghost replies = { reply_to };

    ghost places = { λ s. places_in s };

    ghost named = { λ s. s.name };

    ghost numbered = { λ s. s.number };

    ghost waiting = { λ s. waiting_bytes s };

    ghost within = { λ p. p.block };

    ghost waits = { λ s. waits_inside (places_in s).block };

    ghost holds = { λ s h. HoldsOf T.Shown s h };

    ghost holds_on = { λ s g h b k. goes_on T.Shown.own T.fits_on s g h b k };

    ghost alike = { λ m n. refl };

    ghost begun = { λ s h k. had_begun T.Shown.stands s.block h.history k.block };

    fn begin(alloc: Global, name: Name, number: u32) -> Session<T> {
        Session::new(alloc, name, number)
    }

    fn number(&self) -> u32 {
        self.number
    }

    fn name(&self) -> &Name {
        &self.name
    }

    fn queued(&self) -> u64 {
        Session::queued(self)
    }

    fn block(&self) -> Block {
        Session::block(self)
    }

    fn act<R: Threads + Sync, B: Backend<Shot = T>, G: Gate, L>(
        &mut self,
        rt: &R,
        alloc: Global,
        backend: &mut B,
        gate: &G,
        text: &[u8],
        skip: u32,
        steps: &mut Steps<L>,
    ) -> StepEnd {
        self.step(rt, alloc, backend, gate, text, skip, steps)
    }

    fn tells_replies() {}

    fn stays_outside() {}
}
