//! Laws of sessions that share a store. Each is the clause of a function that does nothing.
ghost use Rattle.par_laws.specs.Laws.{AnswersGiveEvents, LooksNeverFall, ParallelRunsHaveOneHistory, WalkedLinesAreAnswered};

use ts_model::Backend;

/// States the law that lines walked in order, while others changed the store too, are answered over each longer
/// history. The store may have stopped later.
pub fn walked_lines_are_answered<P, A>()
    ensures { WalkedLinesAreAnswered P A }
{}

/// States the law that the printed read positions of a session never fall from one line to the next.
pub fn looks_of_a_session_never_fall<P, A>()
    ensures { LooksNeverFall P A }
{}

/// States the law that the events of a session's lines are those of the history with their numbers, in their order.
pub fn answers_give_events_of_the_history<P, A>()
    ensures { AnswersGiveEvents P A }
{}

/// States the law of sessions that ran on one store, some in parallel. They result in what their lines mean over the
/// one history that was left. The actors that execute their lines report by the replies what the lines did.
pub fn parallel_runs_have_one_history<P, W, B: Backend>()
    ensures { ParallelRunsHaveOneHistory P W B.alone B.state }
{}
