//! Laws of what lines do. Each is the clause of a function that does nothing, at any types.
ghost use Rattle.ts_sessions.specs.CutRefreshes.{GivenBlocksBegin};
ghost use Rattle.ts_sessions.specs.LineLaws.{LinesMakeFewEvents, NamesStay, OnlyCommitsMakeEvents, OthersSeeNoQueue, QueriesShowTheQueue, RepliesAreSteady, StepsAreReplies};
ghost use Rattle.ts_sessions.specs.Places.{Places};
ghost use Rattle.ts_sessions.specs.Replies.{reply_to};
ghost use Rattle.ts_sessions.specs.Named.{RepliesNameTheirEvents};
ghost use Rattle.ts_sessions.specs.Stopped.{OnlyStopsAreReported};
ghost use Rattle.ts_sessions.specs.Laws.{GivesEvents, GivesOverLonger, LastIsPrinted, PrintedLooksDetermine, PutTogether, WalksAreGiven};

/// States the law that two walks in order, of a procedure and of the one that follows it, are one walk of both.
pub fn procedures_are_put_together<A, B>()
    ensures { PutTogether A B }
{}

/// States the law that a steady procedure gives the same over each longer history, even if the store stopped later.
pub fn procedures_give_the_same_over_longer_histories<A>()
    ensures { GivesOverLonger A }
{}

/// States the law that the last position of a procedure is its last printed read, or its last event if that is later.
pub fn the_last_position_is_printed<A>()
    ensures { LastIsPrinted A }
{}

/// States the law that the events of a procedure are those of the history with their numbers, in order.
pub fn procedures_give_events_of_the_history<A>()
    ensures { GivesEvents A }
{}

/// States the law that the printed reads of a procedure determine its result and its events.
pub fn printed_looks_determine_procedures<A>()
    ensures { PrintedLooksDetermine A }
{}

/// States the law that a walk leaves a history over which the procedure gives the same.
pub fn walks_are_given<A>()
    ensures { WalksAreGiven A }
{}

/// States the law that names resolved before an event are the same at the event.
pub fn names_are_as_at_the_event()
    ensures { NamesStay }
{}

/// States the law that a step is what the reply to its line says.
pub fn steps_are_replies()
    ensures { StepsAreReplies }
{}

/// States the law that a reply says the same at each longer history, if the block of its session had begun by then.
pub fn replies_are_steady()
    ensures { RepliesAreSteady }
{}

/// States the law that a reply is `E24` only if the store had stopped, and then with the position of the stop.
pub fn only_stops_are_reported()
    ensures { OnlyStopsAreReported reply_to }
{}

/// States the law that a reply names exactly the events that its line appended, in order.
pub fn replies_name_their_events()
    ensures { RepliesNameTheirEvents reply_to }
{}

/// States the law that a line appends at most three events: a new aggregate, and the cut and the finish of its refresh.
pub fn lines_make_at_most_three_events()
    ensures { LinesMakeFewEvents }
{}

/// States the law that a query in a write block shows and reads the same as directly after a commit of the queue.
pub fn queries_show_the_queue()
    ensures { QueriesShowTheQueue }
{}

/// States the law that a line in a write block appends no event, unless it is COMMIT.
pub fn only_commits_make_events()
    ensures { OnlyCommitsMakeEvents }
{}

/// States the law that the reply to a line is the same whatever another session has queued.
pub fn others_see_no_queue()
    ensures { OthersSeeNoQueue }
{}

/// States the law that the block of a session after a line had begun by the end of the history that gives the line.
pub fn given_blocks_have_begun()
    ensures { GivenBlocksBegin (λ (p : Places). p.block) reply_to }
{}
