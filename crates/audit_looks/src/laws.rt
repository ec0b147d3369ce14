//! Laws of texts and of replays by read positions. Each is the clause of a function that does nothing.
ghost use Rattle.ts_sessions.specs.Replies.{reply_to};
ghost use Rattle.audit_looks.specs.Laws.{TextsTellLooks, TextsTellNumbers};
ghost use Rattle.audit_looks.specs.ReplayLaws.{RepliesTellTheirLooks, ToldIsGiven, ToldOnce};

/// States the law that the positions read from the text of a reply are the read positions that the reply prints.
pub fn texts_tell_looks()
    ensures { TextsTellLooks }
{}

/// States the law that the numbers read from the text of a reply are those of the events that the reply names.
pub fn texts_tell_numbers()
    ensures { TextsTellNumbers }
{}

/// A procedure gives what a replay of it yields by given read positions.
pub fn what_is_told_is_given<A>()
    ensures { ToldIsGiven A }
{}

/// A replay by the same read positions yields one outcome.
pub fn procedures_are_told_once<A>()
    ensures { ToldOnce A }
{}

/// A replay by the read positions that a reply prints yields what the line gave over a history whose store never
/// stopped.
pub fn replies_tell_their_looks()
    ensures { RepliesTellTheirLooks reply_to }
{}
