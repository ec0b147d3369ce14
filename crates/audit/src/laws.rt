//! Laws of audits. Each is the clause of a function that does nothing.
ghost use Rattle.audit.specs.Laws.{ExplainedIsYes, MoreOrFewerAreRejected, OthersAreRejected, TextsHaveOneAnswer};
ghost use Rattle.audit.specs.Laws.{YesNamesEachOnce};

use transcript::text_law;

/// States the law that an audit of one text over one history has one answer, unless memory runs out.
pub fn texts_have_one_answer()
    ensures { TextsHaveOneAnswer }
{
    text_law();
}

/// States the law of explained transcripts without a statement on policies. Their answer is YES with the number of
/// replies, unless memory runs out.
pub fn explained_is_yes()
    ensures { ExplainedIsYes }
{
    text_law();
}

/// States the law of transcripts with the answer YES. Their replies name, by their texts, each event above the start
/// once, and no other.
pub fn yes_names_each_once()
    ensures { YesNamesEachOnce }
{
    text_law();
}

/// States the law of transcripts whose replies leave out an event, name one twice or name another. Their answer is No
/// or Lost, unless memory runs out. They have their start in the history and no statement on policies.
pub fn others_are_rejected()
    ensures { OthersAreRejected }
{
    text_law();
}

/// States the same law for replies that name more events than the history has above the start, or fewer, even if only
/// by one.
pub fn more_or_fewer_are_rejected()
    ensures { MoreOrFewerAreRejected }
{
    text_law();
}
