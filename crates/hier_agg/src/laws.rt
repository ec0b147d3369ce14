//! Laws of roll-ups. Each law is the clause of a function that does nothing.
ghost use Rattle.hier_agg.specs.Laws.{AnswersHaveWholeRanges, AnswersShowGroups, BucketsNest, FreshBucketsShowTheComposedFold, GroupingInTwoSteps, RollUpsOfGroupsChooseCells, RollUpsShowTheComposedFold, StaleBucketsAreHeld, UpperAnswersAreRolledUp, WholeRollUpsAreTheLowerAnswer, WholeRollUpsShowTheLowerAnswer, WiderBucketsShowTheComposedFold};
ghost use Rattle.hier_agg.specs.ReadLaws.{FunctionsAddUp, PlansFit};

/// If widths nest, the bucket of a time's bucket is the bucket of the time, and the first bucket lies in the
/// first.
pub fn buckets_nest()
    ensures { BucketsNest }
{}

/// Grouping the groups of rows more coarsely results in the groups of the rows under the composed fold.
pub fn grouping_in_two_steps()
    ensures { GroupingInTwoSteps }
{}

/// A roll-up over the rows of the lower fold shows the rows of the composed fold.
pub fn roll_ups_show_the_composed_fold()
    ensures { RollUpsShowTheComposedFold }
{}

/// A wider bucket in which an answer shows the rows of the lower fold shows the composed fold.
pub fn wider_buckets_show_the_composed_fold()
    ensures { WiderBucketsShowTheComposedFold }
{}

/// A roll-up to the lower width with all keys and columns shows the lower answer.
pub fn whole_roll_ups_show_the_lower_answer()
    ensures { WholeRollUpsShowTheLowerAnswer }
{}

/// The stale ranges of an aggregate's answer are ranges that a roll-up accepts.
pub fn answers_have_whole_ranges()
    ensures { AnswersHaveWholeRanges }
{}

/// A wider bucket holds a stale one if and only if there is a stale bucket in it.
pub fn stale_buckets_are_held()
    ensures { StaleBucketsAreHeld }
{}

/// The upper answer of an aggregate's answer is rolled up from it.
pub fn upper_answers_are_rolled_up()
    ensures { UpperAnswersAreRolledUp }
{}

/// The rows of an aggregate's answer show groups of its fold, in order.
pub fn answers_show_groups()
    ensures { AnswersShowGroups }
{}

/// A roll-up that takes all of an aggregate is its answer.
pub fn whole_roll_ups_are_the_lower_answer()
    ensures { WholeRollUpsAreTheLowerAnswer }
{}

/// A roll-up that keeps the groups of an aggregate is its answer with cells chosen.
pub fn roll_ups_of_groups_choose_cells()
    ensures { RollUpsOfGroupsChooseCells }
{}

/// A wider bucket that isn't named stale and is shown whole shows the composed fold.
pub fn fresh_buckets_show_the_composed_fold()
    ensures { FreshBucketsShowTheComposedFold }
{}

/// The plan of a roll-up that isn't refused is over an existing aggregate, which can be queried and fits.
pub fn plans_fit()
    ensures { PlansFit }
{}

/// A roll-up that isn't refused adds up by the functions in the statement.
pub fn functions_add_up()
    ensures { FunctionsAddUp }
{}
