// What holds of every plan and every log.

ghost use Rattle.hsp_dispatch.specs.FrontLaws.{AnswersAsDispatchers, AnswersByShares, BeginsWithShares, EndsInTheSame};
ghost use Rattle.hsp_dispatch.specs.FrontLaws.{FrontsGoOn, GoesByItsEntries, IsServedTogether, IsSpentTogether};
ghost use Rattle.hsp_dispatch.specs.FrontLaws.{NeverExceedsTogether, SharesAddUp};
ghost use Rattle.hsp_dispatch.specs.Laws.{DispatcherGoesOn, GoesByHash, GoesOnWithTheRest, IsServedWhole};
ghost use Rattle.hsp_dispatch.specs.Laws.{IsSpentAfterAll, NeverExceeds};

/// No log has more of a row's entries assigned to a site than the plan sends there. Where an entry is answered `Spent`,
/// all that the plan sends of its row was assigned before. If the plan is feasible, that is the row's whole number.
pub fn within_plan()
    ensures exceeds { NeverExceeds }
    ensures spent { IsSpentAfterAll }
    ensures whole { IsServedWhole }
{}

/// Of a log in two parts, the second part is answered by what the first leaves of the plan.
pub fn log_in_parts()
    ensures { GoesOnWithTheRest }
{}

/// Over all calls the answers are those to one list of all entries, or of all events, so far. What is left is what that
/// list leaves. This holds for any mixture of `assign` and `run_log` on a dispatcher, and of `assign` and `run_fronts`
/// on fronts, also after faults.
pub fn over_all_calls()
    ensures dispatcher { DispatcherGoesOn }
    ensures fronts { FrontsGoOn }
{}

/// An assigned query goes to the server of the site that is responsible for its handle, by the handle's hash. This
/// holds where the instance is that of inputs, and the plan sends nothing where it may not.
pub fn goes_by_hash()
    ensures { GoesByHash }
{}

/// The shares of all fronts add up to the plan. Each front begins with its share, and answers by it and by its own
/// earlier entries. Its answers are those of a dispatcher that has its share, to its own entries.
pub fn fronts_by_shares()
    ensures shares { SharesAddUp }
    ensures begin { BeginsWithShares }
    ensures answers { AnswersByShares }
    ensures each { AnswersAsDispatchers }
{}

/// Two lists of events that have the same entries at a front have the same answers there. They leave the same of its
/// share.
pub fn front_apart()
    ensures { GoesByItsEntries }
{}

/// Two interleavings of the same fronts' lists end in the same tables.
pub fn order_of_fronts()
    ensures { EndsInTheSame }
{}

/// All fronts together have no more of a row's entries assigned to a site than the plan sends there.
pub fn fronts_within()
    ensures { NeverExceedsTogether }
{}

/// Where each front has answered an entry of a row by `Spent`, all that the plan sends of the row was assigned. If the
/// plan is feasible, that is the row's whole number.
pub fn fronts_spent()
    ensures spent { IsSpentTogether }
    ensures whole { IsServedTogether }
{}
