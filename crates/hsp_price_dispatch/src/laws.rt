// What holds of every plan and of every list of queries.

ghost use Rattle.hsp_price_dispatch.specs.Laws.{AnswersByItsOwn, AnswersByTheGreatestPart, EndsInTheSame};
ghost use Rattle.hsp_price_dispatch.specs.Laws.{GivesTheGreatestPart, GoesByItsEntries, GoesOnWithTheRest};
ghost use Rattle.hsp_price_dispatch.specs.Laws.{GoesOverItsArcs};
ghost use Rattle.hsp_price_dispatch.specs.Laws.{IsDivertedLeast, IsFullWithoutRoom, IsUnknownWithoutCost, LeastAreArcs};
ghost use Rattle.hsp_price_dispatch.specs.Laws.{NeverExceeds, NeverExceedsTogether, RoomsAddUp, TakesHostRoom};
ghost use Rattle.hsp_price_dispatch.specs.Laws.{TakesRoom};
ghost use Rattle.hsp_price_dispatch.specs.Planned.{CostsWhatThePlanDoes, IsServedByPlan, ValidIsWithinPlan};

use hsp_prices::plan_is_shown;

/// Each query that goes to a server takes one of its room and of its host's. So no server and no host gets more than
/// its room at the beginning, whatever is asked.
pub fn within_room()
    ensures takes { TakesRoom }
    ensures takes_at_hosts { TakesHostRoom }
    ensures exceeds { NeverExceeds }
{}

/// The rooms of all fronts add up to what each server and each host takes. So all fronts together send no server and
/// no host more, whatever each is asked.
pub fn fronts_within()
    ensures rooms { RoomsAddUp }
    ensures exceeds { NeverExceedsTogether }
{}

/// An assigned query goes over one of its least arcs, and a diverted one over one of its arcs: to a site where its
/// region has a cost, and to the server that its handle's hash fixes there.
pub fn goes_over_its_arcs()
    ensures goes { GoesOverItsArcs }
    ensures least { LeastAreArcs }
{}

/// Of places none of which has more left than its share, the one that is found has the greatest part left of those that
/// can give. So a query that gets of an amount of a class gets of the one of which the greatest part is left, whatever
/// its front was asked before.
pub fn gives_the_greatest_part()
    ensures gives { GivesTheGreatestPart }
    ensures answers { AnswersByTheGreatestPart }
{}

/// A query is diverted only where no least server has an amount left for it, or free room. It goes over a free arc that
/// pays least of the free ones, and where none is free over an arc with room that pays least of those.
pub fn diverted_least()
    ensures { IsDivertedLeast }
{}

/// A query is answered by `Unknown` just where its region has no cost at any site.
pub fn unknown_without_cost()
    ensures { IsUnknownWithoutCost }
{}

/// A query is answered by `Full` only where the server of each of its arcs, or its host, has no room left.
pub fn full_without_room()
    ensures { IsFullWithoutRoom }
{}

/// Of a log in two parts, the second part is answered by what the first leaves, and leaves what the whole log does.
pub fn log_in_parts()
    ensures { GoesOnWithTheRest }
{}

/// Each front answers by what it began with and by its own earlier entries, as if there were no other.
pub fn fronts_by_their_own()
    ensures { AnswersByItsOwn }
{}

/// Two lists of events that have the same entries at a front have the same answers there, and leave the same there.
pub fn front_apart()
    ensures { GoesByItsEntries }
{}

/// Where each query of one front has one least server or a class, and none asks for more than the plan has, each is
/// assigned. No server gets more than its amounts and the queries that have it as only least server. It gets just that
/// where each class is asked for exactly its amounts.
pub fn served_by_plan()
    ensures { IsServedByPlan }
{}

/// Queries for which the certificate of a plan is valid, each of them a row, ask for just what the plan has. So one
/// front assigns each. Together they cost what the certificate states, and no plan of these rows costs less.
pub fn costs_what_the_plan_does()
    ensures within { ValidIsWithinPlan }
    ensures costs { CostsWhatThePlanDoes }
{
    plan_is_shown();
}

/// Two interleavings of the same fronts' lists end in the same at each front.
pub fn order_of_fronts()
    ensures { EndsInTheSame }
{}
