// What prices, sets of servers, certificates by prices and groups show of rows of demand of any number.

ghost use Rattle.hsp_prices.specs.Bounds.{GapsBoundPlans, PricesBoundPlans, SmallGapsShowBest};
ghost use Rattle.hsp_prices.specs.Classes.{ClassesShowBest};
ghost use Rattle.hsp_prices.specs.Kept.{KeptPlansAreBest, KeptShortSetsAreShort};
ghost use Rattle.hsp_prices.specs.ServerSets.{ServersShowShortages, ShortServersShowNone};
ghost use Rattle.hsp_prices.specs.Shown.{PlanIsShown, ShortageIsShown};
ghost use Rattle.hsp_prices.specs.Solved.{GroupsShowBest, GroupsShowShort};

/// Where no reduced cost is negative, what the rows pay is at most what any plan costs and what full servers and hosts
/// take.
pub fn prices_bound_plans()
    ensures { PricesBoundPlans }
{}

/// A cost that is this bound but for a gap is at most the cost of any plan, but for the gap.
pub fn gaps_bound_plans()
    ensures { GapsBoundPlans }
{}

/// Where the gap is less than one unit no plan costs less.
pub fn small_gaps_show_best()
    ensures { SmallGapsShowBest }
{}

/// Some rows are short exactly where some set of servers is: the rows that can go nowhere else ask for more than it
/// takes.
pub fn servers_show_shortages()
    ensures { ServersShowShortages }
{}

/// Where a set of servers is short there is no feasible plan.
pub fn short_servers_show_none()
    ensures { ShortServersShowNone }
{}

/// A plan over some of the arcs with its prices is best over all arcs where no reduced cost of any arc is negative. Its
/// cost is the same.
pub fn kept_plans_are_best()
    ensures { KeptPlansAreBest }
{}

/// Rows that are short over some of the arcs are short over all arcs where none of their arcs leads elsewhere.
pub fn kept_short_sets_are_short()
    ensures { KeptShortSetsAreShort }
{}

/// A plan of the classes of rows of any number, with prices by which no reduced cost is negative, gives a plan of the
/// rows, in whole numbers, with the same cost and the same loads, and no plan of the rows costs less.
pub fn classes_show_best()
    ensures { ClassesShowBest }
{}

/// The certificate of a plan that meets all its conditions shows a plan of the rows, in whole numbers, that costs what
/// is stated, brings to each server and each host what the rows and the classes bring, and is best. What the rows pay
/// by the stated prices is what the plan costs and what full servers and hosts take.
pub fn plan_is_shown()
    ensures { PlanIsShown }
{}

/// The certificate of a short set of servers that meets all its conditions shows that no plan of the rows is feasible.
pub fn shortage_is_shown()
    ensures { ShortageIsShown }
{}

/// A flow that meets the groups' network, with prices, gives the certificate of a plan that meets all its conditions
/// for the rows, where each row keeps the arcs over which it pays least by these prices.
pub fn groups_show_best()
    ensures { GroupsShowBest }
{}

/// A short set of groups gives the certificate of a short set of servers that meets all its conditions for the rows,
/// where no row that only keeps arcs into the set has another arc.
pub fn groups_show_short()
    ensures { GroupsShowShort }
{}
