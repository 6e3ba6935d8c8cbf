// What holds of plans at other counts, beside an old plan, and after losses.

ghost use Rattle.hsp_scenarios.specs.Counts.{LessFits, ShortFrom};
ghost use Rattle.hsp_scenarios.specs.Nearest.{HeavyWeightsShowNearest, Joined, Split};
ghost use Rattle.hsp_scenarios.specs.Nearest.{PricesShowNearest, PricesWeighMoves};
ghost use Rattle.hsp_scenarios.specs.Purchases.{SetsShowLeast};

/// Where there is a plan, each table of no greater counts has one. It sends no more of any row to any site.
pub fn less_fits<A>()
    ensures { LessFits A }
{}

/// Rows that are short stay short where counts are no smaller, and then there is no plan.
pub fn short_from<A>()
    ensures { ShortFrom A }
{}

/// A plan of portions, added up by rows, is a plan of the rows. It moves at most what goes away from home.
pub fn joined_plans<A>()
    ensures { Joined A }
{}

/// Each plan of the rows is such a sum, of portions that send away from home exactly what it moves.
pub fn split_plans<A>()
    ensures { Split A }
{}

/// Prices of the portions show that no plan costs less where moves have a cost, too.
pub fn prices_weigh_moves<A>()
    ensures { PricesWeighMoves A }
{}

/// Prices of the portions and of the rows show a plan that costs the least, and of such plans moves the fewest.
pub fn prices_show_nearest<A>()
    ensures { PricesShowNearest A }
{}

/// Where a unit of cost counts more than all that may move, prices of the portions show it without those of the rows.
pub fn heavy_weights_show_nearest<A>()
    ensures { HeavyWeightsShowNearest A }
{}

/// Weighted sets that are short after losses bound each purchase that serves all of these losses.
pub fn sets_show_least<A>()
    ensures { SetsShowLeast A }
{}
