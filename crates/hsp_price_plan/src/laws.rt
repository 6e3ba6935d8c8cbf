// What regions and servers determine.

ghost use Rattle.hsp_price_plan.specs.Grouping.{ServicesGiveArcs};

/// Of rows of a service those of one region whose kept arcs lead to the same servers keep the same arcs.
pub fn services_give_arcs()
    ensures { ServicesGiveArcs }
{}
