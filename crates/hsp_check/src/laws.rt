// Laws of the definitions.

ghost use Rattle.hsp_check.specs.Claims.{InstancesAreNetworks, OneChangeIsPricedBy};
ghost use Rattle.hsp_check.specs.Claims.{PricesBoundChanges, PricesShowBest, ShortShowsNone};

/// A feasible plan with prices is best, and the prices add up to its total: weak duality with complementary slackness
/// (Network Flows, sections 9.3 and 9.4).
pub fn prices_show_best()
    ensures { PricesShowBest }
{}

/// If a set of rows asks for more than all that it can reach can take, no plan is feasible.
pub fn short_shows_none()
    ensures { ShortShowsNone }
{}

/// Prices bound the cost of every plan of the same arcs, whatever rows ask for and servers and hosts can take: no such
/// plan costs less than what the rows pay beside what servers and hosts take (Network Flows, section 9.3).
pub fn prices_bound_changes()
    ensures { PricesBoundChanges }
{}

/// What one number that differs is worth. Room for more at a server or on a host saves at most its price a query, room
/// for less costs at least that, and a row that asks for more costs at least its price a query.
pub fn one_change_is_priced()
    ensures { OneChangeIsPricedBy }
{}

/// What an instance asks about is a network: each arc's row and server, and each server's host, are there.
pub fn instances_are_networks()
    ensures { InstancesAreNetworks }
{}
