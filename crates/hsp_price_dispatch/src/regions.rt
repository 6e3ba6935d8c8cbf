// Which regions have a cost.

ghost use Rattle.std.specs.Prelude.{◌≡◌};
ghost use Rattle.std.specs.List.{list_any};
ghost use Rattle.hsp_price_dispatch.specs.Regions.{has_cost_at};

use hsp_instance::Sites;
use hsp_tables::Costs;

/// Whether a query from a region has a cost at a site.
pub(crate) fn has_cost(costs: &Costs, sites: &Sites, region: &[u8]) -> bool
    ensures { result ≡ list_any (has_cost_at costs.now region.now) sites.now }
{
    for number in 0..sites.len() {
        if costs.find(region, sites.name(number)).is_some() {
            return true;
        }
    }
    false
}
