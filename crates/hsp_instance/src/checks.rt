// The sites and servers that the tables name.

ghost use Rattle.std.specs.Prelude.{◌≡◌, ◌<◌, ◌≤◌, Some, None, length, option_map, slice_get};
ghost use Rattle.std.specs.List.{find};
ghost use Rattle.hsp_tables.specs.Capacities.{AreCapacities};
ghost use Rattle.hsp_tables.specs.Costs.{AreCosts};
ghost use Rattle.hsp_text.specs.Answers.{Gives};
ghost use Rattle.hsp_instance.specs.Building.{capacity_fault, capacity_row_fault, cost_fault, is_named, unless};

use crate::fault::{BuildFault, Table};
use crate::site_reading::has_id;
use crate::sites::Site;
use hsp_tables::{Capacities, Costs};

// The site of a name.
fn site_named<'a>(sites: &'a [Site], name: &[u8]) -> Option<&'a Site>
    ensures { option_map (λ s. s.now) result ≡ find (is_named name.now) sites.now }
{
    for site in sites {
        if name == site.name.as_slice() {
            return Some(site);
        }
    }
    None
}

// Checks that the sites of all costs are there.
#[tactic(auto, using(crate::proofs::Lists::drop_at))]
pub(crate) fn check_costs(sites: &[Site], costs: &Costs) -> Result<(), BuildFault>
    ensures fault { Gives (λ u. u) result (unless (cost_fault sites.now 0 costs.now)) }
    // The costs are within their limits.
    ensures within { AreCosts costs.now }
{
    for row in 0..costs.len() {
        let Some(_) = site_named(sites, costs.row(row).site) else {
            return Err(BuildFault::UnknownSite {
                table: Table::Costs,
                row,
            });
        };
    }
    Ok(())
}

// Checks that the site of a row of the capacities is there, and has the row's server.
fn check_capacity(row: u32, id: u32, site: Option<&Site>) -> Result<(), BuildFault>
    ensures { Gives (λ u. u) result
        (unless (capacity_row_fault row id (option_map (λ s. s.now) site.entry))) }
{
    let Some(site) = site else {
        return Err(BuildFault::UnknownSite {
            table: Table::Capacity,
            row,
        });
    };
    if !has_id(id, site.servers.as_slice()) {
        return Err(BuildFault::UnknownServer { row });
    }
    Ok(())
}

// Checks that the sites and servers of all capacities are there.
#[tactic(auto, using(crate::proofs::Lists::drop_at))]
pub(crate) fn check_capacities(sites: &[Site], capacities: &Capacities) -> Result<(), BuildFault>
    ensures fault { Gives (λ u. u) result (unless (capacity_fault sites.now 0 capacities.now)) }
    // The capacities are within their limits.
    ensures within { AreCapacities capacities.now }
{
    for number in 0..capacities.len() {
        let row = capacities.row(number);
        check_capacity(number, row.server_id, site_named(sites, row.site))?;
    }
    Ok(())
}
