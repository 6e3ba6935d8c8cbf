// What the classes of a plan bring before any row came.

ghost use Rattle.std.specs.Prelude.{◌≡◌, ◌≤◌, ◌<◌, ◌+◌, All, IfOk, Some, length, option_map, slice_get, sum_by};
ghost use Rattle.hsp_text.specs.declared.limits.TheConstants.{GREATEST_COST};
ghost use Rattle.hsp_tables.specs.Costs.{AreCosts};
ghost use Rattle.hsp_instance.specs.Instance.{IsInstance};
ghost use Rattle.hsp_prices.specs.Sums.{class_cost, cost_at};
ghost use Rattle.hsp_prices.specs.Verdict.{AreThere};
ghost use Rattle.hsp_price_check.specs.Classes.{AreClassLoads, IsLoadedBy, service_of};
ghost use Rattle.hsp_price_check.specs.Passed.{capped};

use hsp_instance::Instance;
use hsp_price_text::Class;
use hsp_tables::Costs;
use std::alloc::{AllocError, Global};

// Adds what a class brings to its servers.
fn add_class(loads: &mut [u128], class: &Class)
    requires { All (λ j. j < length loads.old) class.now.servers }
    ensures { IsLoadedBy loads.old class.now loads.new }
{
    for (server, amount) in class.servers.iter().zip(&class.amounts) {
        let place = *server as usize;
        loads[place] = loads[place].saturating_add(u128::from(*amount));
    }
}

/// What classes bring to each server below `count`, in queries. Sums above 2^128 - 1 are kept as that.
///
/// # Errors
///
/// An `AllocError` where memory runs out.
pub fn class_loads(alloc: Global, classes: &[Class], count: usize) -> Result<Vec<u128>, AllocError>
    requires { All (λ class. All (λ j. j < count) class.servers) classes.now }
    ensures { IfOk result (λ loads. AreClassLoads count classes.now loads.items) }
{
    let mut loads = vec![in alloc; 0u128; count]?;
    for class in classes {
        add_class(&mut loads, class);
    }
    Ok(loads)
}

// What a query from the region costs at the server's site.
fn cost_at(instance: &Instance, costs: &Costs, region: &[u8], server: u32) -> u64
    requires { server < length instance.now.servers }
    ensures cost { result ≡ cost_at (service_of costs.now instance.now) region.now server }
    ensures low { result ≤ GREATEST_COST }
{
    // The table of costs is within its limits.
    let _rows = costs.len();
    let (site, _, _, _) = instance.server(server);
    costs.find(region, instance.sites().name(site)).unwrap_or(0)
}

/// What a class costs.
pub(crate) fn class_cost(instance: &Instance, costs: &Costs, class: &Class) -> u128
    requires { AreThere (service_of costs.now instance.now) class.now.servers }
    ensures { result ≡ capped (class_cost (service_of costs.now instance.now) class.now) }
{
    let mut sum: u128 = 0;
    for (server, amount) in class.servers.iter().zip(&class.amounts) {
        let cost = u128::from(cost_at(instance, costs, &class.region, *server));
        sum = sum.saturating_add(cost * u128::from(*amount));
    }
    sum
}

/// What classes cost together.
pub(crate) fn class_costs(instance: &Instance, costs: &Costs, classes: &[Class]) -> u128
    requires { All (λ class. AreThere (service_of costs.now instance.now) class.servers)
        classes.now }
    ensures { result
        ≡ capped (sum_by (class_cost (service_of costs.now instance.now)) classes.now) }
{
    let mut sum: u128 = 0;
    for class in classes {
        sum = sum.saturating_add(class_cost(instance, costs, class));
    }
    sum
}
