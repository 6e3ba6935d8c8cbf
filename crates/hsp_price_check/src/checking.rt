// The check of a certificate by prices, row by row.

ghost use Rattle.std.specs.Prelude.{◌≡◌, ◌⊎◌, ◌↔◌, ◌++◌, ◌∷◌, ◌<◌, ◌≤◌, ◌+◌, [], false, true};
ghost use Rattle.std.specs.Prelude.{All, IfErr, IfOk, IfSome, IsSome, IsTrue, List, OnOk, Some, length, slice_get};
ghost use Rattle.std.specs.List.{AllByRecursion, list_any};
ghost use Rattle.std.specs.Str.{bytes_eq};
ghost use Rattle.hsp_names.specs.Lent.{octets_of};
ghost use Rattle.hsp_instance.specs.Instance.{Row, regions_of};
ghost use Rattle.hsp_instance.specs.RowArcs.{IsWithin, row_named};
ghost use Rattle.hsp_prices.specs.Rows.{Service};
ghost use Rattle.hsp_price_text.specs.Claim.{Best};
ghost use Rattle.hsp_price_text.specs.declared.certificate.PriceCertificate.{PriceCertificate};
ghost use Rattle.hsp_price_text.specs.declared.certificate.PriceCertificate.TheVariants.{Plan, Shortage};
ghost use Rattle.hsp_tables.specs.Costs.{AreCosts, CostEntry};
ghost use Rattle.hsp_check.specs.Instance.{capacities_in, limits_in, server_hosts_in};
ghost use Rattle.hsp_prices.specs.Verdict.{IsVerdict, PlanMeets};
ghost use Rattle.hsp_prices.specs.declared.verdict.PriceReason.TheVariants.{NoSuchServer, Shape};
ghost use Rattle.hsp_prices.specs.declared.verdict.PriceVerdict.TheVariants.{Yes};
ghost use Rattle.hsp_price_check.specs.Checking.{HasTooMany, IsJudge, IsOfSomeRows, IsPassed, judged_plan};
ghost use Rattle.hsp_price_check.specs.PlanPass.{AreNumbersOf, IsOfRow, IsPlanPass};
ghost use Rattle.hsp_price_check.specs.Classes.{service_of};
ghost use Rattle.hsp_price_check.specs.Passed.{AreLoadsOf, capped};
ghost use Rattle.hsp_price_check.specs.Regions.{classes_sum, cost_by, region_cost, region_demand};
ghost use Rattle.hsp_price_check.specs.declared.fault.PassFault.TheVariants.{OutOfMemory, TooManyRegions};

use crate::capacity::capacity_of_set;
use crate::class_costs::{class_costs, class_loads};
use crate::extras::prices_with_hosts;
use crate::fault::PassFault;
use crate::finding::class_numbers;
use crate::numbers::{ServiceNumbers, service_numbers};
use crate::plan_pass::PlanPass;
use crate::regions::{RegionSums, add_classes, add_row};
use crate::set_pass::SetPass;
use crate::sums::PassSums;
use hsp_check::flags_of;
use hsp_instance::{Arc, Instance, RowArcs};
use hsp_names::HandleRef;
use hsp_price_text::{Class, PriceCertificate, PricedPlan, ShortServers};
use hsp_prices::{PriceReason, PriceVerdict};
use hsp_tables::Costs;
use hsp_text::limits::MOST_LOG_REGIONS;
use std::alloc::{AllocError, Global};

// Who judges a certificate.
#[derive(Drop)]
pub(crate) enum Judge<'a> {
    // A reason that stands whatever the rows are.
    Refused(PriceReason),
    Plan(PlanPass<'a>),
    Set(SetPass<'a>),
}

/// The check of a certificate by prices, in one pass over rows of any number. It holds servers, regions and classes,
/// and no rows.
#[derive(Drop)]
pub struct PriceCheck<'a> {
    instance: &'a Instance,
    costs: &'a Costs,
    arcs: RowArcs<'a>,
    regions: Vec<RegionSums>,
    judge: Judge<'a>,
}

/// Whether the servers of each class are below a number.
pub fn classes_have_servers(classes: &[Class], count: usize) -> bool
    ensures { IsTrue result ↔ All (λ class. All (λ j. j < count) class.servers) classes.now }
{
    for class in classes {
        if !class
            .servers
            .iter()
            .all(|server| (*server as usize) < count)
        {
            return false;
        }
    }
    true
}

// The pass for a plan whose prices and servers fit.
fn plan_pass<'a>(
    alloc: Global,
    instance: &Instance,
    costs: &Costs,
    numbers: ServiceNumbers,
    plan: &'a PricedPlan,
) -> Result<PlanPass<'a>, AllocError>
    requires costs { AreCosts costs.now }
    requires numbers { AreNumbersOf (service_of costs.now instance.now) numbers }
    requires shape { PlanMeets (service_of costs.now instance.now) [] plan.now Shape }
    requires there { PlanMeets (service_of costs.now instance.now) [] plan.now NoSuchServer }
    ensures { IfOk result (IsPlanPass (service_of costs.now instance.now) plan.now []) }
{
    // The plan and the instance are within their limits.
    let _cost = plan.cost();
    let _servers = instance.servers();
    let classes = plan.classes();
    let loads = class_loads(alloc, classes, numbers.capacities.len())?;
    let sums = PassSums {
        loads,
        cost: class_costs(instance, costs, classes),
        asked: vec![in alloc; 0u128; classes.len()]?,
        seen: vec![in alloc; false; classes.len()]?,
        placed: true,
    };
    let extras = prices_with_hosts(
        alloc,
        &numbers.server_hosts,
        plan.server_prices(),
        plan.host_prices(),
    )?;
    Ok(PlanPass {
        plan,
        numbers,
        extras,
        classes: class_numbers(alloc, classes)?,
        least: Vec::new(alloc),
        servers: Vec::new(alloc),
        sums,
    })
}

// Who judges a plan.
fn judge_of_plan<'a>(
    alloc: Global,
    instance: &Instance,
    costs: &Costs,
    plan: &'a PricedPlan,
) -> Result<Judge<'a>, AllocError>
    requires { AreCosts costs.now }
    ensures { IfOk result (IsJudge (service_of costs.now instance.now) (Plan plan.now) []) }
{
    let numbers = service_numbers(alloc, instance)?;
    if plan.server_prices().len() != numbers.capacities.len()
        || plan.host_prices().len() != numbers.limits.len()
    {
        return Ok(Judge::Refused(PriceReason::Shape));
    }
    if !classes_have_servers(plan.classes(), numbers.capacities.len()) {
        return Ok(Judge::Refused(PriceReason::NoSuchServer));
    }
    Ok(Judge::Plan(plan_pass(alloc, instance, costs, numbers, plan)?))
}

// Who judges a short set of servers.
fn judge_of_set<'a>(
    alloc: Global,
    instance: &Instance,
    set: &'a ShortServers,
) -> Result<Judge<'a>, AllocError>
    ensures { IfOk result (λ judge. (costs : List CostEntry)
        → IsJudge (service_of costs instance.now) (Shortage set.now) [] judge) }
{
    let numbers = service_numbers(alloc, instance)?;
    let Some(flags) = flags_of(alloc, set.servers(), numbers.capacities.len())? else {
        return Ok(Judge::Refused(PriceReason::NoSuchServer));
    };
    let capacity = capacity_of_set(alloc, &numbers, &flags)?;
    Ok(Judge::Set(SetPass {
        set,
        flags,
        capacity,
        demand: 0,
    }))
}

impl Judge<'_> {
    // Passes over a row of this region with these arcs, which asks for `count` queries, and returns what it costs by
    // the plan that is judged.
    fn add(&mut self, region: &[u8], arcs: &[Arc], count: u64) -> Result<u128, AllocError>
        requires judge { (at : Service) × (certificate : PriceCertificate) × (rows : List Row)
            × IsJudge at certificate rows self.old
            × AllByRecursion (IsWithin (length at.servers)) arcs.now }
        ensures passed { OnOk result ((at : Service) (certificate : PriceCertificate)
            (rows : List Row) (row : Row) → IsJudge at certificate rows self.old
            → IsOfRow at row region.now arcs.now count
            → IsJudge at certificate (rows ++ row ∷ []) self.new) }
        ensures cost { IfOk result (λ cost. (at : Service) (certificate : PriceCertificate)
            (rows : List Row) (row : Row) → IsJudge at certificate rows self.old
            → IsOfRow at row region.now arcs.now count
            → cost ≡ cost_by at (judged_plan self.old) row) }
        ensures plan { judged_plan self.new ≡ judged_plan self.old }
    {
        match self {
            Judge::Refused(_) => Ok(0),
            Judge::Plan(pass) => pass.add(region, arcs, count),
            Judge::Set(pass) => {
                pass.add(arcs, count);
                Ok(0)
            }
        }
    }

    // The verdict by the rows that were passed over.
    fn verdict(&self, alloc: Global) -> Result<PriceVerdict, AllocError>
        requires { (at : Service) × (certificate : PriceCertificate) × (rows : List Row)
            × IsJudge at certificate rows self.now }
        ensures { IfOk result (λ verdict. (at : Service) (certificate : PriceCertificate)
            (rows : List Row) → IsJudge at certificate rows self.now
            → IsVerdict at rows certificate verdict) }
    {
        match self {
            Judge::Refused(reason) => Ok(PriceVerdict::No(*reason)),
            Judge::Plan(pass) => pass.verdict(alloc),
            Judge::Set(pass) => Ok(pass.verdict()),
        }
    }
}

impl<'a> PriceCheck<'a> {
    /// The check of a certificate before the first row.
    ///
    /// ```
    /// // A service whose server 0 takes a query from r1 for 1, and the others one from r2.
    /// let text = b"HSPLAN PRICES 1\nPLAN\ncost 12\nserver 0 0\nserver 1 0\nserver 2 0\nEND\n";
    /// let certificate = read_prices(alloc, text)?;
    /// let mut check = PriceCheck::new(alloc, &instance, &costs, &certificate)?;
    /// check.add(alloc, b"r1", HandleRef::parse(b"10/1")?, 7)?;
    /// check.add(alloc, b"r2", HandleRef::parse(b"10/1")?, 5)?;
    /// assert!(rt; check.verdict(alloc)? == PriceVerdict::Yes);
    /// ```
    ///
    /// # Errors
    ///
    /// An `AllocError` where memory runs out.
    pub fn new(
        alloc: Global,
        instance: &'a Instance,
        costs: &'a Costs,
        certificate: &'a PriceCertificate,
    ) -> Result<PriceCheck<'a>, AllocError>
        ensures { IfOk result
            (IsPassed (service_of costs.now instance.now) certificate.now []) }
    {
        // The table of costs is within its limits.
        let _rows = costs.len();
        let judge = match certificate {
            PriceCertificate::Plan(plan) => judge_of_plan(alloc, instance, costs, plan)?,
            PriceCertificate::Shortage(set) => judge_of_set(alloc, instance, set)?,
        };
        Ok(PriceCheck {
            instance,
            costs,
            arcs: RowArcs::new(alloc, instance.sites(), costs),
            regions: Vec::new(alloc),
            judge,
        })
    }

    // Whether no row had the region, and there are as many regions as there may be.
    fn has_no_room(&self, region: &[u8]) -> bool
        ensures none { IsTrue result → (MOST_LOG_REGIONS ≤ length self.now.arcs.regions)
            × (list_any (bytes_eq region.now) self.now.arcs.regions ≡ false) }
        ensures room { result ≡ false
            → (list_any (bytes_eq region.now) self.now.arcs.regions ≡ true)
            ⊎ (length self.now.arcs.regions < MOST_LOG_REGIONS) }
    {
        self.arcs.regions() >= MOST_LOG_REGIONS && !self.arcs.knows(region)
    }

    /// Passes over a row. The region is a name, and the count a whole number.
    ///
    /// # Errors
    ///
    /// `TooManyRegions` where the rows have 4,097 regions with this one, and else `OutOfMemory` where memory runs out.
    /// After either the check judges no further row.
    pub fn add(
        &mut self,
        alloc: Global,
        region: &[u8],
        handle: HandleRef<'_>,
        count: u64,
    ) -> Result<(), PassFault>
        requires { IsOfSomeRows self.old }
        ensures passed { OnOk result ((at : Service) (certificate : PriceCertificate)
            (rows : List Row) → IsPassed at certificate rows self.old
            → IsPassed at certificate
            (rows ++ row_named region.now (octets_of handle.entry) count ∷ []) self.new) }
        ensures fault { IfErr result (λ fault. (fault ≡ OutOfMemory)
            ⊎ ((fault ≡ TooManyRegions)
            × ((at : Service) (certificate : PriceCertificate) (rows : List Row)
            → IsPassed at certificate rows self.old
            → HasTooMany (rows ++ row_named region.now (octets_of handle.entry) count ∷ [])))) }
    {
        if self.has_no_room(region) {
            return Err(PassFault::TooManyRegions);
        }
        let number = self.arcs.find(alloc, region, handle)?;
        let cost = self.judge.add(region, self.arcs.arcs(), count)?;
        add_row(&mut self.regions, number, count, cost)?;
        Ok(())
    }

    /// The verdict on the certificate, by the rows that were passed over.
    ///
    /// # Errors
    ///
    /// An `AllocError` where memory runs out.
    pub fn verdict(&self, alloc: Global) -> Result<PriceVerdict, AllocError>
        requires { IsOfSomeRows self.now }
        ensures { IfOk result (λ verdict. (at : Service) (certificate : PriceCertificate)
            (rows : List Row) → IsPassed at certificate rows self.now
            → IsVerdict at rows certificate verdict) }
    {
        self.judge.verdict(alloc)
    }

    /// What each server takes by the plan: what the rows with one least server and the classes bring to it. There are
    /// none for a short set, and for a plan against which a reason stands whatever the rows are. Loads above 2^128 - 1
    /// are kept as that.
    pub fn loads(&self) -> Option<&[u128]>
        ensures loads { IfSome result (λ loads. (at : Service) (certificate : PriceCertificate)
            (rows : List Row) → IsPassed at certificate rows self.now
            → (plan : Best) × (certificate ≡ Plan plan) × AreLoadsOf at plan rows loads.now) }
        ensures valid { (at : Service) (rows : List Row) (plan : Best)
            → IsPassed at (Plan plan) rows self.now → IsVerdict at rows (Plan plan) Yes
            → IsSome result }
    {
        match &self.judge {
            Judge::Plan(pass) => Some(pass.sums.loads.as_slice()),
            Judge::Refused(_) => None,
            Judge::Set(_) => None,
        }
    }

    /// How many regions the rows had.
    pub fn regions(&self) -> usize
        ensures known { result ≡ length self.now.arcs.regions }
        ensures rows { (at : Service) (certificate : PriceCertificate) (rows : List Row)
            → IsPassed at certificate rows self.now → result ≡ length (regions_of rows) }
    {
        self.arcs.regions()
    }

    // What the rows of a region cost, with what its classes cost by the plan that is judged.
    fn region_cost(&self, region: &[u8], rows_cost: u128) -> u128
        requires { IsOfSomeRows self.now }
        ensures { (at : Service) (certificate : PriceCertificate) (rows : List Row) (plan : Best)
            → IsPassed at certificate rows self.now → judged_plan self.now.judge ≡ Some plan
            → result ≡ capped (rows_cost + classes_sum at plan.classes region.now) }
    {
        match &self.judge {
            Judge::Plan(pass) => add_classes(
                self.instance,
                self.costs,
                pass.plan.classes(),
                region,
                rows_cost,
            ),
            Judge::Refused(_) => rows_cost,
            Judge::Set(_) => rows_cost,
        }
    }

    /// The name of the region with this number, which is below [`PriceCheck::regions`], what its rows ask for, and
    /// what its rows with one least server and its classes cost by a plan that is valid. Regions are numbered in the
    /// order in which the rows name them first. Sums above 2^128 - 1 are kept as that.
    pub fn region(&self, number: usize) -> (&[u8], u128, u128)
        requires passed { IsOfSomeRows self.now }
        requires number { number < length self.now.arcs.regions }
        ensures name { (at : Service) (certificate : PriceCertificate) (rows : List Row)
            → IsPassed at certificate rows self.now
            → slice_get (regions_of rows) number ≡ Some result.0.now }
        ensures demand { (at : Service) (certificate : PriceCertificate) (rows : List Row)
            → IsPassed at certificate rows self.now
            → result.1 ≡ capped (region_demand rows result.0.now) }
        ensures cost { (at : Service) (rows : List Row) (plan : Best)
            → IsPassed at (Plan plan) rows self.now → IsVerdict at rows (Plan plan) Yes
            → result.2 ≡ capped (region_cost at plan rows result.0.now) }
    {
        let name = self.arcs.region(number);
        let sums = self.regions[number];
        (name, sums.demand, self.region_cost(name, sums.cost))
    }
}
