// The planner: for every instance a certificate that is valid.

ghost use Rattle.std.specs.Prelude.{◌≡◌, IfOk};
ghost use Rattle.hsp_instance.specs.Instance.{IsInstance};
ghost use Rattle.hsp_check.specs.Instance.{network_of};
ghost use Rattle.hsp_check.specs.Shown.{HasBestPlan, HasEqualSums, HasNoPlan};
ghost use Rattle.hsp_check.specs.Valid.{IsValid};
ghost use Rattle.hsp_network.specs.Answer.{Answers, IsShortSet};
ghost use Rattle.hsp_network.specs.Problem.{problem_of};
ghost use Rattle.hsp_flow.specs.Lists.{transport_in};
ghost use Rattle.hsp_flow.specs.Nodes.{MayHaveNodesOf};
ghost use Rattle.hsp_flow.specs.Planning.{HasLimitedPrices, transport_of};

use crate::amounts::{TransportLists, lists_of};
use crate::certify::plan_certificate;
use crate::shortfall::short_certificate;
use hsp_cert::Certificate;
use hsp_instance::Instance;
use hsp_network::{Effort, Frontier, Network, Outcome, SearchEffort, minimum_cost_flow};
use std::alloc::{AllocError, Global};

// The network whose sources are the rows.
fn row_network<'a>(instance: &Instance, rows: &'a TransportLists) -> Network<'a>
    requires within { IsInstance instance.now }
    requires rows { transport_in rows.now ≡ transport_of instance.now }
    ensures { problem_of result ≡ transport_of instance.now }
{
    Network {
        demands: &rows.demands,
        capacities: &rows.capacities,
        limits: &rows.limits,
        hosts: &rows.hosts,
        sources: &rows.arcs.sources,
        servers: &rows.arcs.servers,
        costs: &rows.arcs.costs,
    }
}

// The certificate of a short set of the rows.
fn certify_short(
    alloc: Global,
    instance: &Instance,
    rows: &TransportLists,
    set: &[bool],
) -> Result<Certificate, AllocError>
    requires within { IsInstance instance.now }
    requires rows { transport_in rows.now ≡ transport_of instance.now }
    requires short { IsShortSet (transport_of instance.now) set.now }
    ensures valid { IfOk result (IsValid (network_of instance.now)) }
    ensures low { IfOk result (HasLimitedPrices (network_of instance.now)) }
{
    let network = row_network(instance, rows);
    short_certificate(alloc, instance, &network, set)
}

// What becomes of the rows' network, each row a source of its own.
fn solve_rows<F: Frontier>(
    alloc: Global,
    instance: &Instance,
    rows: &TransportLists,
    effort: &mut SearchEffort,
) -> Result<Outcome, AllocError>
    requires within { IsInstance instance.now }
    requires rows { transport_in rows.now ≡ transport_of instance.now }
    requires nodes { MayHaveNodesOf F.may_have instance.now }
    ensures { IfOk result (Answers (transport_of instance.now)) }
{
    let network = row_network(instance, rows);
    minimum_cost_flow::<F>(alloc, &network, effort)
}

// What becomes of the rows' network: what is proposed, where it is accepted, and otherwise what the loop of searches
// finds.
fn solve_proposed_rows(
    alloc: Global,
    instance: &Instance,
    rows: &TransportLists,
    effort: &mut Effort,
) -> Result<Outcome, AllocError>
    requires within { IsInstance instance.now }
    requires rows { transport_in rows.now ≡ transport_of instance.now }
    ensures { IfOk result (Answers (transport_of instance.now)) }
{
    let network = row_network(instance, rows);
    hsp_network::solve(alloc, &network, effort)
}

// The certificate of what becomes of the rows' network.
fn certify(
    alloc: Global,
    instance: &Instance,
    rows: &TransportLists,
    outcome: Outcome,
) -> Result<Certificate, AllocError>
    requires within { IsInstance instance.now }
    requires rows { transport_in rows.now ≡ transport_of instance.now }
    requires answers { Answers (transport_of instance.now) outcome }
    ensures valid { IfOk result (IsValid (network_of instance.now)) }
    ensures low { IfOk result (HasLimitedPrices (network_of instance.now)) }
    ensures best { IfOk result (HasBestPlan (network_of instance.now)) }
    ensures prices { IfOk result (HasEqualSums (network_of instance.now)) }
    ensures none { IfOk result (HasNoPlan (network_of instance.now)) }
{
    match outcome {
        Outcome::Met(plan) => plan_certificate(alloc, instance, &rows.arcs.costs, plan),
        Outcome::Short(set) => certify_short(alloc, instance, rows, &set),
    }
}

/// Does as [`solve_with`], and adds the work that it took to `effort`. No clause speaks of those counts.
///
/// # Errors
///
/// An `AllocError` where memory runs out.
pub fn solve_counted<F: Frontier>(
    alloc: Global,
    instance: &Instance,
    effort: &mut Effort,
) -> Result<Certificate, AllocError>
    requires nodes { MayHaveNodesOf F.may_have instance.now }
    ensures valid { IfOk result (IsValid (network_of instance.now)) }
    ensures low { IfOk result (HasLimitedPrices (network_of instance.now)) }
    ensures best { IfOk result (HasBestPlan (network_of instance.now)) }
    ensures prices { IfOk result (HasEqualSums (network_of instance.now)) }
    ensures none { IfOk result (HasNoPlan (network_of instance.now)) }
{
    let rows = lists_of(alloc, instance)?;
    let outcome = solve_rows::<F>(alloc, instance, &rows, &mut effort.searching)?;
    certify(alloc, instance, &rows, outcome)
}

/// A valid certificate for the instance: a plan that meets every row within all capacities and limits at the least
/// cost, with prices that show it, or a short set of rows.
///
/// `F` is the frontier of the searches. Its nodes are the rows, the servers, the hosts and one more.
///
/// No price is above N + 1 times the greatest cost of an arc, where N counts the rows, servers and hosts.
///
/// # Errors
///
/// An `AllocError` where memory runs out.
pub fn solve_with<F: Frontier>(
    alloc: Global,
    instance: &Instance,
) -> Result<Certificate, AllocError>
    requires nodes { MayHaveNodesOf F.may_have instance.now }
    ensures valid { IfOk result (IsValid (network_of instance.now)) }
    ensures low { IfOk result (HasLimitedPrices (network_of instance.now)) }
    ensures best { IfOk result (HasBestPlan (network_of instance.now)) }
    ensures prices { IfOk result (HasEqualSums (network_of instance.now)) }
    ensures none { IfOk result (HasNoPlan (network_of instance.now)) }
{
    let mut effort = Effort::default();
    solve_counted::<F>(alloc, instance, &mut effort)
}

/// Does as [`solve`], and adds the work that it took to `effort`. No clause speaks of those counts.
///
/// # Errors
///
/// An `AllocError` where memory runs out.
pub fn solve_proposed(
    alloc: Global,
    instance: &Instance,
    effort: &mut Effort,
) -> Result<Certificate, AllocError>
    ensures valid { IfOk result (IsValid (network_of instance.now)) }
    ensures low { IfOk result (HasLimitedPrices (network_of instance.now)) }
    ensures best { IfOk result (HasBestPlan (network_of instance.now)) }
    ensures prices { IfOk result (HasEqualSums (network_of instance.now)) }
    ensures none { IfOk result (HasNoPlan (network_of instance.now)) }
{
    let rows = lists_of(alloc, instance)?;
    let outcome = solve_proposed_rows(alloc, instance, &rows, effort)?;
    certify(alloc, instance, &rows, outcome)
}

/// Does as [`solve_with`] with [`HeapFrontier`], but takes what the network simplex method proposes where the test
/// accepts it.
///
/// ```
/// // The instance is that of the example of `hsp_instance::build`.
/// let certificate = solve(alloc, &instance)?;
/// assert!(rt; certificate.as_best().is_some_and(|plan| plan.cost() == 17));
/// assert!(rt; check(alloc, &instance, &certificate)? == Verdict::Yes);
/// ```
///
/// # Errors
///
/// An `AllocError` where memory runs out.
pub fn solve(alloc: Global, instance: &Instance) -> Result<Certificate, AllocError>
    ensures valid { IfOk result (IsValid (network_of instance.now)) }
    ensures low { IfOk result (HasLimitedPrices (network_of instance.now)) }

    // The plan of the uses is best: no feasible plan costs less.
    ensures best { IfOk result (HasBestPlan (network_of instance.now)) }

    // What the rows pay is the cost and what servers and hosts take.
    ensures prices { IfOk result (HasEqualSums (network_of instance.now)) }

    // Where the certificate is of a short set no plan is feasible.
    ensures none { IfOk result (HasNoPlan (network_of instance.now)) }
{
    let mut effort = Effort::default();
    solve_proposed(alloc, instance, &mut effort)
}
