// The certificate of a flow that meets every row.

ghost use Rattle.std.specs.Prelude.{◌≡◌, ℕ, ◌+◌, ◌*◌, ◌<◌, ◌≤◌, ◌^◌, ◌++◌, IfOk, OnOk, length, map, slice_index};
ghost use Rattle.hsp_text.specs.declared.limits.TheConstants.{GREATEST_COST};
ghost use Rattle.hsp_cert.specs.Certificate.{IsBest};
ghost use Rattle.hsp_cert.specs.Certificate.Claim.{best};
ghost use Rattle.hsp_instance.specs.Instance.{IsInstance};
ghost use Rattle.hsp_check.specs.Instance.{arc_of, arcs_from, network_of};
ghost use Rattle.hsp_check.specs.Valid.{IsValid};
ghost use Rattle.hsp_network.specs.Answer.{IsMet};
ghost use Rattle.hsp_flow.specs.Planning.{HasLimitedPrices, cost_of, transport_of, uses_of};
ghost use Rattle.hsp_network.specs.Sums.{sum_below};

use hsp_cert::{Certificate, UseLine};
use hsp_instance::{Arc, Instance};
use hsp_network::PricedFlow;
use std::alloc::{AllocError, Global};

// Appends the uses of the arcs of a row.
fn push_uses(
    uses: &mut Vec<UseLine>,
    row: u32,
    arcs: &[Arc],
    flows: &[u64],
) -> Result<(), AllocError>
    requires many { length flows.now ≡ length arcs.now }
    ensures { OnOk result
        (uses.new.items ≡ uses.old.items ++ uses_of (map (arc_of row) arcs.now) flows.now) }
{
    for place in 0..arcs.len() {
        let count = flows[place];
        if count != 0 {
            uses.push(UseLine {
                row,
                site: arcs[place].site,
                count,
            })?;
        }
    }
    Ok(())
}

// The uses of the arcs that have flow.
fn uses_of(alloc: Global, instance: &Instance, flows: &[u64]) -> Result<Vec<UseLine>, AllocError>
    requires many { length flows.now ≡ length (arcs_from 0 instance.now.arcs) }
    ensures { IfOk result
        (λ uses. uses.items ≡ uses_of (arcs_from 0 instance.now.arcs) flows.now) }
{
    let used = flows.iter().filter(|flow| **flow != 0).count();
    let mut uses = Vec::with_capacity(alloc, used)?;
    let mut rest = flows;
    for row in 0..instance.rows() {
        let arcs = instance.arcs(row);
        let (own, more) = rest.split_at(arcs.len());
        push_uses(&mut uses, row, arcs, own)?;
        rest = more;
    }
    Ok(uses)
}

// What the flow of an arc costs.
fn cost_of(cost: u64, flow: u64) -> u128
    requires { cost ≤ GREATEST_COST }
    ensures cost { result ≡ cost * flow }
    ensures fits { result ≤ 2 ^ 84 }
{
    u128::from(cost) * u128::from(flow)
}

// What the flow costs.
fn total_of(costs: &[u64], flows: &[u64]) -> u128
    requires many { length flows.now ≡ length costs.now }
    requires few { length costs.now < 2 ^ 32 }
    requires cheap { (k : ℕ) → k < length costs.now → slice_index costs.now k ≤ GREATEST_COST }
    ensures { result ≡ sum_below (length costs.now)
        (λ k. slice_index costs.now k * slice_index flows.now k) }
{
    let mut total: u128 = 0;
    for place in 0..costs.len() {
        total += cost_of(costs[place], flows[place]);
    }
    total
}

// The certificate with these numbers, which are in order and within their ranges.
fn certificate_of(
    cost: u64,
    uses: Vec<UseLine>,
    row_prices: Vec<u64>,
    server_prices: Vec<u64>,
    host_prices: Vec<u64>,
) -> Certificate
    requires { IsBest (record {
      cost = cost;
      uses = uses.items;
      row_prices = row_prices.items;
      server_prices = server_prices.items;
      host_prices = host_prices.items;
    }) }
    ensures { result ≡ best (record {
      cost = cost;
      uses = uses.items;
      row_prices = row_prices.items;
      server_prices = server_prices.items;
      host_prices = host_prices.items;
    }) }
{
    Certificate::best_with_hosts(cost, uses, row_prices, server_prices, host_prices).unwrap()
}

/// The certificate of a plan.
pub(crate) fn plan_certificate(
    alloc: Global,
    instance: &Instance,
    costs: &[u64],
    plan: PricedFlow,
) -> Result<Certificate, AllocError>
    requires costs { costs.now ≡ map cost_of (arcs_from 0 instance.now.arcs) }
    requires within { IsInstance instance.now }
    requires met { IsMet (transport_of instance.now) plan }
    ensures valid { IfOk result (IsValid (network_of instance.now)) }
    ensures low { IfOk result (HasLimitedPrices (network_of instance.now)) }
{
    let uses = uses_of(alloc, instance, &plan.flows)?;
    let cost = total_of(costs, &plan.flows) as u64;
    Ok(certificate_of(
        cost,
        uses,
        plan.source_prices,
        plan.server_prices,
        plan.host_prices,
    ))
}
