// A front of the dispatcher that answers by a certificate by prices.

ghost use Rattle.std.specs.Prelude.{◌≡◌, ◌≤◌, ◌<◌, IfErr, IfOk, OnErr, OnOk, length};
ghost use Rattle.hsp_log.specs.Entries.{query};
ghost use Rattle.hsp_price_check.specs.Classes.{service_of};
ghost use Rattle.hsp_price_dispatch.specs.Choosing.{LeadsWithin, answer_by, choice_for, left_by};
ghost use Rattle.hsp_price_dispatch.specs.Regions.{has_cost};
ghost use Rattle.hsp_price_dispatch.specs.Starting.{Fits, IsBegun, Stands};
ghost use Rattle.hsp_price_dispatch.specs.Taking.{CanTake};

use crate::answer::{Choice, PriceAnswer};
use crate::choosing::{Index, Scratch, assigned, choose, find_least};
use crate::fault::StartFault;
use crate::holding::Holding;
use crate::seen_least::{LentLeast, SeenLeast};
use crate::starting::{ServiceRef, accept, begin, index_of};
use hsp_instance::{Instance, RowArcs};
use hsp_log::Front;
use hsp_names::HandleRef;
use hsp_price_text::PricedPlan;
use hsp_tables::Costs;
use std::alloc::{AllocError, Global};
use std::marker::Model;

/// A front that answers queries for any handle by a certificate by prices. It has a share of each amount of a class,
/// and of the room that servers and hosts have beside these.
///
/// It remembers over which arcs at most 65,536 queries pay least, those whose region and handle have at most 256 octets
/// together. So it hashes none of these handles again, as long as one of these arcs can be taken. It also remembers
/// what the regions that have a cost pay at each site. The table of costs has at most 64 regions, so its memory is
/// bounded, whatever is asked. Of a region without a cost it remembers nothing.
#[derive(Drop)]
pub struct PriceDispatcher<'a> {
    arcs: RowArcs<'a>,
    seen: SeenLeast,
    holding: Holding<'a>,
    index: Index,
    scratch: Scratch,
}

impl<'a> Model for PriceDispatcher<'a> {
    ghost use Rattle.hsp_price_dispatch.specs.Holding.{Held};
    ghost use Rattle.hsp_price_dispatch.specs.SeenLeast.{HaveTheirLeast};
    ghost use Rattle.hsp_price_dispatch.specs.Standing.{IsIndexOf, IsOfService};

    ghost Value = { Held };

    ghost view = { λ d. d.holding };

    ghost invariant = { λ d. IsIndexOf d.holding d.index
        × IsOfService d.holding.service d.arcs
        × HaveTheirLeast d.holding.service d.holding.plan d.seen };
}

impl<'a> PriceDispatcher<'a> {
    /// A front before its first query, by a certificate by prices for the service of an instance and costs. Each of
    /// `front.fronts` fronts has its share of the plan: a single front is `Front { fronts: 1, number: 0 }`. The rows
    /// of the instance are not read.
    ///
    /// # Errors
    ///
    /// The first reason why the plan doesn't fit the service: Shape, NoSuchServer or Load. OutOfMemory where memory
    /// runs out.
    pub fn new(
        alloc: Global,
        instance: &'a Instance,
        costs: &'a Costs,
        plan: &'a PricedPlan,
        front: Front,
    ) -> Result<PriceDispatcher<'a>, StartFault>
        requires { front.number < front.fronts }
        ensures begun { IfOk result
            (IsBegun (service_of costs.now instance.now) plan.now front.fronts front.number) }
        ensures fits { IfOk result (λ _. Fits (service_of costs.now instance.now) plan.now) }
        ensures fault { IfErr result
            (Stands (service_of costs.now instance.now) plan.now) }
    {
        // The table of costs is within its limits.
        let _rows = costs.len();
        let accepted = accept(alloc, instance, plan)?;
        let index = index_of(alloc, plan, &accepted.numbers)?;
        let service = ServiceRef { instance, costs };
        let holding = begin(alloc, service, plan, accepted, front)?;
        Ok(PriceDispatcher {
            arcs: RowArcs::new(alloc, instance.sites(), costs),
            seen: SeenLeast::new(alloc),
            holding,
            index,
            scratch: Scratch {
                least: Vec::new(alloc),
                passing: Vec::new(alloc),
                servers: Vec::new(alloc),
            },
        })
    }

    // Whether a query from a region has a cost at a site. A region that is known has one.
    fn serves(&self, region: &[u8]) -> bool
        ensures { result ≡ has_cost self.now.service region.now }
    {
        self.arcs.knows(region) || self.holding.has_cost(region)
    }

    // What a query for a handle from a region is answered by, whose handle is hashed. Its least arcs are remembered,
    // but nothing is of a region that has no cost.
    fn choose_new(
        &mut self,
        alloc: Global,
        region: &[u8],
        handle: HandleRef<'_>,
    ) -> Result<Choice, AllocError>
        ensures choice { IfOk result
            (λ choice. choice ≡ choice_for self.old (query region.now handle.entry)) }
        ensures can { IfOk result (CanTake self.old) }
        ensures same { self.new ≡ self.old }
    {
        if !self.serves(region) {
            return Ok(Choice::Unknown);
        }
        self.arcs.find(alloc, region, handle)?;
        let arcs = self.arcs.arcs();
        let class = find_least(&self.index, &mut self.scratch, region, arcs)?;
        let least = LentLeast {
            arcs: &self.scratch.least,
            class,
        };
        self.seen.remember(alloc, region, handle.bytes(), least)?;
        choose(&self.holding, &self.index, &mut self.scratch, class, arcs)
    }

    // What a query for a handle from a region is answered by.
    fn choose_for(
        &mut self,
        alloc: Global,
        region: &[u8],
        handle: HandleRef<'_>,
    ) -> Result<Choice, AllocError>
        ensures choice { IfOk result
            (λ choice. choice ≡ choice_for self.old (query region.now handle.entry)) }
        ensures can { IfOk result (CanTake self.old) }
        ensures same { self.new ≡ self.old }
    {
        if let Some(least) = self.seen.find(region, handle.bytes()) {
            if let Some(choice) = assigned(&self.holding, &self.index, least) {
                return Ok(choice);
            }
        }
        self.choose_new(alloc, region, handle)
    }

    /// Answers a query for a handle from a region, and takes it from what the front has left. The region is a name.
    ///
    /// # Errors
    ///
    /// An `AllocError` where memory runs out. Then nothing is taken.
    pub fn assign(
        &mut self,
        alloc: Global,
        region: &[u8],
        handle: HandleRef<'_>,
    ) -> Result<PriceAnswer, AllocError>
        ensures answer { IfOk result
            (λ answer. answer ≡ answer_by self.old (query region.now handle.entry)) }
        ensures left { OnOk result (self.new ≡ left_by self.old (query region.now handle.entry)) }
        ensures stays { OnErr result (self.new ≡ self.old) }
        ensures within { IfOk result (LeadsWithin (length self.old.service.servers)) }
        ensures service { self.new.service ≡ self.old.service }
    {
        let choice = self.choose_for(alloc, region, handle)?;
        self.holding.take(choice);
        Ok(choice.answer())
    }
}
