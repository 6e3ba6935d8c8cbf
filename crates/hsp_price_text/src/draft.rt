// What was read of a text so far.

ghost use Rattle.std.specs.Prelude.{◌≡◌, IfOk, option_map};
ghost use Rattle.hsp_price_text.specs.Certificate.{IsCertificate};
ghost use Rattle.hsp_price_text.specs.Drafts.{behind_servers_step, body_step, capacity_step, class_step, cost_step};
ghost use Rattle.hsp_price_text.specs.Drafts.{demand_step};
ghost use Rattle.hsp_price_text.specs.Drafts.{claimed, fixed_step, has_ended, host_price_step, kind_step, plan_step};
ghost use Rattle.hsp_price_text.specs.Drafts.{priced, server_price_step, server_step, servers_step, start, step};
ghost use Rattle.hsp_cert.specs.Language.{Stepped};

use crate::certificate::{PriceCertificate, PricedPlan, ShortServers};
use crate::class::Class;
use crate::lexing::{class_in, one_behind, two_behind};
use crate::ranges::{LAST_SERVER, MOST_CLASSES, is_class, is_class_after};
use crate::stage::Stage;
use hsp_cert::ranges::{is_next, is_number_after};
use hsp_text::limits::{GREATEST_SUM, MOST_HOSTS, MOST_SERVERS};
use std::alloc::{AllocError, Global};
use std::marker::Model;

/// A certificate as far as its lines were read.
#[derive(Drop)]
pub(crate) struct Draft {
    stage: Stage,
    cost: u64,
    server_prices: Vec<u64>,
    host_prices: Vec<u64>,
    classes: Vec<Class>,
    servers: Vec<u32>,
    demand: u64,
    capacity: u64,
}

impl Model for Draft {
    ghost use Rattle.hsp_price_text.specs.Drafts.{Drafted};

    ghost Value = { Drafted };

    ghost view = { λ d. record {
      stage = d.stage;
      plan = record {
        cost = d.cost;
        server_prices = d.server_prices.items;
        host_prices = d.host_prices.items;
        classes = d.classes.items;
      };
      set = record {
        servers = d.servers.items;
        demand = d.demand;
        capacity = d.capacity;
      };
    } };
}

// Takes the line that says what follows: a plan, or a short set.
fn take_kind(draft: &mut Draft, line: &[u8]) -> bool
    ensures { Stepped draft.old (kind_step draft.old line.now) result draft.new }
{
    if line == b"PLAN".as_slice() {
        draft.stage = Stage::Cost;
        return true;
    }
    if line == b"SHORT".as_slice() {
        draft.stage = Stage::Servers;
        return true;
    }
    false
}

// Takes the cost of a plan.
fn take_cost(draft: &mut Draft, said: Option<u64>) -> bool
    ensures { Stepped draft.old (cost_step draft.old said) result draft.new }
{
    match said {
        Some(cost) if cost <= GREATEST_SUM => {
            draft.cost = cost;
            draft.stage = Stage::Body;
            true
        }
        _ => false,
    }
}

// Takes the price of a server.
fn take_server_price(draft: &mut Draft, said: Option<(u64, u64)>) -> Result<bool, AllocError>
    ensures { IfOk result (λ taken. Stepped draft.old
        (option_map (priced draft.old) (server_price_step draft.old.plan said)) taken draft.new) }
{
    let Some(said) = said else {
        return Ok(false);
    };
    if draft.host_prices.len() != 0
        || draft.classes.len() != 0
        || !is_next(MOST_SERVERS, &draft.server_prices, said.0, said.1)
    {
        return Ok(false);
    }
    draft.server_prices.push(said.1)?;
    Ok(true)
}

// Takes the price of a host.
fn take_host_price(draft: &mut Draft, said: Option<(u64, u64)>) -> Result<bool, AllocError>
    ensures { IfOk result (λ taken. Stepped draft.old
        (option_map (priced draft.old) (host_price_step draft.old.plan said)) taken draft.new) }
{
    let Some(said) = said else {
        return Ok(false);
    };
    if draft.classes.len() != 0 || !is_next(MOST_HOSTS, &draft.host_prices, said.0, said.1) {
        return Ok(false);
    }
    draft.host_prices.push(said.1)?;
    Ok(true)
}

// Takes a class.
fn take_class(draft: &mut Draft, said: Option<Class>) -> Result<bool, AllocError>
    ensures { IfOk result (λ taken. Stepped draft.old
        (option_map (priced draft.old) (class_step draft.old.plan said)) taken draft.new) }
{
    let Some(class) = said else {
        return Ok(false);
    };
    if draft.classes.len() >= MOST_CLASSES
        || !is_class(&class)
        || !is_class_after(draft.classes.last(), &class)
    {
        return Ok(false);
    }
    draft.classes.push(class)?;
    Ok(true)
}

// Takes the price of a host, or a class.
fn take_behind_servers(draft: &mut Draft, alloc: Global, line: &[u8]) -> Result<bool, AllocError>
    ensures { IfOk result (λ taken. Stepped draft.old
        (option_map (priced draft.old) (behind_servers_step draft.old.plan line.now))
        taken draft.new) }
{
    if take_host_price(draft, two_behind(alloc, b"host", line)?)? {
        return Ok(true);
    }
    take_class(draft, class_in(alloc, line)?)
}

// Takes a line between the cost and the end of a plan.
fn take_in_body(draft: &mut Draft, alloc: Global, line: &[u8]) -> Result<bool, AllocError>
    ensures { IfOk result (λ taken. Stepped draft.old
        (option_map (priced draft.old) (body_step draft.old.plan line.now)) taken draft.new) }
{
    if take_server_price(draft, two_behind(alloc, b"server", line)?)? {
        return Ok(true);
    }
    take_behind_servers(draft, alloc, line)
}

// Takes a line behind the cost of a plan.
fn take_in_plan(draft: &mut Draft, alloc: Global, line: &[u8]) -> Result<bool, AllocError>
    ensures { IfOk result (λ taken. Stepped draft.old
        (plan_step draft.old line.now) taken draft.new) }
{
    if line == b"END".as_slice() {
        draft.stage = Stage::PlanEnded;
        return Ok(true);
    }
    take_in_body(draft, alloc, line)
}

// Takes a server of a short set.
fn take_server(draft: &mut Draft, said: Option<u64>) -> Result<bool, AllocError>
    ensures { IfOk result (λ taken. Stepped draft.old
        (server_step draft.old said) taken draft.new) }
{
    let Some(server) = said else {
        return Ok(false);
    };
    if server > u64::from(LAST_SERVER)
        || !is_number_after(draft.servers.last().copied(), server as u32)
    {
        return Ok(false);
    }
    draft.servers.push(server as u32)?;
    Ok(true)
}

// Takes what the rows ask for that a short set catches.
fn take_demand(draft: &mut Draft, said: Option<u64>) -> bool
    ensures { Stepped draft.old (demand_step draft.old said) result draft.new }
{
    match said {
        Some(demand) if demand <= GREATEST_SUM => {
            draft.demand = demand;
            draft.stage = Stage::Capacity;
            true
        }
        _ => false,
    }
}

// Takes a line behind the kind of a short set.
fn take_in_set(draft: &mut Draft, alloc: Global, line: &[u8]) -> Result<bool, AllocError>
    ensures { IfOk result (λ taken. Stepped draft.old
        (servers_step draft.old line.now) taken draft.new) }
{
    if take_server(draft, one_behind(alloc, b"server", line)?)? {
        return Ok(true);
    }
    Ok(take_demand(draft, one_behind(alloc, b"demand", line)?))
}

// Takes what a short set takes.
fn take_capacity(draft: &mut Draft, said: Option<u64>) -> bool
    ensures { Stepped draft.old (capacity_step draft.old said) result draft.new }
{
    match said {
        Some(capacity) if capacity <= GREATEST_SUM => {
            draft.capacity = capacity;
            draft.stage = Stage::ShortageEnd;
            true
        }
        _ => false,
    }
}

// Takes a line that has to be this one.
fn take_fixed(draft: &mut Draft, line: &[u8], wanted: &[u8], next: Stage) -> bool
    ensures { Stepped draft.old (fixed_step draft.old line.now wanted.now next) result draft.new }
{
    if line != wanted {
        return false;
    }
    draft.stage = next;
    true
}

impl Draft {
    /// The draft before the first line.
    pub(crate) fn new(alloc: Global) -> Draft
        ensures { result ≡ start }
    {
        Draft {
            stage: Stage::Version,
            cost: 0,
            server_prices: Vec::new(alloc),
            host_prices: Vec::new(alloc),
            classes: Vec::new(alloc),
            servers: Vec::new(alloc),
            demand: 0,
            capacity: 0,
        }
    }

    /// Takes one more line, if it can stand in its place.
    pub(crate) fn take(&mut self, alloc: Global, line: &[u8]) -> Result<bool, AllocError>
        ensures { IfOk result (λ taken. Stepped self.old (step self.old line.now) taken self.new) }
    {
        match self.stage {
            Stage::Version => Ok(take_fixed(self, line, b"HSPLAN PRICES 1", Stage::Kind)),
            Stage::Kind => Ok(take_kind(self, line)),
            Stage::Cost => Ok(take_cost(self, one_behind(alloc, b"cost", line)?)),
            Stage::Body => take_in_plan(self, alloc, line),
            Stage::Servers => take_in_set(self, alloc, line),
            Stage::Capacity => Ok(take_capacity(self, one_behind(alloc, b"capacity", line)?)),
            Stage::ShortageEnd => Ok(take_fixed(self, line, b"END", Stage::ShortageEnded)),
            Stage::PlanEnded | Stage::ShortageEnded => Ok(false),
        }
    }

    /// Whether the line `END` was read.
    pub(crate) fn has_ended(&self) -> bool
        ensures { result ≡ has_ended self.now }
    {
        match self.stage {
            Stage::PlanEnded | Stage::ShortageEnded => true,
            _ => false,
        }
    }

    /// The certificate, once `END` was read.
    pub(crate) fn finished(self) -> PriceCertificate
        requires { IsCertificate (claimed self) }
        ensures { result ≡ claimed self }
    {
        match self.stage {
            Stage::PlanEnded => PriceCertificate::Plan(PricedPlan {
                cost: self.cost,
                server_prices: self.server_prices,
                host_prices: self.host_prices,
                classes: self.classes,
            }),
            _ => PriceCertificate::Shortage(ShortServers {
                servers: self.servers,
                demand: self.demand,
                capacity: self.capacity,
            }),
        }
    }
}
