// What was read of a text so far.

ghost use Rattle.std.specs.Prelude.{◌≡◌, IfOk};
ghost use Rattle.hsp_cert.specs.Drafts.{Took, may_use, may_row_price, may_server_price, may_host_price, may_row};
ghost use Rattle.hsp_cert.specs.Drafts.{use_in, row_in, use_step, row_price_step, server_price_step};
ghost use Rattle.hsp_cert.specs.Drafts.{host_price_step, body_step, rows_step};
ghost use Rattle.hsp_cert.specs.Certificate.{IsCertificate};
ghost use Rattle.hsp_cert.specs.Steps.{version_step, kind_step, cost_step, demand_step, capacity_step, head_step, step};
ghost use Rattle.hsp_cert.specs.Steps.{start, has_ended, claimed};

use crate::certificate::{Certificate, PricedPlan, ShortSet, Shown};
use crate::item::{Item, Word};
use crate::ranges::{LAST_ROW, LAST_SITE, is_after, is_next, is_number_after, is_row, is_use};
use crate::stage::Stage;
use crate::use_line::UseLine;
use crate::writing::version_of;
use hsp_text::limits::{GREATEST_SUM, MOST_DEMAND_ROWS, MOST_HOSTS, MOST_SERVERS};
use std::alloc::{AllocError, Global};
use std::marker::Model;

/// A certificate as far as its lines were read.
#[derive(Drop)]
pub(crate) struct Draft {
    pub(crate) stage: Stage,
    pub(crate) version: u64,
    pub(crate) plan: PricedPlan,
    pub(crate) set: ShortSet,
}

impl Model for Draft {
    ghost use Rattle.hsp_cert.specs.Drafts.{Drafted};

    ghost Value = { Drafted };

    ghost view = { λ d. record {
      stage = d.stage;
      version = d.version;
      plan = d.plan;
      set = d.set;
    } };
}

// Whether a use may follow what the plan holds.
fn may_use(plan: &PricedPlan, one: UseLine) -> bool
    ensures { result ≡ may_use plan.now one }
{
    plan.row_prices.len() == 0
        && plan.server_prices.len() == 0
        && plan.host_prices.len() == 0
        && is_use(one)
        && is_after(plan.uses.last().copied(), one)
}

// Whether the price of a row may follow.
fn may_row_price(plan: &PricedPlan, number: u64, price: u64) -> bool
    ensures { result ≡ may_row_price plan.now number price }
{
    plan.server_prices.len() == 0
        && plan.host_prices.len() == 0
        && is_next(MOST_DEMAND_ROWS, &plan.row_prices, number, price)
}

// Whether the price of a server may follow.
fn may_server_price(plan: &PricedPlan, number: u64, price: u64) -> bool
    ensures { result ≡ may_server_price plan.now number price }
{
    plan.host_prices.len() == 0 && is_next(MOST_SERVERS, &plan.server_prices, number, price)
}

// Whether the price of a host may follow.
fn may_host_price(version: u64, plan: &PricedPlan, number: u64, price: u64) -> bool
    ensures { result ≡ may_host_price version plan.now number price }
{
    version == 2 && is_next(MOST_HOSTS, &plan.host_prices, number, price)
}

// Whether a row may follow those of the set.
fn may_row(set: &ShortSet, row: u32) -> bool
    ensures { result ≡ may_row set.now row }
{
    is_row(row) && is_number_after(set.rows.last().copied(), row)
}

// A use whose row and site fit their fields.
fn use_in(row: u64, site: u64, count: u64) -> Option<UseLine>
    ensures { result ≡ use_in row site count }
{
    if row > u64::from(LAST_ROW) || site > u64::from(LAST_SITE) {
        return None;
    }
    Some(UseLine {
        row: row as u32,
        site: site as u32,
        count,
    })
}

// A row that fits its field.
fn row_in(row: u64) -> Option<u32>
    ensures { result ≡ row_in row }
{
    if row > u64::from(LAST_ROW) {
        return None;
    }
    Some(row as u32)
}

// Adds a use, and returns whether it may stand there.
fn take_use(plan: &mut PricedPlan, row: u64, site: u64, count: u64) -> Result<bool, AllocError>
    ensures { IfOk result
        (λ taken. Took (use_step plan.old (use_in row site count)) taken plan.new) }
{
    let Some(one) = use_in(row, site, count) else {
        return Ok(false);
    };
    if !may_use(plan, one) {
        return Ok(false);
    }
    plan.uses.push(one)?;
    Ok(true)
}

// Adds the price of a row, and returns whether it may stand there.
fn take_row_price(plan: &mut PricedPlan, number: u64, price: u64) -> Result<bool, AllocError>
    ensures { IfOk result (λ taken. Took (row_price_step plan.old number price) taken plan.new) }
{
    if !may_row_price(plan, number, price) {
        return Ok(false);
    }
    plan.row_prices.push(price)?;
    Ok(true)
}

// Adds the price of a server, and returns whether it may stand there.
fn take_server_price(plan: &mut PricedPlan, number: u64, price: u64) -> Result<bool, AllocError>
    ensures { IfOk result (λ taken. Took (server_price_step plan.old number price) taken plan.new) }
{
    if !may_server_price(plan, number, price) {
        return Ok(false);
    }
    plan.server_prices.push(price)?;
    Ok(true)
}

// Adds the price of a host, and returns whether it may stand there.
fn take_host_price(
    version: u64,
    plan: &mut PricedPlan,
    number: u64,
    price: u64,
) -> Result<bool, AllocError>
    ensures { IfOk result
        (λ taken. Took (host_price_step version plan.old number price) taken plan.new) }
{
    if !may_host_price(version, plan, number, price) {
        return Ok(false);
    }
    plan.host_prices.push(price)?;
    Ok(true)
}

// Takes a line between the cost and the end of a plan, where it can stand.
fn take_in_body(version: u64, plan: &mut PricedPlan, item: Item) -> Result<bool, AllocError>
    ensures { IfOk result (λ taken. Took (body_step version plan.old item) taken plan.new) }
{
    match item {
        Item::Three(Word::Use, row, site, count) => take_use(plan, row, site, count),
        Item::Two(Word::Row, number, price) => take_row_price(plan, number, price),
        Item::Two(Word::Server, number, price) => take_server_price(plan, number, price),
        Item::Two(Word::Host, number, price) => take_host_price(version, plan, number, price),
        _ => Ok(false),
    }
}

// Takes a row of a short set, where it can stand.
fn take_row(set: &mut ShortSet, item: Item) -> Result<bool, AllocError>
    ensures { IfOk result (λ taken. Took (rows_step set.old item) taken set.new) }
{
    let Item::One(Word::Row, row) = item else {
        return Ok(false);
    };
    let Some(row) = row_in(row) else {
        return Ok(false);
    };
    if !may_row(set, row) {
        return Ok(false);
    }
    set.rows.push(row)?;
    Ok(true)
}

// Takes the version, and returns whether it is known.
fn take_version(draft: &mut Draft, version: u64) -> bool
    ensures { Took (version_step draft.old version) result draft.new }
{
    if version != 1 && version != 2 {
        return false;
    }
    draft.version = version;
    draft.stage = Stage::Kind;
    true
}

// Takes the line that says that a shortage follows.
fn take_kind(draft: &mut Draft) -> bool
    ensures { Took (kind_step draft.old) result draft.new }
{
    if draft.version != 1 {
        return false;
    }
    draft.stage = Stage::Demand;
    true
}

// Takes the cost of a plan, and returns whether it is within its range.
fn take_cost(draft: &mut Draft, cost: u64) -> bool
    ensures { Took (cost_step draft.old cost) result draft.new }
{
    if cost > GREATEST_SUM {
        return false;
    }
    draft.plan.cost = cost;
    draft.stage = Stage::Body;
    true
}

// Takes the demand of a set, and returns whether it is within its range.
fn take_demand(draft: &mut Draft, demand: u64) -> bool
    ensures { Took (demand_step draft.old demand) result draft.new }
{
    if demand > GREATEST_SUM {
        return false;
    }
    draft.set.demand = demand;
    draft.stage = Stage::Capacity;
    true
}

// Takes the capacity that a set reaches, and returns whether it is within its range.
fn take_capacity(draft: &mut Draft, capacity: u64) -> bool
    ensures { Took (capacity_step draft.old capacity) result draft.new }
{
    if capacity > GREATEST_SUM {
        return false;
    }
    draft.set.capacity = capacity;
    draft.stage = Stage::Rows;
    true
}

// Takes a line above the lists, where it can stand.
fn take_head(draft: &mut Draft, item: Item) -> bool
    ensures { Took (head_step draft.old item) result draft.new }
{
    match (draft.stage, item) {
        (Stage::Version, Item::One(Word::Version, version)) => take_version(draft, version),
        (Stage::Kind, Item::Alone(Word::Plan)) => {
            draft.stage = Stage::Cost;
            true
        }
        (Stage::Kind, Item::Alone(Word::Shortage)) => take_kind(draft),
        (Stage::Cost, Item::One(Word::Cost, cost)) => take_cost(draft, cost),
        (Stage::Demand, Item::One(Word::Demand, demand)) => take_demand(draft, demand),
        (Stage::Capacity, Item::One(Word::Capacity, capacity)) => take_capacity(draft, capacity),
        _ => false,
    }
}

/// Takes the item of one more line, if it can stand in its place.
pub(crate) fn take(draft: &mut Draft, item: Item) -> Result<bool, AllocError>
    ensures { IfOk result (λ taken. Took (step draft.old item) taken draft.new) }
{
    match (draft.stage, item) {
        (Stage::Body, Item::Alone(Word::End)) => {
            if draft.version != version_of(&draft.plan.host_prices) {
                return Ok(false);
            }
            draft.stage = Stage::PlanEnded;
            Ok(true)
        }
        (Stage::Body, item) => take_in_body(draft.version, &mut draft.plan, item),
        (Stage::Rows, Item::Alone(Word::End)) => {
            draft.stage = Stage::ShortageEnded;
            Ok(true)
        }
        (Stage::Rows, item) => take_row(&mut draft.set, item),
        (_, item) => Ok(take_head(draft, item)),
    }
}

impl Draft {
    /// The draft before the first line.
    pub(crate) fn new(alloc: Global) -> Draft
        ensures { result ≡ start }
    {
        Draft {
            stage: Stage::Version,
            version: 0,
            plan: PricedPlan {
                cost: 0,
                uses: Vec::new(alloc),
                row_prices: Vec::new(alloc),
                server_prices: Vec::new(alloc),
                host_prices: Vec::new(alloc),
            },
            set: ShortSet {
                rows: Vec::new(alloc),
                demand: 0,
                capacity: 0,
            },
        }
    }

    /// Whether the line `END` was read.
    pub(crate) fn has_ended(&self) -> bool
        ensures { result ≡ has_ended self.now.stage }
    {
        match self.stage {
            Stage::PlanEnded | Stage::ShortageEnded => true,
            _ => false,
        }
    }

    /// The certificate, once `END` was read.
    pub(crate) fn finished(self) -> Certificate
        requires { IsCertificate (claimed self) }
        ensures { result ≡ claimed self }
    {
        let shown = match self.stage {
            Stage::PlanEnded => Shown::Plan(self.plan),
            _ => Shown::Shortage(self.set),
        };
        Certificate { shown }
    }
}
