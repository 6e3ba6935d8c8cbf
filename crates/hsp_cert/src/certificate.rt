// Certificates, seen as what they claim.

ghost use Rattle.std.specs.Prelude.{◌≡◌, IfSome};

use crate::ranges::{are_ascending, are_numbers_ascending, are_prices, are_rows, are_uses};
use crate::use_line::UseLine;
use hsp_text::limits::{GREATEST_SUM, MOST_DEMAND_ROWS, MOST_HOSTS, MOST_SERVERS};
use std::marker::Model;

// A plan with its prices.
#[derive(Drop)]
pub(crate) struct PricedPlan {
    pub(crate) cost: u64,
    pub(crate) uses: Vec<UseLine>,
    pub(crate) row_prices: Vec<u64>,
    pub(crate) server_prices: Vec<u64>,
    pub(crate) host_prices: Vec<u64>,
}

impl Model for PricedPlan {
    ghost use Rattle.hsp_cert.specs.Certificate.{Best};

    ghost Value = { Best };

    ghost view = { λ p. record {
      cost = p.cost;
      uses = p.uses.items;
      row_prices = p.row_prices.items;
      server_prices = p.server_prices.items;
      host_prices = p.host_prices.items;
    } };
}

// A set of rows with what it asks for and what it can reach.
#[derive(Drop)]
pub(crate) struct ShortSet {
    pub(crate) rows: Vec<u32>,
    pub(crate) demand: u64,
    pub(crate) capacity: u64,
}

impl Model for ShortSet {
    ghost use Rattle.hsp_cert.specs.Certificate.{Short};

    ghost Value = { Short };

    ghost view = { λ s. record { rows = s.rows.items; demand = s.demand; capacity = s.capacity } };
}

#[derive(Drop)]
pub(crate) enum Shown {
    Plan(PricedPlan),
    Shortage(ShortSet),
}

/// A plan with its prices, or a short set of rows with its sums. Its numbers are always within the orders and ranges of
/// a certificate's text.
#[derive(Drop)]
pub struct Certificate {
    pub(crate) shown: Shown,
}

impl Model for Certificate {
    ghost use Rattle.hsp_cert.specs.Certificate.{Claim, IsCertificate};

    ghost Value = { Claim };

    ghost use Rattle.hsp_cert.specs.Shown.{claim_of};

    ghost view = { λ c. claim_of c.shown };

    ghost invariant = { λ c. IsCertificate (claim_of c.shown) };
}

/// The plan of a certificate, lent.
#[derive(Drop)]
pub struct BestRef<'a> {
    plan: &'a PricedPlan,
}

impl<'a> Model for BestRef<'a> {
    ghost use Rattle.hsp_cert.specs.Certificate.{Best, IsBest};

    ghost Value = { Best };

    ghost view = { λ r. r.plan.now };

    ghost invariant = { λ r. IsBest r.plan.now };
}

/// The short set of a certificate, lent.
#[derive(Drop)]
pub struct ShortRef<'a> {
    set: &'a ShortSet,
}

impl<'a> Model for ShortRef<'a> {
    ghost use Rattle.hsp_cert.specs.Certificate.{Short, IsShort};

    ghost Value = { Short };

    ghost view = { λ r. r.set.now };

    ghost invariant = { λ r. IsShort r.set.now };
}

impl PricedPlan {
    ghost use Rattle.hsp_cert.specs.Certificate.{is_best};

    // Whether all numbers are in order and within their ranges.
    fn is_in_range(&self) -> bool
        ensures { result ≡ is_best self.now }
    {
        self.cost <= GREATEST_SUM
            && are_uses(&self.uses)
            && are_ascending(&self.uses)
            && are_prices(&self.row_prices, MOST_DEMAND_ROWS)
            && are_prices(&self.server_prices, MOST_SERVERS)
            && are_prices(&self.host_prices, MOST_HOSTS)
    }
}

impl ShortSet {
    ghost use Rattle.hsp_cert.specs.Certificate.{is_short};

    // Whether all numbers are in order and within their ranges.
    fn is_in_range(&self) -> bool
        ensures { result ≡ is_short self.now }
    {
        are_rows(&self.rows)
            && are_numbers_ascending(&self.rows)
            && self.demand <= GREATEST_SUM
            && self.capacity <= GREATEST_SUM
    }
}

impl Certificate {
    ghost use Rattle.hsp_cert.specs.Certificate.{Makes, IsBest, IsShort, best_of, short_of};
    ghost use Rattle.hsp_cert.specs.Certificate.Claim.{best, short};
    ghost use Rattle.std.specs.Prelude.{[]};

    /// A plan whose uses are in order of row and site, with the prices of its rows and servers, or None exactly where
    /// an order or a range is broken.
    pub fn best(
        cost: u64,
        uses: Vec<UseLine>,
        row_prices: Vec<u64>,
        server_prices: Vec<u64>,
    ) -> Option<Certificate>
        ensures { Makes (best (record {
          cost = cost;
          uses = uses.items;
          row_prices = row_prices.items;
          server_prices = server_prices.items;
          host_prices = [];
        })) result }
    {
        let host_prices = Vec::new(*uses.allocator());
        Certificate::best_with_hosts(cost, uses, row_prices, server_prices, host_prices)
    }

    /// As [`Certificate::best`], and with the prices of hosts.
    pub fn best_with_hosts(
        cost: u64,
        uses: Vec<UseLine>,
        row_prices: Vec<u64>,
        server_prices: Vec<u64>,
        host_prices: Vec<u64>,
    ) -> Option<Certificate>
        ensures { Makes (best (record {
          cost = cost;
          uses = uses.items;
          row_prices = row_prices.items;
          server_prices = server_prices.items;
          host_prices = host_prices.items;
        })) result }
    {
        let plan = PricedPlan {
            cost,
            uses,
            row_prices,
            server_prices,
            host_prices,
        };
        if !plan.is_in_range() {
            return None;
        }
        Some(Certificate {
            shown: Shown::Plan(plan),
        })
    }

    /// A short set of rows, which are in order, with what they ask for and what they can reach, or None exactly where
    /// an order or a range is broken.
    pub fn short(rows: Vec<u32>, demand: u64, capacity: u64) -> Option<Certificate>
        ensures { Makes (short (record {
          rows = rows.items;
          demand = demand;
          capacity = capacity;
        })) result }
    {
        let set = ShortSet {
            rows,
            demand,
            capacity,
        };
        if !set.is_in_range() {
            return None;
        }
        Some(Certificate {
            shown: Shown::Shortage(set),
        })
    }

    /// The plan, if the certificate shows one.
    pub fn as_best(&self) -> Option<BestRef<'_>>
        ensures plan { result ≡ best_of self.now }
        ensures ranges { IfSome result IsBest }
    {
        match &self.shown {
            Shown::Plan(plan) => Some(BestRef { plan }),
            Shown::Shortage(_) => None,
        }
    }

    /// The short set, if the certificate shows one.
    pub fn as_short(&self) -> Option<ShortRef<'_>>
        ensures set { result ≡ short_of self.now }
        ensures ranges { IfSome result IsShort }
    {
        match &self.shown {
            Shown::Plan(_) => None,
            Shown::Shortage(set) => Some(ShortRef { set }),
        }
    }
}

impl<'a> BestRef<'a> {
    /// What the plan costs.
    pub fn cost(&self) -> u64
        ensures { result ≡ self.now.cost }
    {
        let plan = self.plan;
        plan.cost
    }

    /// How many queries of which row go to which site, in order of row and site.
    pub fn uses(&self) -> &'a [UseLine]
        ensures { result.now ≡ self.now.uses }
    {
        let plan = self.plan;
        &plan.uses
    }

    /// The price of each row.
    pub fn row_prices(&self) -> &'a [u64]
        ensures { result.now ≡ self.now.row_prices }
    {
        let plan = self.plan;
        &plan.row_prices
    }

    /// The price of each server.
    pub fn server_prices(&self) -> &'a [u64]
        ensures { result.now ≡ self.now.server_prices }
    {
        let plan = self.plan;
        &plan.server_prices
    }

    /// The price of each host.
    pub fn host_prices(&self) -> &'a [u64]
        ensures { result.now ≡ self.now.host_prices }
    {
        let plan = self.plan;
        &plan.host_prices
    }
}

impl<'a> ShortRef<'a> {
    /// The rows, in ascending order.
    pub fn rows(&self) -> &'a [u32]
        ensures { result.now ≡ self.now.rows }
    {
        let set = self.set;
        &set.rows
    }

    /// What the rows ask for together.
    pub fn demand(&self) -> u64
        ensures { result ≡ self.now.demand }
    {
        let set = self.set;
        set.demand
    }

    /// What all that the rows can reach can take together.
    pub fn capacity(&self) -> u64
        ensures { result ≡ self.now.capacity }
    {
        let set = self.set;
        set.capacity
    }
}
