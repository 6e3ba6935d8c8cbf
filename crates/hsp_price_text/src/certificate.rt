// Certificates by prices: of a plan that is best, or of a set of servers that is short.

ghost use Rattle.std.specs.Prelude.{◌≡◌, true};

use crate::class::Class;
use crate::ranges::{MOST_CLASSES, are_classes, are_classes_ascending, are_servers};
use hsp_cert::ranges::are_prices;
use hsp_text::limits::{GREATEST_SUM, MOST_HOSTS, MOST_SERVERS};
use std::marker::Model;

/// A plan by prices and classes. Its numbers are always within the orders and ranges of a certificate's text.
#[derive(Drop)]
pub struct PricedPlan {
    pub(crate) cost: u64,
    pub(crate) server_prices: Vec<u64>,
    pub(crate) host_prices: Vec<u64>,
    pub(crate) classes: Vec<Class>,
}

impl Model for PricedPlan {
    ghost use Rattle.std.specs.Prelude.{◌≡◌, true};
    ghost use Rattle.hsp_price_text.specs.Claim.{Best, is_best};

    ghost Value = { Best };

    ghost view = { λ p. record {
      cost = p.cost;
      server_prices = p.server_prices.items;
      host_prices = p.host_prices.items;
      classes = p.classes.items;
    } };

    ghost invariant = { λ p. is_best (record {
      cost = p.cost;
      server_prices = p.server_prices.items;
      host_prices = p.host_prices.items;
      classes = p.classes.items;
    }) ≡ true };
}

/// A set of servers, what the rows ask for that can go nowhere else, and what the set takes. Its numbers are always
/// within the orders and ranges of a certificate's text.
#[derive(Drop)]
pub struct ShortServers {
    pub(crate) servers: Vec<u32>,
    pub(crate) demand: u64,
    pub(crate) capacity: u64,
}

impl Model for ShortServers {
    ghost use Rattle.std.specs.Prelude.{◌≡◌, true};
    ghost use Rattle.hsp_price_text.specs.Claim.{Short, is_short};

    ghost Value = { Short };

    ghost view = { λ s. record {
      servers = s.servers.items;
      demand = s.demand;
      capacity = s.capacity;
    } };

    ghost invariant = { λ s. is_short (record {
      servers = s.servers.items;
      demand = s.demand;
      capacity = s.capacity;
    }) ≡ true };
}

/// A certificate by prices.
#[derive(Drop)]
pub enum PriceCertificate {
    Plan(PricedPlan),
    Shortage(ShortServers),
}

impl PricedPlan {
    ghost use Rattle.hsp_price_text.specs.Claim.{if_best, is_best};

    /// A plan, or None exactly where an order or a range is broken.
    pub fn new(
        cost: u64,
        server_prices: Vec<u64>,
        host_prices: Vec<u64>,
        classes: Vec<Class>,
    ) -> Option<PricedPlan>
        ensures { result ≡ if_best (record {
          cost = cost;
          server_prices = server_prices.items;
          host_prices = host_prices.items;
          classes = classes.items;
        }) }
    {
        let in_range = cost <= GREATEST_SUM
            && are_prices(&server_prices, MOST_SERVERS)
            && are_prices(&host_prices, MOST_HOSTS)
            && classes.len() <= MOST_CLASSES
            && are_classes(&classes)
            && are_classes_ascending(&classes);
        if !in_range {
            return None;
        }
        Some(PricedPlan {
            cost,
            server_prices,
            host_prices,
            classes,
        })
    }

    /// What the plan costs.
    pub fn cost(&self) -> u64
        ensures cost { result ≡ self.now.cost }
        ensures within { is_best self.now ≡ true }
    {
        self.cost
    }

    /// The price of each server.
    pub fn server_prices(&self) -> &[u64]
        ensures { result.now ≡ self.now.server_prices }
    {
        &self.server_prices
    }

    /// The price of each host.
    pub fn host_prices(&self) -> &[u64]
        ensures { result.now ≡ self.now.host_prices }
    {
        &self.host_prices
    }

    /// The classes, by the regions' names and then by the servers.
    pub fn classes(&self) -> &[Class]
        ensures { result.now ≡ self.now.classes }
    {
        &self.classes
    }
}

impl ShortServers {
    ghost use Rattle.hsp_price_text.specs.Claim.{if_short, is_short};

    /// A set of servers, or None exactly where an order or a range is broken.
    pub fn new(servers: Vec<u32>, demand: u64, capacity: u64) -> Option<ShortServers>
        ensures { result ≡ if_short (record {
          servers = servers.items;
          demand = demand;
          capacity = capacity;
        }) }
    {
        if !are_servers(&servers) || demand > GREATEST_SUM || capacity > GREATEST_SUM {
            return None;
        }
        Some(ShortServers {
            servers,
            demand,
            capacity,
        })
    }

    /// The servers, in ascending order.
    pub fn servers(&self) -> &[u32]
        ensures servers { result.now ≡ self.now.servers }
        ensures within { is_short self.now ≡ true }
    {
        &self.servers
    }

    /// What the rows ask for together that can go nowhere else.
    pub fn demand(&self) -> u64
        ensures { result ≡ self.now.demand }
    {
        self.demand
    }

    /// What the servers take together, those of a host no more than its limit.
    pub fn capacity(&self) -> u64
        ensures { result ≡ self.now.capacity }
    {
        self.capacity
    }
}
