// Classes of rows.

use std::marker::Model;

/// A class of rows: its region, its servers in ascending order, and how many queries go to each.
#[derive(Drop)]
pub struct Class {
    pub region: Vec<u8>,
    pub servers: Vec<u32>,
    pub amounts: Vec<u64>,
}

impl Model for Class {
    ghost use Rattle.hsp_price_text.specs.Claim.{Class};

    ghost Value = { Class };

    ghost view = { λ c. record {
      region = c.region.items;
      servers = c.servers.items;
      amounts = c.amounts.items;
    } };
}
