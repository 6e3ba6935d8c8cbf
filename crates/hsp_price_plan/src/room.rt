// What servers and hosts have room for beside the rows that keep one arc only.
//
// Such rows have no choice, and are most of all. Those of a server, as one source of the network, would fill much of it
// at once, and first prices would swing. So they take their room before.

use crate::lists::{get_or, lower};
use crate::terms::Terms;
use hsp_price_check::ServiceNumbers;
use std::alloc::{AllocError, Global};

/// What is left of capacities and limits, and of the servers' loads.
#[derive(Drop)]
pub(crate) struct Room {
    pub(crate) capacities: Vec<u64>,
    pub(crate) limits: Vec<u64>,
    pub(crate) loads: Vec<u64>,
}

impl Room {
    /// The same part of all capacities and limits, less the loads. Of loads that don't fit the rest is left.
    pub(crate) fn new(
        alloc: Global,
        numbers: &ServiceNumbers,
        loads: &[u64],
        terms: Terms,
    ) -> Result<Room, AllocError> {
        let mut room = Room {
            capacities: terms.of_each(alloc, &numbers.capacities)?,
            limits: terms.of_each(alloc, &numbers.limits)?,
            loads: loads.to_vec(alloc)?,
        };
        for server in 0..loads.len() {
            room.take(server, get_or(&numbers.server_hosts, server, None));
        }
        Ok(room)
    }

    // Lets a server take its load, as far as it and its host have room.
    fn take(&mut self, server: usize, host: Option<u32>) {
        let hosted = match host {
            Some(host) => get_or(&self.limits, host as usize, 0),
            None => u64::MAX,
        };
        let room = get_or(&self.capacities, server, 0).min(hosted);
        let taken = get_or(&self.loads, server, 0).min(room);
        lower(&mut self.loads, server, taken);
        lower(&mut self.capacities, server, taken);
        if let Some(host) = host {
            lower(&mut self.limits, host as usize, taken);
        }
    }
}
