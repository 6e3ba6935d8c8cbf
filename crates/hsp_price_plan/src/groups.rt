// Rows joined by their regions and the servers of their kept arcs: what a network has as sources.

use crate::lists::{between, get_or, increase, mixed, number_of, set};
use hsp_instance::Arc;
use std::alloc::{AllocError, Global};

/// Groups, each with its region, its servers and costs, and what its rows ask for together. Rows that keep only one arc
/// are in none: what they ask for is a load of their server.
#[derive(Drop)]
pub(crate) struct Groups {
    regions: Vec<u32>,
    demands: Vec<u64>,
    starts: Vec<usize>,
    servers: Vec<u32>,
    costs: Vec<u64>,
    loads: Vec<u64>,
    slots: Vec<u32>,
    key: u64,
}

// A slot of the table, and the group that has the key, where there is one.
#[derive(Clone, Copy, Drop)]
struct Found {
    slot: usize,
    group: Option<usize>,
}

// A number by which groups are found, with a key.
fn hash_of(key: u64, region: u32, arcs: &[Arc]) -> u64 {
    let mut hash = mixed(key ^ u64::from(region));
    for arc in arcs {
        hash = mixed(hash ^ u64::from(arc.server).wrapping_add(65_536));
    }
    hash
}

// The slot of a hash among so many, which are a power of two.
fn slot_of(hash: u64, slots: usize) -> usize {
    hash as usize & slots.saturating_sub(1)
}

// Whether arcs lead to these servers, in this order.
fn lead_to(arcs: &[Arc], servers: &[u32]) -> bool {
    for place in 0..arcs.len() {
        if arcs[place].server != get_or(servers, place, u32::MAX) {
            return false;
        }
    }
    arcs.len() == servers.len()
}

impl Groups {
    /// No groups over so many servers, to be found by a hash with this key.
    pub(crate) fn new(alloc: Global, servers: usize, key: u64) -> Result<Groups, AllocError> {
        Ok(Groups {
            regions: Vec::new(alloc),
            demands: Vec::new(alloc),
            starts: vec![in alloc; 0; 1]?,
            servers: Vec::new(alloc),
            costs: Vec::new(alloc),
            loads: vec![in alloc; 0; servers]?,
            slots: vec![in alloc; 0; 65_536]?,
            key,
        })
    }

    /// How many groups there are.
    pub(crate) fn len(&self) -> usize {
        self.regions.len()
    }

    /// What a group asks for.
    pub(crate) fn demand(&self, group: usize) -> u64 {
        get_or(&self.demands, group, 0)
    }

    /// The servers of a group.
    pub(crate) fn servers_of(&self, group: usize) -> &[u32] {
        let end = get_or(&self.starts, group.saturating_add(1), 0);
        between(&self.servers, get_or(&self.starts, group, 0), end)
    }

    /// What a query of a group costs at each of its servers.
    pub(crate) fn costs_of(&self, group: usize) -> &[u64] {
        let end = get_or(&self.starts, group.saturating_add(1), 0);
        between(&self.costs, get_or(&self.starts, group, 0), end)
    }

    /// For each server what rows ask for that only keep the arc to it.
    pub(crate) fn loads(&self) -> &[u64] {
        &self.loads
    }

    // Whether a group has the region and the servers.
    fn is_of(&self, group: usize, region: u32, arcs: &[Arc]) -> bool {
        get_or(&self.regions, group, u32::MAX) == region && lead_to(arcs, self.servers_of(group))
    }

    // Where the group of a region and servers is, or may be put.
    fn find(&self, region: u32, arcs: &[Arc]) -> Found {
        let mut slot = slot_of(hash_of(self.key, region, arcs), self.slots.len());
        for _ in 0..self.slots.len() {
            let number = get_or(&self.slots, slot, 0);
            if number == 0 {
                return Found { slot, group: None };
            }
            let group = (number as usize).saturating_sub(1);
            if self.is_of(group, region, arcs) {
                return Found {
                    slot,
                    group: Some(group),
                };
            }
            slot = slot_of((slot as u64).wrapping_add(1), self.slots.len());
        }
        Found { slot, group: None }
    }

    /// Adds a row of a region with its kept arcs, which asks for `count` queries.
    pub(crate) fn add(
        &mut self,
        alloc: Global,
        region: usize,
        arcs: &[Arc],
        count: u64,
    ) -> Result<(), AllocError> {
        if arcs.len() == 1 {
            let server = get_or(
                arcs,
                0,
                Arc {
                    site: 0,
                    server: 0,
                    cost: 0,
                },
            )
            .server;
            increase(&mut self.loads, server as usize, count);
            return Ok(());
        }
        let found = self.find(number_of(region), arcs);
        match found.group {
            Some(group) => increase(&mut self.demands, group, count),
            None => self.push(alloc, found.slot, number_of(region), arcs, count)?,
        }
        Ok(())
    }

    // Puts a group behind the others, with its number in a slot.
    fn push(
        &mut self,
        alloc: Global,
        slot: usize,
        region: u32,
        arcs: &[Arc],
        count: u64,
    ) -> Result<(), AllocError> {
        for arc in arcs {
            self.servers.push(arc.server)?;
            self.costs.push(arc.cost)?;
        }
        self.regions.push(region)?;
        self.demands.push(count)?;
        self.starts.push(self.servers.len())?;
        let number = number_of(self.len());
        set(&mut self.slots, slot, number);
        if self.len() > self.slots.len() / 2 {
            self.spread(alloc)?;
        }
        Ok(())
    }

    // The hash of a group.
    fn hash(&self, group: usize) -> u64 {
        let mut hash = mixed(self.key ^ u64::from(get_or(&self.regions, group, 0)));
        for server in self.servers_of(group) {
            hash = mixed(hash ^ u64::from(*server).wrapping_add(65_536));
        }
        hash
    }

    // Puts the number of a group into the first free slot from that of its hash on.
    fn put(slots: &mut [u32], hash: u64, number: u32) {
        let mut slot = slot_of(hash, slots.len());
        for _ in 0..slots.len() {
            if get_or(slots, slot, 0) == 0 {
                set(slots, slot, number);
                return;
            }
            slot = slot_of((slot as u64).wrapping_add(1), slots.len());
        }
    }

    // Makes the table twice as large.
    fn spread(&mut self, alloc: Global) -> Result<(), AllocError> {
        let mut slots = vec![in alloc; 0; self.slots.len().saturating_mul(2)]?;
        for group in 0..self.len() {
            let number = number_of(group.saturating_add(1));
            Groups::put(&mut slots, self.hash(group), number);
        }
        self.slots = slots;
        Ok(())
    }
}
