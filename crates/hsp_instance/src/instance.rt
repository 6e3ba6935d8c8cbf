// An instance and its parts.

ghost use Rattle.std.specs.Prelude.{◌≡◌, ◌<◌, Some, length, option_map, position, slice_get};
ghost use Rattle.std.specs.List.{sum_by};
ghost use Rattle.hsp_instance.specs.Instance.{IsInstance, has_keys};

use crate::arc::Arc;
use crate::sites::Sites;
use hsp_tables::Demand;
use std::marker::Model;

// A server.
#[derive(Drop)]
pub(crate) struct Server {
    pub(crate) site: u32,
    pub(crate) place: u32,
    pub(crate) id: u32,
    pub(crate) capacity: u64,
    pub(crate) host: Option<u32>,
}

impl Model for Server {
    ghost use Rattle.hsp_instance.specs.Instance.{Server};

    ghost Value = { Server };

    ghost view = { λ s. record {
      site = s.site;
      place = s.place;
      id = s.id;
      capacity = s.capacity;
      host = s.host;
    } };
}

// A host.
#[derive(Drop)]
pub(crate) struct Host {
    pub(crate) address: [u8; 16],
    pub(crate) limit: u64,
}

impl Model for Host {
    ghost use Rattle.hsp_instance.specs.Instance.{Host};

    ghost Value = { Host };

    ghost view = { λ h. record { address = h.address; limit = h.limit } };
}

// The arcs of a row.
#[derive(Drop)]
pub(crate) struct ArcList {
    pub(crate) arcs: Vec<Arc>,
}

impl Model for ArcList {
    ghost use Rattle.std.specs.Prelude.{List};
    ghost use Rattle.hsp_instance.specs.declared.arc.Arc.{Arc};

    ghost Value = { List Arc };

    ghost view = { λ a. a.arcs.items };
}

/// An instance: rows of demand, sites and their servers, hosts, and for each row its arcs.
///
/// There are at most 8,192 rows, 32 sites, 1,024 servers and 1,024 hosts.
#[derive(Drop)]
pub struct Instance {
    pub(crate) demand: Demand,
    pub(crate) sites: Sites,
    pub(crate) servers: Vec<Server>,
    pub(crate) hosts: Vec<Host>,
    pub(crate) arcs: Vec<ArcList>,
}

impl Model for Instance {
    ghost use Rattle.std.specs.Prelude.{map};
    ghost use Rattle.hsp_instance.specs.Building.{row_of};
    ghost use Rattle.hsp_instance.specs.Instance.{Instance, IsInstance};

    ghost Value = { Instance };

    ghost view = { λ i. record {
      rows = map row_of i.demand;
      sites = i.sites;
      servers = i.servers.items;
      hosts = i.hosts.items;
      arcs = i.arcs.items;
    } };

    ghost invariant = { λ i. IsInstance (record {
      rows = map row_of i.demand;
      sites = i.sites;
      servers = i.servers.items;
      hosts = i.hosts.items;
      arcs = i.arcs.items;
    }) };
}

impl Instance {
    /// How many rows there are.
    pub fn rows(&self) -> u32
        ensures count { result ≡ length self.now.rows }
        // The instance is within its limits.
        ensures within { IsInstance self.now }
    {
        self.demand.len()
    }

    /// The region, the handle and the count of the row with this number, which is below [`Instance::rows`].
    pub fn row(&self, row: u32) -> (&[u8], &[u8], u64)
        requires { row < length self.now.rows }
        ensures { slice_get self.now.rows row
            ≡ Some (record { region = result.0.now; handle = result.1.now; count = result.2 }) }
    {
        self.demand.octets(row)
    }

    /// The sites.
    pub fn sites(&self) -> &Sites
        ensures sites { result.now ≡ self.now.sites }
        ensures within { IsInstance self.now }
    {
        &self.sites
    }

    /// How many servers there are. The servers of each site come after those of the sites before it, in the order of
    /// the site's record.
    pub fn servers(&self) -> u32
        ensures count { result ≡ length self.now.servers }
        ensures within { IsInstance self.now }
    {
        self.servers.len() as u32
    }

    /// The number of the site, the place there, the identifier and the capacity of the server with this number, which
    /// is below [`Instance::servers`].
    pub fn server(&self, server: u32) -> (u32, u32, u32, u64)
        requires { server < length self.now.servers }
        ensures site { option_map (λ s. s.site) (slice_get self.now.servers server)
            ≡ Some result.0 }
        ensures place { option_map (λ s. s.place) (slice_get self.now.servers server)
            ≡ Some result.1 }
        ensures id { option_map (λ s. s.id) (slice_get self.now.servers server) ≡ Some result.2 }
        ensures capacity { option_map (λ s. s.capacity) (slice_get self.now.servers server)
            ≡ Some result.3 }
    {
        let server = &self.servers[server as usize];
        (server.site, server.place, server.id, server.capacity)
    }

    /// The number of the host that the server stands on, or None where it stands on no listed host. The server's number
    /// is below [`Instance::servers`].
    pub fn host_of(&self, server: u32) -> Option<u32>
        requires { server < length self.now.servers }
        ensures { option_map (λ s. s.host) (slice_get self.now.servers server) ≡ Some result }
    {
        let server = &self.servers[server as usize];
        server.host
    }

    /// How many hosts there are.
    pub fn hosts(&self) -> u32
        ensures count { result ≡ length self.now.hosts }
        ensures within { IsInstance self.now }
    {
        self.hosts.len() as u32
    }

    /// The address and the limit of the host with this number, which is below [`Instance::hosts`].
    pub fn host(&self, host: u32) -> ([u8; 16], u64)
        requires { host < length self.now.hosts }
        ensures { slice_get self.now.hosts host
            ≡ Some (record { address = result.0; limit = result.1 }) }
    {
        let host = &self.hosts[host as usize];
        (host.address, host.limit)
    }

    /// The arcs of the row with this number, in ascending order of their sites. The number is below [`Instance::rows`].
    pub fn arcs(&self, row: u32) -> &[Arc]
        requires { row < length self.now.rows }
        ensures { slice_get self.now.arcs row ≡ Some result.now }
    {
        let list = &self.arcs[row as usize];
        list.arcs.as_slice()
    }

    /// How many arcs all rows have together.
    pub fn arc_count(&self) -> usize
        ensures { result ≡ sum_by (λ arcs. length arcs) self.now.arcs }
    {
        let mut count: usize = 0;
        for row in 0..self.rows() {
            count += self.arcs(row).len();
        }
        count
    }

    /// The number of the row with this region and handle, or None where there is no such row.
    pub fn find_row(&self, region: &[u8], handle: &[u8]) -> Option<u32>
        ensures { result ≡ position (has_keys region.now handle.now) self.now.rows }
    {
        self.demand.find(region, handle)
    }
}
