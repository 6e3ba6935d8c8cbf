// The sites of an instance, by their records.

ghost use Rattle.std.specs.Prelude.{◌≡◌, ◌<◌, ◌≤◌, Some, length, option_map, slice_get, take};
ghost use Rattle.hsp_text.specs.declared.limits.TheConstants.{MOST_SERVERS};
ghost use Rattle.hsp_instance.specs.Instance.{AreSites, servers_of};

use hsp_hash::HashOption;
use std::marker::Model;

// A server of a site.
#[derive(Drop)]
pub(crate) struct SiteServer {
    pub(crate) id: u32,
    pub(crate) address: [u8; 16],
}

impl Model for SiteServer {
    ghost use Rattle.hsp_instance.specs.Instance.{SiteServer};

    ghost Value = { SiteServer };

    ghost view = { λ s. record { id = s.id; address = s.address } };
}

// A site.
#[derive(Drop)]
pub(crate) struct Site {
    pub(crate) name: Vec<u8>,
    pub(crate) option: HashOption,
    pub(crate) servers: Vec<SiteServer>,
}

impl Model for Site {
    ghost use Rattle.hsp_instance.specs.Instance.{Site};

    ghost Value = { Site };

    ghost view = { λ s. record {
      name = s.name.items;
      option = s.option;
      servers = s.servers.items;
    } };
}

/// Sites, each with a name, a hash option and one or more servers.
///
/// There are at most 32 sites, and they have at most 1,024 servers together.
#[derive(Drop)]
pub struct Sites {
    pub(crate) sites: Vec<Site>,
}

impl Model for Sites {
    ghost use Rattle.std.specs.Prelude.{List};
    ghost use Rattle.hsp_instance.specs.Instance.{AreSites, Site};

    ghost Value = { List Site };

    ghost view = { λ s. s.sites.items };

    ghost invariant = { λ s. AreSites s.sites.items };
}

impl Sites {
    ghost use Rattle.hsp_instance.specs.Instance.{Site, server_in};

    /// How many sites there are.
    pub fn len(&self) -> u32
        ensures count { result ≡ length self.now }
        // The sites are within their limits, and each has a server.
        ensures within { AreSites self.now }
    {
        self.sites.len() as u32
    }

    /// The name of the site with this number, which is below [`Sites::len`].
    pub fn name(&self, site: u32) -> &[u8]
        requires { site < length self.now }
        ensures { option_map (λ s. s.name) (slice_get self.now site) ≡ Some result.now }
    {
        let site = &self.sites[site as usize];
        site.name.as_slice()
    }

    /// The hash option of the site with this number, which is below [`Sites::len`].
    pub fn option(&self, site: u32) -> HashOption
        requires { site < length self.now }
        ensures { option_map (λ s. s.option) (slice_get self.now site) ≡ Some result }
    {
        let site = &self.sites[site as usize];
        site.option
    }

    /// How many servers the site with this number has. The number is below [`Sites::len`].
    pub fn server_count(&self, site: u32) -> u32
        requires { site < length self.now }
        ensures { option_map (λ s. length s.servers) (slice_get self.now site) ≡ Some result }
    {
        let site = &self.sites[site as usize];
        site.servers.len() as u32
    }

    /// The identifier of the server at a place of the site with this number. The number is below [`Sites::len`], and
    /// the place is below [`Sites::server_count`].
    pub fn server_id(&self, site: u32, place: u32) -> u32
        requires site { site < length self.now }
        requires place { (s : Site) → slice_get self.now site ≡ Some s → place < length s.servers }
        ensures { option_map (λ s. s.id) (server_in self.now site place) ≡ Some result }
    {
        let site = &self.sites[site as usize];
        let server = &site.servers[place as usize];
        server.id
    }

    /// The number, among all servers, of the first server of the site with this number, which is below [`Sites::len`].
    pub fn first_server(&self, site: u32) -> u32
        requires { site < length self.now }
        ensures first { result ≡ servers_of (take site self.now) }
        ensures within { result ≤ MOST_SERVERS }
    {
        let _ = &self.sites;
        let mut first: u32 = 0;
        for number in 0..site {
            first += self.server_count(number);
        }
        first
    }
}
