// The hosts and the servers of an instance.

ghost use Rattle.std.specs.Prelude.{◌≡◌, ◌≤◌, ◌<◌, ◌+◌, ◌⊎◌, ◌∷◌, ◌++◌, [], Ok, Err, Some, length, map, option_map};
ghost use Rattle.std.specs.Prelude.{slice_get, OnOk, IfOk, IfErr};
ghost use Rattle.std.specs.List.{position_from};
ghost use Rattle.hsp_tables.specs.Settings.{AreSettings};
ghost use Rattle.hsp_text.specs.declared.limits.TheConstants.{MOST_HOSTS, MOST_SERVERS};
ghost use Rattle.hsp_instance.specs.declared.fault.BuildFault.TheVariants.{OutOfMemory};
ghost use Rattle.hsp_instance.specs.Building.{host_of_entry, is_at, servers_from, servers_with};
ghost use Rattle.hsp_instance.specs.Instance.{AreSites};

use crate::fault::BuildFault;
use crate::instance::{Host, Server};
use crate::sites::Site;
use hsp_tables::{Capacities, Settings};
use std::alloc::{AllocError, Global};

// The hosts of the settings.
#[tactic(auto, using(crate::proofs::Lists::take_whole))]
pub(crate) fn hosts_of(alloc: Global, settings: &Settings) -> Result<Vec<Host>, AllocError>
    ensures hosts { IfOk result (λ v. v.items ≡ map host_of_entry settings.now.hosts) }
    // The settings are within their limits.
    ensures within { AreSettings settings.now }
{
    let mut hosts = Vec::new(alloc);
    for number in 0..settings.host_count() {
        let (address, limit) = settings.host(number);
        hosts.push(Host { address, limit })?;
    }
    Ok(hosts)
}

// The number of the host of an address.
fn host_of(hosts: &[Host], address: &[u8; 16]) -> Option<u32>
    requires { length hosts.now ≤ MOST_HOSTS }
    ensures { result ≡ position_from (is_at address.now) 0 hosts.now }
{
    for (number, host) in hosts.iter().enumerate() {
        if host.address.as_slice() == address.as_slice() {
            return Some(number as u32);
        }
    }
    None
}

// Adds the servers of a site.
fn push_servers(
    servers: &mut Vec<Server>,
    capacities: &Capacities,
    hosts: &[Host],
    number: u32,
    site: &Site,
) -> Result<(), BuildFault>
    requires hosts { length hosts.now ≤ MOST_HOSTS }
    requires few { length site.now.servers ≤ MOST_SERVERS }
    ensures ok { OnOk result
        (servers_with capacities.now hosts.now number servers.old.items site.now
        ≡ Ok servers.new.items) }
    ensures err { IfErr result (λ e. (e ≡ OutOfMemory)
        ⊎ (servers_with capacities.now hosts.now number servers.old.items site.now ≡ Err e)) }
{
    for (place, own) in site.servers.iter().enumerate() {
        let Some(capacity) = capacities.find(site.name.as_slice(), own.id) else {
            return Err(BuildFault::NoCapacity {
                site: number,
                server_id: own.id,
            });
        };
        servers.push(Server {
            site: number,
            place: place as u32,
            id: own.id,
            capacity,
            host: host_of(hosts, &own.address),
        })?;
    }
    Ok(())
}

// The servers of sites, which have at most 1,024 servers.
pub(crate) fn servers_of(
    alloc: Global,
    sites: &[Site],
    capacities: &Capacities,
    hosts: &[Host],
) -> Result<Vec<Server>, BuildFault>
    requires hosts { length hosts.now ≤ MOST_HOSTS }
    requires sites { AreSites sites.now }
    ensures ok { IfOk result
        (λ v. servers_from capacities.now hosts.now 0 [] sites.now ≡ Ok v.items) }
    ensures err { IfErr result (λ e.
        (e ≡ OutOfMemory) ⊎ (servers_from capacities.now hosts.now 0 [] sites.now ≡ Err e)) }
{
    let mut servers = Vec::new(alloc);
    for (number, site) in sites.iter().enumerate() {
        push_servers(&mut servers, capacities, hosts, number as u32, site)?;
    }
    Ok(servers)
}
