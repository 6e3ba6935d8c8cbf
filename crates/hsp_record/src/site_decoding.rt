// Reading HS_SITE data into memory. A server record takes memory only after it was found whole.

ghost use Rattle.std.specs.Prelude.{◌≡◌, List, [], Ok};
ghost use Rattle.hsp_record.specs.Site.{Interface};
ghost use Rattle.hsp_text.specs.Answers.{Gives};
ghost use Rattle.hsp_record.specs.Reading.{Finds, Reads, times_at, list_at, attribute_at, interface_at, server_at};
ghost use Rattle.hsp_record.specs.Reading.{head_at, server_count_at, servers_at, site_at};

use crate::fault::{ReadError, Stop};
use crate::reading::{read_address, read_octet, read_pair, read_run, read_u16, read_u32};
use crate::site::{Attribute, ServerRecord, ServiceInterface, SiteRecord};
use hsp_text::limits::MOST_SERVERS;
use std::alloc::Global;

#[tactic(auto, unfolding(crate::specs::Reading::interface_at))]
fn read_interface(bytes: &[u8]) -> Result<(ServiceInterface, &[u8]), Stop>
    ensures { Gives (λ x. (x.0, x.1.now)) result (interface_at bytes.now) }
{
    let (service_type, rest) = read_octet(bytes)?;
    let (protocol, rest) = read_octet(rest)?;
    let (port, rest) = read_u32(rest)?;
    Ok((
        ServiceInterface {
            service_type,
            protocol,
            port,
        },
        rest,
    ))
}

// What follows that many interfaces.
fn skip_interfaces(count: u32, bytes: &[u8]) -> Result<&[u8], Stop>
    ensures { Finds (λ rest read. read.1 ≡ rest.now) result
        (times_at interface_at count bytes.now) }
{
    let mut rest = bytes;
    for _ in 0..count {
        let (_, after) = read_interface(rest)?;
        rest = after;
    }
    Ok(rest)
}

fn read_interfaces(
    alloc: Global,
    count: u32,
    bytes: &[u8],
) -> Result<(Vec<ServiceInterface>, &[u8]), ReadError>
    ensures { Reads (λ x. (x.0.items, x.1.now)) result (times_at interface_at count bytes.now) }
{
    let mut interfaces = Vec::new(alloc);
    let mut rest = bytes;
    for _ in 0..count {
        let (interface, after) = read_interface(rest)?;
        interfaces.push(interface)?;
        rest = after;
    }
    Ok((interfaces, rest))
}

// A server record that was found whole, lent.
#[derive(Clone, Copy)]
struct FoundServer<'a> {
    id: u32,
    address: [u8; 16],
    key: &'a [u8],
    interface_count: u32,
    /// The interfaces, and what follows them.
    interfaces: &'a [u8],
}

// Finds a server record whole, and takes no memory.
#[tactic(auto, unfolding(crate::specs::Reading::server_at, crate::specs::Reading::list_at))]
fn find_server(bytes: &[u8]) -> Result<(FoundServer<'_>, &[u8]), Stop>
    ensures { Finds (λ x read. (times_at interface_at x.0.interface_count x.0.interfaces.now ≡ Ok
        (read.0.interfaces, x.1.now)) × (read ≡ (
          record {
            id = x.0.id;
            address = x.0.address;
            key = x.0.key.now;
            interfaces = read.0.interfaces;
          },
          x.1.now,
        ))) result
        (server_at bytes.now) }
{
    let (id, rest) = read_u32(bytes)?;
    let (address, rest) = read_address(rest)?;
    let (key, rest) = read_run(rest)?;
    let (interface_count, interfaces) = read_u32(rest)?;
    let rest = skip_interfaces(interface_count, interfaces)?;
    Ok((
        FoundServer {
            id,
            address,
            key,
            interface_count,
            interfaces,
        },
        rest,
    ))
}

fn read_server(alloc: Global, bytes: &[u8]) -> Result<(ServerRecord, &[u8]), ReadError>
    ensures { Reads (λ x. (x.0, x.1.now)) result (server_at bytes.now) }
{
    let (found, rest) = find_server(bytes)?;
    let key = Vec::from_slice(alloc, found.key)?;
    let (interfaces, _) = read_interfaces(alloc, found.interface_count, found.interfaces)?;
    Ok((
        ServerRecord {
            id: found.id,
            address: found.address,
            key,
            interfaces,
        },
        rest,
    ))
}

#[tactic(auto, unfolding(crate::specs::Reading::attribute_at))]
fn read_attribute(alloc: Global, bytes: &[u8]) -> Result<(Attribute, &[u8]), ReadError>
    ensures { Reads (λ x. (x.0, x.1.now)) result (attribute_at bytes.now) }
{
    let (name, rest) = read_run(bytes)?;
    let (value, rest) = read_run(rest)?;
    let name = Vec::from_slice(alloc, name)?;
    let value = Vec::from_slice(alloc, value)?;
    Ok((Attribute { name, value }, rest))
}

fn read_attributes(
    alloc: Global,
    count: u32,
    bytes: &[u8],
) -> Result<(Vec<Attribute>, &[u8]), ReadError>
    ensures { Reads (λ x. (x.0.items, x.1.now)) result (times_at attribute_at count bytes.now) }
{
    let mut attributes = Vec::new(alloc);
    let mut rest = bytes;
    for _ in 0..count {
        let (attribute, after) = read_attribute(alloc, rest)?;
        attributes.push(attribute)?;
        rest = after;
    }
    Ok((attributes, rest))
}

fn read_servers(
    alloc: Global,
    count: u32,
    bytes: &[u8],
) -> Result<(Vec<ServerRecord>, &[u8]), ReadError>
    ensures { Reads (λ x. (x.0.items, x.1.now)) result (times_at server_at count bytes.now) }
{
    let mut servers = Vec::new(alloc);
    let mut rest = bytes;
    for _ in 0..count {
        let (server, after) = read_server(alloc, rest)?;
        servers.push(server)?;
        rest = after;
    }
    Ok((servers, rest))
}

// The fields before the number of servers, with the filter lent.
#[derive(Drop)]
struct Head<'a> {
    version: u16,
    protocol: (u8, u8),
    serial: u16,
    mask: u8,
    option: u8,
    filter: &'a [u8],
    attributes: Vec<Attribute>,
}

#[tactic(auto, unfolding(crate::specs::Reading::head_at, crate::specs::Reading::list_at))]
fn read_head(alloc: Global, bytes: &[u8]) -> Result<(Head<'_>, &[u8]), ReadError>
    ensures { Reads (λ x. (
      record {
        version = x.0.version;
        major = x.0.protocol.0;
        minor = x.0.protocol.1;
        serial = x.0.serial;
        mask = x.0.mask;
        option = x.0.option;
        filter = x.0.filter.now;
        attributes = x.0.attributes.items;
        servers = [];
      },
      x.1.now,
    )) result
        (head_at bytes.now) }
{
    let (version, rest) = read_u16(bytes)?;
    let (protocol, rest) = read_pair(rest)?;
    let (serial, rest) = read_u16(rest)?;
    let (mask, rest) = read_octet(rest)?;
    let (option, rest) = read_octet(rest)?;
    let (filter, rest) = read_run(rest)?;
    let (attribute_count, rest) = read_u32(rest)?;
    let (attributes, rest) = read_attributes(alloc, attribute_count, rest)?;
    Ok((
        Head {
            version,
            protocol,
            serial,
            mask,
            option,
            filter,
            attributes,
        },
        rest,
    ))
}

// The number of servers, which may not be above 1,024.
#[tactic(auto, unfolding(crate::specs::Reading::server_count_at))]
fn read_server_count(bytes: &[u8]) -> Result<(u32, &[u8]), Stop>
    ensures { Gives (λ x. (x.0, x.1.now)) result (server_count_at bytes.now) }
{
    let (count, rest) = read_u32(bytes)?;
    if count > MOST_SERVERS as u32 {
        return Err(Stop::TooMany);
    }
    Ok((count, rest))
}

#[tactic(auto, unfolding(crate::specs::Reading::site_at, crate::specs::Reading::servers_at))]
pub(crate) fn read_site(alloc: Global, bytes: &[u8]) -> Result<(SiteRecord, &[u8]), ReadError>
    ensures { Reads (λ x. (x.0, x.1.now)) result (site_at bytes.now) }
{
    let (head, rest) = read_head(alloc, bytes)?;
    let (count, rest) = read_server_count(rest)?;
    let (servers, rest) = read_servers(alloc, count, rest)?;
    let filter = Vec::from_slice(alloc, head.filter)?;
    Ok((
        SiteRecord {
            version: head.version,
            protocol: head.protocol,
            serial: head.serial,
            mask: head.mask,
            option: head.option,
            filter,
            attributes: head.attributes,
            servers,
        },
        rest,
    ))
}
