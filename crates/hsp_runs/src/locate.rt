// The servers that are responsible for a handle.

ghost use Rattle.std.specs.Prelude.{◌≡◌, ◌≤◌, ◌++◌, ◌∷◌, [], IfOk, decimal, option_map};
ghost use Rattle.hsp_text.specs.Answers.{Gives, GivesUnless, Stands};
ghost use Rattle.hsp_names.specs.Lent.{octets_of};
ghost use Rattle.hsp_runs.specs.Locate.{AreLocated, IsLocated, handle_at, option_at, placed, servers_at};

use crate::site_lines::site_lines;
use hsp_hash::{HashOption, server_number};
use hsp_inputs::{Fault, read_count, sites_in};
use hsp_names::HandleRef;
use hsp_text::limits::MOST_SERVERS;
use hsp_text::push_whole;
use std::alloc::{AllocError, Global};

/// What decides the server of a handle.
#[derive(Drop)]
pub enum Locate {
    /// A hash option, `na`, `local` or `handle`, and a number of servers.
    Place {
        option: Vec<u8>,
        servers: Vec<u8>,
    },
    /// Settings, and the value list that their sites' indices are of, where there is one.
    Sites {
        settings: Vec<u8>,
        values: Option<Vec<u8>>,
    },
}

// The hash option that a word names.
fn option_at(text: &[u8]) -> Result<HashOption, Fault>
    ensures { Gives (λ option. option) result (option_at text.now) }
{
    if text == b"na".as_slice() {
        return Ok(HashOption::ByNa);
    }
    if text == b"local".as_slice() {
        return Ok(HashOption::ByLocal);
    }
    if text == b"handle".as_slice() {
        return Ok(HashOption::ByHandle);
    }
    Err(Fault::BadOption)
}

// The number of servers that a text spells.
fn servers_at(text: &[u8]) -> Result<u32, Fault>
    ensures given { Gives (λ servers. servers) result (servers_at text.now) }
    ensures some { IfOk result (λ servers. 1 ≤ servers) }
{
    read_count(text, MOST_SERVERS as u32, Fault::BadServers)
}

// The handle that octets spell.
fn handle_at(octets: &[u8]) -> Result<HandleRef<'_>, Fault>
    ensures { Gives (λ handle. octets_of handle) result (handle_at octets.now) }
{
    match HandleRef::parse(octets) {
        Ok(handle) => Ok(handle),
        Err(fault) => Err(Fault::Handle(fault)),
    }
}

// A number on a line of its own.
fn number_line(alloc: Global, number: u32) -> Result<Vec<u8>, AllocError>
    ensures { IfOk result (λ line. line.items ≡ decimal number ++ 10 ∷ []) }
{
    let mut line = Vec::new(alloc);
    push_whole(&mut line, u64::from(number))?;
    line.push(b'\n')?;
    Ok(line)
}

// The place of the handle's server.
fn place_run(alloc: Global, option: &[u8], servers: &[u8], handle: &[u8]) -> Result<Vec<u8>, Fault>
    ensures { GivesUnless Fault.OutOfMemory (λ text. text.items) result
        (placed option.now servers.now handle.now) }
{
    let option = option_at(option)?;
    let servers = servers_at(servers)?;
    let handle = handle_at(handle)?;
    Ok(number_line(alloc, server_number(option, handle, servers))?)
}

// The handle's server at each site.
fn sites_run(
    alloc: Global,
    settings: &[u8],
    values: Option<&[u8]>,
    handle: &[u8],
) -> Result<Vec<u8>, Fault>
    ensures { Stands Fault.OutOfMemory (λ text. text.items)
        (AreLocated settings.now (option_map (λ v. v.now) values.entry) handle.now) result }
{
    let handle = handle_at(handle)?;
    let sites = sites_in(alloc, settings, values)?;
    Ok(site_lines(alloc, &sites, handle)?)
}

/// Where the handle is served: the place of its server, on a line of its own; or a line for each site, with its name
/// and the place and the identifier of the handle's server there.
///
/// # Errors
///
/// In this order: `BadOption`, `BadServers`, `Handle`. For sites: `Handle`, `Settings`, `Values`, `Build`.
/// `OutOfMemory` comes where memory runs out.
pub fn locate_run(alloc: Global, locate: &Locate, handle: &[u8]) -> Result<Vec<u8>, Fault>
    ensures { Stands Fault.OutOfMemory (λ text. text.items)
        (IsLocated locate.now handle.now) result }
{
    match locate {
        Locate::Place { option, servers } => place_run(alloc, option, servers, handle),
        Locate::Sites { settings, values } => {
            sites_run(alloc, settings, values.as_deref(), handle)
        }
    }
}
