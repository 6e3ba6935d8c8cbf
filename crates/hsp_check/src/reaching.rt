// The servers that a short set of rows may use.

ghost use Rattle.std.specs.Prelude.{◌≡◌, ◌<◌, IfOk, length};
ghost use Rattle.hsp_cert.specs.Certificate.Claim.{short};
ghost use Rattle.hsp_check.specs.Instance.{network_of};
ghost use Rattle.hsp_check.specs.Reached.{flagged_places};
ghost use Rattle.hsp_check.specs.Short.{reached};
ghost use Rattle.hsp_check.specs.Valid.{IsValid};
ghost use Rattle.hsp_check.specs.Verdict.{is_one_of};

use crate::building::build_network;
use crate::set_check::flags_of;
use crate::shortage::reached_by;
use hsp_cert::ShortRef;
use hsp_instance::Instance;
use std::alloc::{AllocError, Global};

// The places of the flags that are set.
fn flagged(alloc: Global, flags: &[bool]) -> Result<Vec<u32>, AllocError>
    requires { length flags.now < 4294967296 }
    ensures { IfOk result (λ places. places.items ≡ flagged_places flags.now) }
{
    let mut places = Vec::new(alloc);
    for place in 0..flags.len() {
        if flags[place] {
            places.push(place as u32)?;
        }
    }
    Ok(places)
}

/// The servers that the rows of a valid short set may use, each once, in ascending order.
///
/// # Errors
///
/// An `AllocError` where memory runs out.
pub fn reached_servers(
    alloc: Global,
    instance: &Instance,
    set: &ShortRef<'_>,
) -> Result<Vec<u32>, AllocError>
    requires { IsValid (network_of instance.now) (short set.now) }
    ensures { IfOk result (λ servers.
        servers.items ≡ reached (network_of instance.now) (is_one_of set.now.rows)) }
{
    let network = build_network(alloc, instance)?;
    let lists = network.numbers.with(&network.arcs.arc_flows);
    let rows = flags_of(alloc, set.rows(), lists.demands.len())?.unwrap();
    let servers = reached_by(alloc, lists, &rows)?;
    flagged(alloc, &servers)
}
