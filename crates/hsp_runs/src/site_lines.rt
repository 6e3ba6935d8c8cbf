// The lines that state a handle's server at each site.

ghost use Rattle.std.specs.Prelude.{◌≡◌, ◌++◌, ◌<◌, IfOk, OnOk, Some, length, option_map, slice_get};
ghost use Rattle.hsp_names.specs.Lent.{octets_of};
ghost use Rattle.hsp_instance.specs.Instance.{AreSites};
ghost use Rattle.hsp_runs.specs.Locate.{site_line, site_lines};

use hsp_hash::server_number;
use hsp_instance::Sites;
use hsp_names::HandleRef;
use hsp_text::push_line;
use std::alloc::{AllocError, Global};

// Appends the line of a site.
fn push_site(
    out: &mut Vec<u8>,
    sites: &Sites,
    number: u32,
    handle: HandleRef<'_>,
) -> Result<(), AllocError>
    requires site { number < length sites.now }
    requires within { AreSites sites.now }
    ensures { OnOk result (option_map (λ site.
        out.old.items ++ site_line (octets_of handle.entry) site) (slice_get sites.now number)
        ≡ Some out.new.items) }
{
    let place = server_number(sites.option(number), handle, sites.server_count(number));
    let id = sites.server_id(number, place);
    push_line(out, sites.name(number), &[u64::from(place), u64::from(id)])
}

/// The lines of all sites.
pub(crate) fn site_lines(
    alloc: Global,
    sites: &Sites,
    handle: HandleRef<'_>,
) -> Result<Vec<u8>, AllocError>
    ensures { IfOk result (λ text. text.items ≡ site_lines (octets_of handle.entry) sites.now) }
{
    let mut text = Vec::new(alloc);
    for number in 0..sites.len() {
        push_site(&mut text, sites, number, handle)?;
    }
    Ok(text)
}
