// The lines that state the servers of a handle.

ghost use Rattle.std.specs.Prelude.{◌≡◌, ◌++◌, ◌∷◌, [], ◌<◌, OnOk, Some, decimal, length, option_map, slice_get};
ghost use Rattle.csv.specs.Writing.{default_writer, field_text};
ghost use Rattle.hsp_instance.specs.Instance.{AreSites};
ghost use Rattle.hsp_names.specs.Lent.{octets_of};
ghost use Rattle.hsp_stream.specs.PlaceLines.{place_line, place_lines};

use hsp_csv::push_field;
use hsp_hash::Digests;
use hsp_instance::Sites;
use hsp_names::HandleRef;
use hsp_text::push_whole;
use std::alloc::AllocError;

// Appends a line: a handle, a site's name, a place and an identifier.
fn push_line(
    out: &mut Vec<u8>,
    handle: &[u8],
    name: &[u8],
    place: u32,
    id: u32,
) -> Result<(), AllocError>
    ensures { OnOk result (out.new.items ≡ out.old.items
        ++ (field_text default_writer handle.now ++ (44 ∷ (field_text default_writer name.now
        ++ (44 ∷ (decimal place ++ (44 ∷ (decimal id ++ 10 ∷ [])))))))) }
{
    push_field(out, handle)?;
    out.push(b',')?;
    push_field(out, name)?;
    out.push(b',')?;
    push_whole(out, u64::from(place))?;
    out.push(b',')?;
    push_whole(out, u64::from(id))?;
    out.push(b'\n')?;
    Ok(())
}

// Appends the line of a site. Each digest of the handle is made once.
fn push_site(
    out: &mut Vec<u8>,
    sites: &Sites,
    number: u32,
    handle: &[u8],
    digests: &mut Digests<'_>,
) -> Result<(), AllocError>
    requires site { number < length sites.now }
    requires within { AreSites sites.now }
    requires own { digests.old ≡ handle.now }
    ensures line { OnOk result (option_map (λ site.
        out.old.items ++ place_line handle.now site) (slice_get sites.now number)
        ≡ Some out.new.items) }
    ensures same { digests.new ≡ digests.old }
{
    let place = digests.place(sites.option(number), sites.server_count(number));
    let id = sites.server_id(number, place);
    push_line(out, handle, sites.name(number), place, id)
}

/// Appends a line for each site, in their order.
pub(crate) fn push_sites(
    out: &mut Vec<u8>,
    sites: &Sites,
    handle: HandleRef<'_>,
) -> Result<(), AllocError>
    ensures { OnOk result (out.new.items
        ≡ out.old.items ++ place_lines (octets_of handle.entry) sites.now) }
{
    let mut digests = Digests::new(handle);
    for number in 0..sites.len() {
        push_site(out, sites, number, handle.bytes(), &mut digests)?;
    }
    Ok(())
}
