// The rows of service interfaces.

ghost use Rattle.std.specs.Prelude.{◌≡◌, ◌++◌, ◌∷◌, [], OnOk};
ghost use Rattle.hsp_record.specs.Site.{Interface};
ghost use Rattle.hsp_stream.specs.Interfaces.{interface_fields, interface_rows, record_rows, server_fields};
ghost use Rattle.hsp_stream.specs.Interfaces.{server_numbers, server_rows};

use hsp_inputs::push_address;
use hsp_record::{ServerRecord, SiteRecord};
use hsp_text::push_whole;
use std::alloc::{AllocError, Global};

// Appends a site's name, and a server's place and identifier.
fn push_server_numbers(
    out: &mut Vec<u8>,
    name: &[u8],
    place: u32,
    id: u32,
) -> Result<(), AllocError>
    ensures { OnOk result (out.new.items ≡ out.old.items ++ server_numbers name.now place id) }
{
    out.extend_from_slice(name)?;
    out.push(b',')?;
    push_whole(out, u64::from(place))?;
    out.push(b',')?;
    push_whole(out, u64::from(id))?;
    out.push(b',')?;
    Ok(())
}

// Appends the fields of a server, the address last.
fn push_server_fields(
    out: &mut Vec<u8>,
    name: &[u8],
    place: u32,
    server: &ServerRecord,
) -> Result<(), AllocError>
    ensures { OnOk result
        (out.new.items ≡ out.old.items ++ server_fields name.now place server.now) }
{
    push_server_numbers(out, name, place, server.id())?;
    push_address(out, server.address())?;
    out.push(b',')?;
    Ok(())
}

// Appends the fields of an interface: its service type, transmission protocol and port.
fn push_interface_fields(
    out: &mut Vec<u8>,
    service_type: u8,
    protocol: u8,
    port: u32,
) -> Result<(), AllocError>
    ensures { OnOk result (out.new.items ≡ out.old.items ++ interface_fields (record {
      service_type = service_type;
      protocol = protocol;
      port = port;
    })) }
{
    push_whole(out, u64::from(service_type))?;
    out.push(b',')?;
    push_whole(out, u64::from(protocol))?;
    out.push(b',')?;
    push_whole(out, u64::from(port))?;
    out.push(b'\n')?;
    Ok(())
}

// Appends a row for each interface of a server, behind the server's fields.
fn push_interfaces(
    out: &mut Vec<u8>,
    fields: &[u8],
    server: &ServerRecord,
) -> Result<(), AllocError>
    ensures { OnOk result
        (out.new.items ≡ out.old.items ++ interface_rows fields.now server.now.interfaces) }
{
    for number in 0..server.interface_count() {
        let (service_type, protocol, port) = server.interface(number);
        out.extend_from_slice(fields)?;
        push_interface_fields(out, service_type, protocol, port)?;
    }
    Ok(())
}

// Appends the rows of a server.
fn push_server(
    alloc: Global,
    out: &mut Vec<u8>,
    name: &[u8],
    place: u32,
    server: &ServerRecord,
) -> Result<(), AllocError>
    ensures { OnOk result (out.new.items ≡ out.old.items
        ++ interface_rows (server_fields name.now place server.now) server.now.interfaces) }
{
    let mut fields = Vec::new(alloc);
    push_server_fields(&mut fields, name, place, server)?;
    push_interfaces(out, &fields, server)
}

/// Appends the rows of a site's record.
pub(crate) fn push_record(
    alloc: Global,
    out: &mut Vec<u8>,
    name: &[u8],
    site: &SiteRecord,
) -> Result<(), AllocError>
    ensures { OnOk result (out.new.items ≡ out.old.items ++ record_rows name.now site.now) }
{
    for place in 0..site.server_count() {
        push_server(alloc, out, name, place as u32, site.server(place))?;
    }
    Ok(())
}
