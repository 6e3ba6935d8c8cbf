// Writing the spelling of HS_SITE data.

ghost use Rattle.std.specs.Prelude.{◌≡◌, ◌<◌, ◌^◌, ◌++◌, length, OnOk, IfOk};
ghost use Rattle.hsp_record.specs.Fields.{joined, list_fields, IsCounted, spelling};
ghost use Rattle.hsp_record.specs.Site.{IsAttribute, IsServer, attribute_fields, interface_fields, server_fields};
ghost use Rattle.hsp_record.specs.Site.{head_fields, site_format};

use crate::site::{Attribute, ServerRecord, ServiceInterface, SiteRecord};
use crate::writing::{push_octet, push_run};
use std::alloc::{AllocError, Global};

fn push_attribute(out: &mut Vec<u8>, attribute: &Attribute) -> Result<(), AllocError>
    requires { IsAttribute attribute.now }
    ensures { OnOk result
        (out.new.items ≡ out.old.items ++ joined (attribute_fields attribute.now)) }
{
    push_run(out, &attribute.name)?;
    push_run(out, &attribute.value)?;
    Ok(())
}

fn push_attributes(out: &mut Vec<u8>, attributes: &[Attribute]) -> Result<(), AllocError>
    requires { IsCounted IsAttribute attributes.now }
    ensures { OnOk result
        (out.new.items ≡ out.old.items ++ joined (list_fields attribute_fields attributes.now)) }
{
    out.extend_from_slice(&(attributes.len() as u32).to_be_bytes())?;
    for attribute in attributes {
        push_attribute(out, attribute)?;
    }
    Ok(())
}

fn push_interface(out: &mut Vec<u8>, interface: &ServiceInterface) -> Result<(), AllocError>
    ensures { OnOk result
        (out.new.items ≡ out.old.items ++ joined (interface_fields interface.now)) }
{
    push_octet(out, interface.service_type)?;
    push_octet(out, interface.protocol)?;
    out.extend_from_slice(&interface.port.to_be_bytes())?;
    Ok(())
}

fn push_interfaces(out: &mut Vec<u8>, interfaces: &[ServiceInterface]) -> Result<(), AllocError>
    requires { length interfaces.now < 2 ^ 32 }
    ensures { OnOk result
        (out.new.items ≡ out.old.items ++ joined (list_fields interface_fields interfaces.now)) }
{
    out.extend_from_slice(&(interfaces.len() as u32).to_be_bytes())?;
    for interface in interfaces {
        push_interface(out, interface)?;
    }
    Ok(())
}

fn push_server(out: &mut Vec<u8>, server: &ServerRecord) -> Result<(), AllocError>
    requires { IsServer server.now }
    ensures { OnOk result (out.new.items ≡ out.old.items ++ joined (server_fields server.now)) }
{
    out.extend_from_slice(&server.id.to_be_bytes())?;
    out.extend_from_slice(&server.address)?;
    push_run(out, &server.key)?;
    push_interfaces(out, &server.interfaces)?;
    Ok(())
}

fn push_servers(out: &mut Vec<u8>, servers: &[ServerRecord]) -> Result<(), AllocError>
    requires { IsCounted IsServer servers.now }
    ensures { OnOk result
        (out.new.items ≡ out.old.items ++ joined (list_fields server_fields servers.now)) }
{
    out.extend_from_slice(&(servers.len() as u32).to_be_bytes())?;
    for server in servers {
        push_server(out, server)?;
    }
    Ok(())
}

// Appends the fields before the number of servers.
fn push_head(out: &mut Vec<u8>, site: &SiteRecord) -> Result<(), AllocError>
    ensures { OnOk result (out.new.items ≡ out.old.items ++ joined (head_fields site.now)) }
{
    out.extend_from_slice(&site.version.to_be_bytes())?;
    out.extend_from_slice(&[site.protocol.0, site.protocol.1])?;
    out.extend_from_slice(&site.serial.to_be_bytes())?;
    push_octet(out, site.mask)?;
    push_octet(out, site.option)?;
    push_run(out, &site.filter)?;
    push_attributes(out, &site.attributes)?;
    Ok(())
}

/// The one spelling of the record as HS_SITE data (RFC 3651, section 3.2.2).
///
/// ```
/// // `octets` are those of the example of `decode_site`.
/// let site = decode_site(alloc, octets)?;
/// assert!(rt; encode_site(alloc, &site)?.as_slice() == octets.as_slice());
/// ```
///
/// # Errors
///
/// An `AllocError` where memory runs out.
pub fn encode_site(alloc: Global, site: &SiteRecord) -> Result<Vec<u8>, AllocError>
    ensures { IfOk result (λ octets. octets.items ≡ spelling site_format site.now) }
{
    let mut out = Vec::new(alloc);
    push_head(&mut out, site)?;
    push_servers(&mut out, &site.servers)?;
    Ok(out)
}
