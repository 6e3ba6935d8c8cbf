// The run that lists service interfaces.

ghost use Rattle.std.specs.Prelude.{option_map};
ghost use Rattle.hsp_inputs.specs.Memory.{OrNoMemory};
ghost use Rattle.hsp_text.specs.Answers.{Stands};
ghost use Rattle.hsp_stream.specs.Interfaces.{AreInterfacesIn};

use crate::interface_records::table_of;
use hsp_inputs::{Fault, settings_in, sites_from_settings, values_in};
use std::alloc::Global;

/// The table of the service interfaces of all servers of the sites that settings, and a value list where one is given,
/// define. It has the header `site,place,server_id,address,type,protocol,port`, and a row for each interface: site by
/// site in the settings' order, place by place, and in the order of the server's record. The address has 32 hexadecimal
/// digits. Type, protocol and port are the numbers of RFC 3651, section 3.2.2.
///
/// # Errors
///
/// In this order: `Settings`, `Values`, `Build`. Once the sites are read, only memory can run out.
pub fn interfaces_run(
    alloc: Global,
    settings: &[u8],
    values: Option<&[u8]>,
) -> Result<Vec<u8>, Fault>
    ensures { Stands Fault.OutOfMemory (λ text. text.items)
        (AreInterfacesIn settings.now (option_map (λ v. v.now) values.entry)) result }
{
    let settings = settings_in(alloc, settings)?;
    let listed = values_in(alloc, values)?;
    let values = listed.as_ref();
    let _sites = sites_from_settings(alloc, &settings, values)?;
    Ok(table_of(alloc, &settings, values)?)
}
