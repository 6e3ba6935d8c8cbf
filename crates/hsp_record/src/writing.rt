// Writers of fields, which append them.

ghost use Rattle.std.specs.Prelude.{◌≡◌, ◌<◌, ◌^◌, ◌++◌, length, OnOk};
ghost use Rattle.std.specs.Int.{w8, to_be_bytes};
ghost use Rattle.hsp_record.specs.Fields.{joined, run_fields};

use std::alloc::AllocError;

/// Appends one octet.
pub(crate) fn push_octet(out: &mut Vec<u8>, octet: u8) -> Result<(), AllocError>
    ensures { OnOk result (out.new.items ≡ out.old.items ++ to_be_bytes w8 octet) }
{
    out.push(octet)?;
    Ok(())
}

/// Appends a length and that many octets.
pub(crate) fn push_run(out: &mut Vec<u8>, octets: &[u8]) -> Result<(), AllocError>
    requires { length octets.now < 2 ^ 32 }
    ensures { OnOk result (out.new.items ≡ out.old.items ++ joined (run_fields octets.now)) }
{
    out.extend_from_slice(&(octets.len() as u32).to_be_bytes())?;
    out.extend_from_slice(octets)?;
    Ok(())
}
