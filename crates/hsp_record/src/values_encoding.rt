// Writing the spelling of a value list.

ghost use Rattle.std.specs.Prelude.{◌≡◌, ◌++◌, OnOk, IfOk};
ghost use Rattle.hsp_record.specs.Fields.{joined, list_fields, IsCounted, spelling};
ghost use Rattle.hsp_record.specs.Values.{IsValue, reference_fields, value_fields, values_format};

use crate::values::{References, Value, ValueList};
use crate::writing::{push_octet, push_run};
use std::alloc::{AllocError, Global};

fn push_references(out: &mut Vec<u8>, references: &References) -> Result<(), AllocError>
    ensures { OnOk result
        (out.new.items ≡ out.old.items ++ joined (list_fields reference_fields references.now)) }
{
    out.extend_from_slice(&references.count.to_be_bytes())?;
    out.extend_from_slice(references.octets)?;
    Ok(())
}

fn push_value(out: &mut Vec<u8>, value: &Value) -> Result<(), AllocError>
    requires { IsValue value.now }
    ensures { OnOk result (out.new.items ≡ out.old.items ++ joined (value_fields value.now)) }
{
    out.extend_from_slice(&value.index.to_be_bytes())?;
    push_run(out, value.type_octets)?;
    push_run(out, value.octets)?;
    push_octet(out, value.permission)?;
    push_octet(out, value.ttl_kind)?;
    out.extend_from_slice(&value.ttl.to_be_bytes())?;
    out.extend_from_slice(&value.timestamp.to_be_bytes())?;
    push_references(out, &value.references)?;
    Ok(())
}

fn push_values(out: &mut Vec<u8>, values: &[Value]) -> Result<(), AllocError>
    requires { IsCounted IsValue values.now }
    ensures { OnOk result
        (out.new.items ≡ out.old.items ++ joined (list_fields value_fields values.now)) }
{
    out.extend_from_slice(&(values.len() as u32).to_be_bytes())?;
    for value in values {
        push_value(out, value)?;
    }
    Ok(())
}

/// The one spelling of the list of handle values (RFC 3651, section 3.1).
///
/// # Errors
///
/// An `AllocError` where memory runs out.
pub fn encode_values(alloc: Global, list: &ValueList) -> Result<Vec<u8>, AllocError>
    ensures { IfOk result (λ octets. octets.items ≡ spelling values_format list.now) }
{
    let mut out = Vec::new(alloc);
    push_values(&mut out, &list.values)?;
    Ok(out)
}
