// Fields of comma-separated values.

ghost use Rattle.std.specs.Prelude.{◌≡◌, ◌++◌, ◌∷◌, [], OnOk};
ghost use Rattle.std.specs.List.{list_any};
ghost use Rattle.csv.specs.Writing.{default_writer, escaped, field_text, needs_byte};

use std::alloc::AllocError;

// Whether a field with this octet needs quotes.
fn needs_quotes(octet: u8) -> bool
    ensures { result ≡ needs_byte default_writer octet }
{
    octet == b',' || octet == b'"' || octet == b'\r' || octet == b'\n'
}

// Appends an octet, and a quote twice.
#[tactic(auto, unfolding(csv::specs::Writing::escaped))]
fn push_octet(out: &mut Vec<u8>, octet: u8) -> Result<(), AllocError>
    ensures { OnOk result
        (out.new.items ≡ out.old.items ++ escaped default_writer (octet ∷ [])) }
{
    if octet == b'"' {
        out.push(b'"')?;
    }
    out.push(octet)?;
    Ok(())
}

// Appends octets, each quote twice.
fn push_escaped(out: &mut Vec<u8>, field: &[u8]) -> Result<(), AllocError>
    ensures { OnOk result
        (out.new.items ≡ out.old.items ++ escaped default_writer field.now) }
{
    for octet in field {
        push_octet(out, *octet)?;
    }
    Ok(())
}

// Whether a field needs quotes.
fn needs_any(field: &[u8]) -> bool
    ensures { result ≡ list_any (needs_byte default_writer) field.now }
{
    field.iter().any(|octet| needs_quotes(*octet))
}

/// Appends a field as the `csv` crate writes it, in quotes where it needs them.
///
/// # Errors
///
/// An `AllocError` where memory runs out. Nothing is said of `out` then.
pub fn push_field(out: &mut Vec<u8>, field: &[u8]) -> Result<(), AllocError>
    ensures { OnOk result
        (out.new.items ≡ out.old.items ++ field_text default_writer field.now) }
{
    if !needs_any(field) {
        out.extend_from_slice(field)?;
        return Ok(());
    }
    out.push(b'"')?;
    push_escaped(out, field)?;
    out.push(b'"')?;
    Ok(())
}
