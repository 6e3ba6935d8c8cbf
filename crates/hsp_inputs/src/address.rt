// The addresses of servers, in digits.

ghost use Rattle.std.specs.Prelude.{◌≡◌, ◌++◌, OnOk};
ghost use Rattle.hex.specs.Hex.{encode_lower};

use std::alloc::AllocError;

/// Appends the 16 octets of an address in 32 lower-case hexadecimal digits, most significant first.
///
/// # Errors
///
/// An `AllocError` where memory runs out.
pub fn push_address(out: &mut Vec<u8>, address: [u8; 16]) -> Result<(), AllocError>
    ensures { OnOk result (out.new.items ≡ out.old.items ++ encode_lower address) }
{
    let mut digits = [0u8; 32];
    hex::encode_to_slice(address.as_slice(), &mut digits).unwrap();
    out.extend_from_slice(&digits)
}
