// Names of regions and sites.

ghost use Rattle.std.specs.Prelude.{◌≡◌};
ghost use Rattle.hsp_text.specs.Name.{is_name, is_name_octet};

use crate::limits::LONGEST_NAME;

// Whether a name may hold the octet.
fn is_name_octet(octet: u8) -> bool
    ensures { result ≡ is_name_octet octet }
{
    matches!(octet, b'A'..=b'Z' | b'a'..=b'z' | b'0'..=b'9' | b'-' | b'_' | b'.')
}

/// Whether the octets are a name of a region or a site: 1 to 64 of the ASCII letters, the digits, `-`, `_` and `.`.
pub fn is_name(text: &[u8]) -> bool
    ensures { result ≡ is_name text.now }
{
    if text.is_empty() || text.len() > LONGEST_NAME {
        return false;
    }
    for octet in text {
        if !is_name_octet(*octet) {
            return false;
        }
    }
    true
}
