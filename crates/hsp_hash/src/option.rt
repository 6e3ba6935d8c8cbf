// Hash options of a site (RFC 3651, section 3.2.2).

ghost use Rattle.std.specs.Prelude.{◌≡◌};

/// Which part of a handle a site hashes.
#[derive(Clone, Copy, Debug, PartialEq, Eq)]
pub enum HashOption {
    /// The naming authority: HASH_BY_NA, the octet 0.
    ByNa,
    /// The local name: HASH_BY_LOCAL, the octet 1.
    ByLocal,
    /// The whole handle: HASH_BY_HANDLE, the octet 2.
    ByHandle,
}

impl HashOption {
    ghost use Rattle.hsp_hash.specs.Option.{option_of};

    /// The hash option of the octet, or None where the octet stands for no option.
    pub fn of_octet(octet: u8) -> Option<HashOption>
        ensures { result ≡ option_of octet }
    {
        match octet {
            0 => Some(HashOption::ByNa),
            1 => Some(HashOption::ByLocal),
            2 => Some(HashOption::ByHandle),
            _ => None,
        }
    }
}
