// The digests of a handle. Each is made once: all sites with the same hash option use the same digest.

ghost use Rattle.std.specs.Prelude.{◌≡◌, ◌<◌, IfSome};
ghost use Rattle.hsp_hash.specs.Place.{digest, server_place};
ghost use Rattle.hsp_names.specs.Lent.{octets_of};

use crate::digest::digest_of;
use crate::option::HashOption;
use crate::place::number_of_digest;
use hsp_names::HandleRef;
use std::marker::Model;

/// A handle, and those of its digests that a site asked for.
#[derive(Drop)]
pub struct Digests<'a> {
    handle: HandleRef<'a>,
    by_na: Option<[u8; 16]>,
    by_local: Option<[u8; 16]>,
    by_handle: Option<[u8; 16]>,
}

impl<'a> Model for Digests<'a> {
    ghost use Rattle.std.specs.Prelude.{ℕ, List};
    ghost use Rattle.hsp_names.specs.Lent.{octets_of};
    ghost use Rattle.hsp_hash.specs.Digests.{AreDigestsOf};

    ghost Value = { List ℕ };

    ghost view = { λ d. octets_of d.handle };

    ghost invariant = { λ d. AreDigestsOf (octets_of d.handle) d.by_na d.by_local d.by_handle };
}

impl<'a> Digests<'a> {
    /// A handle of which no digest was made yet.
    pub fn new(handle: HandleRef<'a>) -> Digests<'a>
        ensures { result ≡ octets_of handle.entry }
    {
        Digests {
            handle,
            by_na: None,
            by_local: None,
            by_handle: None,
        }
    }

    // The digest by an option, where it is known.
    fn known(&self, option: HashOption) -> Option<[u8; 16]>
        ensures { IfSome result (λ known. known ≡ digest option self.now) }
    {
        match option {
            HashOption::ByNa => self.by_na,
            HashOption::ByLocal => self.by_local,
            HashOption::ByHandle => self.by_handle,
        }
    }

    // Makes the digest by an option, and keeps it.
    fn make(&mut self, option: HashOption) -> [u8; 16]
        ensures made { result ≡ digest option self.old }
        ensures same { self.new ≡ self.old }
    {
        let made = digest_of(option, self.handle);
        match option {
            HashOption::ByNa => self.by_na = Some(made),
            HashOption::ByLocal => self.by_local = Some(made),
            HashOption::ByHandle => self.by_handle = Some(made),
        }
        made
    }

    /// The place of the server that is responsible for the handle, among the `servers` servers of a site with this hash
    /// option (RFC 3652, section 3.1.3).
    pub fn place(&mut self, option: HashOption, servers: u32) -> u32
        requires { 0 < servers }
        ensures place { result ≡ server_place option self.old servers }
        ensures within { result < servers }
        ensures same { self.new ≡ self.old }
    {
        let digest = match self.known(option) {
            Some(known) => known,
            None => self.make(option),
        };
        number_of_digest(&digest, servers)
    }
}
