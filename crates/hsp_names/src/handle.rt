// A handle and its parts, lent from the octets that spell it.

ghost use Rattle.std.specs.Prelude.{◌≡◌, ◌<◌, length, IsTrue, Ok, IfOk, IfErr, IfNone, IfSome, OnSome, true, false};
ghost use Rattle.std.specs.Prelude.{position};
ghost use Rattle.std.specs.List.{position_or_len};
ghost use Rattle.std.specs.Str.{is_utf8};
ghost use Rattle.hsp_names.specs.Handle.{is_slash, has_slash, is_handle, has_segments, naming_authority, local_name};
ghost use Rattle.hsp_names.specs.Handle.{segments, handle_in, IsHandle, IsFault};

use crate::fault::HandleFault;
use crate::segments::Segments;
use hsp_text::limits::LONGEST_HANDLE;
use std::str;

/// A handle: a naming authority, one `/`, and a local name (RFC 3651, section 2).
///
/// The first `/` ends the naming authority, which is one or more segments joined by `.`. No segment is empty. The local
/// name may be empty and may hold further `/`. A handle is UTF-8 of at most 4,096 octets. Two handles are equal when
/// their octets are equal.
#[derive(Clone, Copy)]
pub struct HandleRef<'a> {
    octets: &'a [u8],
    slash: usize,
    ghost is_handle: { IsTrue (is_handle octets.now) },
    ghost within: { slash < length octets.now },
    ghost at_slash: { slash ≡ position_or_len is_slash octets.now },
}

// Whether the octets are UTF-8.
fn is_text(octets: &[u8]) -> bool
    ensures { result ≡ is_utf8 octets.now }
{
    match str::from_utf8(octets) {
        Ok(_) => true,
        Err(_) => false,
    }
}

// The place of the first slash.
fn first_slash(octets: &[u8]) -> Option<usize>
    ensures { result ≡ position is_slash octets.now }
{
    octets.iter().position(|octet| *octet == b'/')
}

// The place of the first slash, which ends the naming authority.
fn slash_in(octets: &[u8]) -> Option<usize>
    ensures none { IfNone result (has_slash octets.now ≡ false) }
    ensures some { OnSome result (has_slash octets.now ≡ true) }
    ensures place { IfSome result
        (λ slash. (slash < length octets.now) × (slash ≡ position_or_len is_slash octets.now)) }
{
    first_slash(octets)
}

// Whether no segment of a naming authority is empty.
fn has_segments(authority: &[u8]) -> bool
    ensures { result ≡ has_segments authority.now }
{
    for segment in Segments::of(authority) {
        if segment.is_empty() {
            return false;
        }
    }
    true
}

impl<'a> HandleRef<'a> {
    ghost use Rattle.hsp_text.specs.Answers.{Gives};
    ghost use Rattle.hsp_names.specs.Lent.{octets_of, segments_left};

    /// The handle that the octets spell.
    ///
    /// ```
    /// let handle = HandleRef::parse(b"10.abc/a/b")?;
    /// assert!(rt; handle.naming_authority() == b"10.abc".as_slice());
    /// assert!(rt; handle.local_name() == b"a/b".as_slice());
    /// assert!(rt; matches!(HandleRef::parse(b"10..5/x"), Err(HandleFault::EmptySegment)));
    /// ```
    ///
    /// # Errors
    ///
    /// The first in this order: `TooLong` above 4,096 octets, `NotUtf8`, `NoSlash` where no `/` ends a naming
    /// authority, `EmptySegment` where a segment of the naming authority is empty.
    pub fn parse(octets: &'a [u8]) -> Result<HandleRef<'a>, HandleFault>
        // What is read is a handle, and what is refused has the fault.
        ensures handle { IfOk result (λ handle.
            IsHandle octets.now (naming_authority octets.now) (local_name octets.now)) }
        ensures fault { IfErr result (λ fault. IsFault octets.now fault) }
        // The same as one value, whose octets are those that were lent.
        ensures reads { Gives octets_of result (handle_in octets.now) }
    {
        if octets.len() > LONGEST_HANDLE {
            return Err(HandleFault::TooLong);
        }
        if !is_text(octets) {
            return Err(HandleFault::NotUtf8);
        }
        let Some(slash) = slash_in(octets) else {
            return Err(HandleFault::NoSlash);
        };
        if !has_segments(&octets[..slash]) {
            return Err(HandleFault::EmptySegment);
        }
        Ok(HandleRef { octets, slash })
    }

    /// The handle that these octets spell. They were parsed as a handle before and are not tested again: only the slash
    /// is sought.
    #[tactic(auto, using(crate::proofs::Reading::reads, crate::proofs::Reading::read_has_slash))]
    pub fn accepted(octets: &'a [u8]) -> HandleRef<'a>
        requires { handle_in octets.now ≡ Ok octets.now }
        ensures { octets_of result ≡ octets.now }
    {
        let slash = slash_in(octets).unwrap();
        HandleRef { octets, slash }
    }

    /// The octets of the whole handle.
    pub fn bytes(self) -> &'a [u8]
        ensures octets { result.now ≡ octets_of self.entry }
        ensures handle { IsTrue (is_handle result.now) }
    {
        self.octets
    }

    /// The octets before the first `/`.
    pub fn naming_authority(self) -> &'a [u8]
        ensures { result.now ≡ naming_authority (octets_of self.entry) }
    {
        &self.octets[..self.slash]
    }

    /// The octets after the first `/`.
    pub fn local_name(self) -> &'a [u8]
        ensures { result.now ≡ local_name (octets_of self.entry) }
    {
        &self.octets[self.slash + 1..]
    }

    /// The segments of the naming authority, from the first to the last.
    pub fn segments(self) -> Segments<'a>
        ensures { segments_left result ≡ segments (octets_of self.entry) }
    {
        Segments::of(self.naming_authority())
    }
}
