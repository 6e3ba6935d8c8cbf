// What tests hold. It is made by calls that end a test where there is no memory, since one that returns early beside
// what it holds is expensive to prove. Where a growth is refused, the second call finds memory.

use std::alloc::{AllocError, Global};
use std::process::Abort;

/// Parts of octets, one behind the other.
pub fn joined(rt: &impl Abort, alloc: Global, parts: &[&[u8]]) -> Vec<u8> {
    match parts.concat(alloc) {
        Ok(octets) => octets,
        Err(AllocError) => parts.concat(alloc).expect(rt, "there is memory"),
    }
}

/// The same octets.
pub fn copied(rt: &impl Abort, alloc: Global, octets: &[u8]) -> Vec<u8> {
    match Vec::from_slice(alloc, octets) {
        Ok(octets) => octets,
        Err(AllocError) => Vec::from_slice(alloc, octets).expect(rt, "there is memory"),
    }
}
