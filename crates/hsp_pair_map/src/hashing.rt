// The hash of a pair of names, eight octets a step.

ghost use Rattle.std.specs.Prelude.{◌≡◌, ◌+◌, ◌<◌, ◌≤◌, ◌*◌, ◌^◌, fold, length};
ghost use Rattle.hsp_pair_map.specs.Hashing.{bucket_of, folded, hash_of, mark_of, mixed, name_mixed, word_at};
ghost use Rattle.hsp_pair_map.specs.Hashing.{words_mixed};

use byteorder::{ByteOrder, LittleEndian};

/// An odd number whose bits look random.
const MULTIPLIER: u64 = 0x9e37_79b9_7f4a_7c15;

// A product of 128 bits as 64 bits.
#[inline(always)]
fn folded(product: u128) -> u64
    ensures { result ≡ folded product }
{
    let low = (product % 18_446_744_073_709_551_616) as u64;
    low.wrapping_add((product / 18_446_744_073_709_551_616) as u64)
}

// A hash with a further word.
#[inline(always)]
fn mixed(hash: u64, word: u64) -> u64
    ensures { result ≡ mixed hash word }
{
    folded(u128::from(hash.wrapping_add(word)) * u128::from(MULTIPLIER))
}

// The word of eight octets at a place.
#[inline(always)]
fn word_at(octets: &[u8], place: usize) -> u64
    requires { place + 8 ≤ length octets.now }
    ensures { result ≡ word_at octets.now place }
{
    LittleEndian::read_u64(&octets[place..])
}

// A hash with the first words.
#[inline(always)]
fn words_mixed(hash: u64, octets: &[u8], count: usize) -> u64
    requires { 8 * count ≤ length octets.now }
    ensures { result ≡ words_mixed hash octets.now count }
{
    let mut hash = hash;
    for number in 0..count {
        hash = mixed(hash, word_at(octets, 8 * number));
    }
    hash
}

// A hash with each octet.
#[inline(always)]
fn octets_mixed(hash: u64, octets: &[u8]) -> u64
    ensures { result ≡ fold mixed hash octets.now }
{
    let mut hash = hash;
    for octet in octets {
        hash = mixed(hash, u64::from(*octet));
    }
    hash
}

// A hash with a name.
#[inline(always)]
fn name_mixed(hash: u64, octets: &[u8]) -> u64
    ensures { result ≡ name_mixed hash octets.now }
{
    if octets.len() < 8 {
        octets_mixed(hash, octets)
    } else {
        let words = words_mixed(hash, octets, octets.len() / 8);
        mixed(words, word_at(octets, octets.len() - 8))
    }
}

/// The hash of a pair of names.
#[inline(always)]
#[tactic(auto, unfolding(crate::specs::Hashing::hash_of))]
pub(crate) fn hash_of(first: &[u8], second: &[u8]) -> u64
    ensures { result ≡ hash_of (record { first = first.now; second = second.now }) }
{
    name_mixed(name_mixed(first.len() as u64, first), second)
}

/// Which of the buckets a pair of this hash belongs to.
#[inline(always)]
#[tactic(auto, unfolding(crate::specs::Hashing::bucket_of))]
pub(crate) fn bucket_of(buckets: usize, hash: u64) -> usize
    requires some { 0 < buckets }
    requires few { buckets ≤ 2 ^ 32 }
    ensures bucket { result ≡ bucket_of buckets hash }
    ensures within { result < buckets }
{
    (hash / 4_294_967_296 * buckets as u64 / 4_294_967_296) as usize
}

/// What most other pairs of a bucket don't have.
#[inline(always)]
#[tactic(auto, unfolding(crate::specs::Hashing::mark_of))]
pub(crate) fn mark_of(hash: u64) -> u16
    ensures { result ≡ mark_of hash }
{
    (hash % 65_536) as u16
}
