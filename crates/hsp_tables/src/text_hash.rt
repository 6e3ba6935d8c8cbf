// The hash by which the rows of a table are found.

ghost use Rattle.std.specs.Prelude.{◌≡◌};
ghost use Rattle.byteorder.specs.Endian.{little_number};
ghost use Rattle.md5.specs.Md5.{md5};

use byteorder::{ByteOrder, LittleEndian};
use indexmap::IndexMap;
use md5::{Digest, Md5};
use std::hash::{BuildHasher, FoldHasher, Hasher};

/// Rows by their keys, each with a number.
pub(crate) type KeyedRows<K> = IndexMap<K, u64, TextHash>;

/// A hash with a key of its own for each text of a table. Whoever chooses rows whose hashes are the same changes the
/// text, and so the key.
#[derive(Clone, Copy, Drop)]
pub struct TextHash {
    key: u64,
}

impl TextHash {
    /// The hash for the rows of a text.
    pub(crate) fn of(text: &[u8]) -> TextHash
        ensures { result.key ≡ little_number 8 (md5 text.now) }
    {
        let digest: [u8; 16] = Md5::digest(text);
        TextHash {
            key: LittleEndian::read_u64(&digest),
        }
    }
}

impl BuildHasher for TextHash {
    ghost use Rattle.std.specs.Prelude.{fold};
    ghost use Rattle.std.specs.Hash as fed;
    ghost use Rattle.std.specs.Hash.FoldHasher as folding;

    type Hasher = FoldHasher;

    ghost build_hasher = { λ s. fold folding.write folding.initial (fed.u64 s.key) };

    fn build_hasher(&self) -> FoldHasher {
        let mut hasher = FoldHasher::default();
        hasher.write_u64(self.key);
        hasher
    }
}
