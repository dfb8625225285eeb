//! How the index hashes the keys of requests.
//!
//! Whoever writes a capture chooses its timestamps, and may want all requests to fall on one place
//! of the index. So the hash depends on two numbers that the caller's hasher gives, and that nobody
//! else knows: one is hashed before the key, and the last step multiplies by the other.

ghost use Rattle.std.specs.Prelude.{◌≡◌, ◌%◌};
ghost use Rattle.pairing.specs.Hashing.{hash_of, keyed};

use std::hash::{BuildHasher, FoldHasher, Hasher};

/// A hasher of keys, and what makes one: it starts from two numbers.
#[derive(Clone, Copy)]
pub(crate) struct KeyHasher {
    /// What was hashed so far, the first number at the start.
    folded: FoldHasher,
    /// The second number, which is odd.
    multiplier: u64,
}

impl KeyHasher {
    /// Takes the two numbers from a hasher: what it makes of 0, and of 1.
    pub(crate) fn keyed_by<H: BuildHasher>(hasher: &H) -> KeyHasher
        ensures both_numbers { result ≡ keyed
            (hash_of H.Hasher.write H.Hasher.finish (H.build_hasher hasher.now) 0)
            (hash_of H.Hasher.write H.Hasher.finish (H.build_hasher hasher.now) 1) }
        ensures odd { result.multiplier % 2 ≡ 1 }
    {
        let mut folded = FoldHasher::default();
        folded.write_u64(hasher.hash_one(0_u64));
        KeyHasher {
            folded,
            multiplier: hasher.hash_one(1_u64) | 1,
        }
    }
}

impl Hasher for KeyHasher {
    ghost use Rattle.pairing.specs.Hashing.{finished, written};

    ghost write = { written };

    ghost finish = { finished };

    /// The last byte of the product depends on every bit of both numbers, and the index looks at
    /// the first ones, so they change places.
    #[inline(always)]
    fn finish(&self) -> u64 {
        self.folded
            .finish()
            .wrapping_mul(self.multiplier)
            .swap_bytes()
    }

    #[inline(always)]
    fn write(&mut self, bytes: &[u8]) {
        self.folded.write(bytes);
    }
}

impl BuildHasher for KeyHasher {
    type Hasher = KeyHasher;

    ghost build_hasher = { λ start. start };

    #[inline(always)]
    fn build_hasher(&self) -> KeyHasher {
        *self
    }
}
