ghost use Rattle.std.specs.Prelude.{◌≡◌};
ghost use Rattle.tr_queues.specs.Hashing.{hashed, word_in};

use std::hash::{BuildHasherDefault, Hasher};

/// Hashes a key of few numbers: by one multiplication for each of them.
#[derive(Clone, Copy)]
pub(crate) struct WordHasher {
    state: u64,
}

/// Makes the hashers of a map.
pub(crate) type WordHashing = BuildHasherDefault<WordHasher>;

impl Default for WordHasher {
    ghost is_default = { λ h. h.state ≡ 0 };

    fn default() -> WordHasher {
        WordHasher { state: 0 }
    }
}

impl Hasher for WordHasher {
    ghost write = { λ h bytes. record { state = hashed h.state (word_in bytes) } };

    ghost finish = { λ h. h.state };

    fn finish(&self) -> u64 {
        self.state
    }

    fn write(&mut self, bytes: &[u8]) {
        self.state = (self.state ^ word_in(bytes)).wrapping_mul(11_400_714_819_323_198_485);
    }
}

/// The first eight of the bytes as a number, the first four where there are fewer, or the first.
#[inline(always)]
fn word_in(bytes: &[u8]) -> u64
    ensures { result ≡ word_in bytes.now }
{
    if bytes.len() >= 8 {
        u64::from_le_bytes([
            bytes[0], bytes[1], bytes[2], bytes[3], bytes[4], bytes[5], bytes[6], bytes[7],
        ])
    } else if bytes.len() >= 4 {
        u64::from(u32::from_le_bytes([bytes[0], bytes[1], bytes[2], bytes[3]]))
    } else if bytes.len() >= 1 {
        u64::from(bytes[0])
    } else {
        0
    }
}
