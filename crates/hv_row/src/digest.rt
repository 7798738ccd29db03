// Digests of pages.
ghost use Rattle.std.specs.Prelude.{◌≡◌, length};

use std::marker::Model;

/// How many bytes a digest has.
pub const DIGEST_BYTES: usize = 32;

/// A digest of 32 bytes, as SHA-256 gives it (FIPS 180-4); contracts see its bytes.
#[derive(Clone, Copy, Debug, PartialEq, Eq, PartialOrd, Ord, Hash)]
pub struct Digest {
    bytes: [u8; 32],
}

impl Model for Digest {
    ghost use Rattle.std.specs.Prelude.{List, ℕ};

    ghost Value = { List ℕ };

    ghost view = { λ digest. digest.bytes };

    ghost inverse = { λ bytes. record { bytes = bytes } };
}

impl Digest {
    /// The digest of these bytes.
    pub fn new(bytes: [u8; 32]) -> Digest
        ensures { result ≡ bytes }
    {
        Digest { bytes }
    }

    pub fn as_slice(&self) -> &[u8]
        ensures same { result.now ≡ self.now }
        ensures length { length result.now ≡ 32 }
    {
        &self.bytes
    }
}
