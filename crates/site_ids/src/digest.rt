//! Digests of tokens.
ghost use Rattle.std.specs.Prelude.{◌≡◌, length};

use std::marker::Model;

/// The number of bytes of a digest.
pub const DIGEST_BYTES: usize = 32;

/// The SHA-256 digest of a token (FIPS 180-4): 32 bytes. A contract sees the list of them.
#[derive(Clone, Copy, Debug, PartialEq, Eq, Hash)]
pub struct Digest {
    bytes: [u8; DIGEST_BYTES],
}

impl Model for Digest {
    ghost use Rattle.std.specs.Prelude.{◌≡◌, ℕ, List, length};
    ghost use Rattle.site_ids.specs.declared.digest.TheConstants.{DIGEST_BYTES};

    ghost Value = { List ℕ };

    ghost view = { λ digest. digest.bytes };

    ghost invariant = { λ digest. length digest.bytes ≡ DIGEST_BYTES };

    ghost inverse = { λ bytes. record { bytes = bytes } };
}

impl Digest {
    /// The digest with these bytes.
    pub fn new(bytes: [u8; DIGEST_BYTES]) -> Self
        ensures { result ≡ bytes }
    {
        Digest { bytes }
    }

    /// The bytes.
    pub fn bytes(&self) -> [u8; DIGEST_BYTES]
        ensures value { result ≡ self.now }
        ensures size { length result ≡ DIGEST_BYTES }
    {
        self.bytes
    }
}
