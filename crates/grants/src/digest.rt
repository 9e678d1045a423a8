//! The digest of a token.
ghost use Rattle.std.specs.Prelude.{◌≡◌};
ghost use Rattle.sha2.specs.Sha256.{sha256};

use sha2::{Digest, Sha256};

/// The SHA-256 digest of a token (FIPS 180-4).
pub(crate) fn digest_of(token: &[u8]) -> site_types::Digest
    ensures { result ≡ sha256 token.now }
{
    site_types::Digest::new(Sha256::digest(token))
}
