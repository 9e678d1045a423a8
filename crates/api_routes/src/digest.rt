//! Digests in bodies, which stand there as hexadecimal digits.
ghost use Rattle.std.specs.Prelude.{◌≡◌, ◌<◌, ◌*◌, length, IfSome};
ghost use Rattle.wire_model.specs.Forms.{hex_digit, hex_bytes, digest_of};
ghost use Rattle.api_routes.specs.Digests.{byte_written};

use site_types::{DIGEST_BYTES, Digest};

/// How many digits write a digest.
const DIGEST_DIGITS: usize = 2 * DIGEST_BYTES;

/// The digest that 64 lower-case hexadecimal digits write, two for each byte and the higher first.
pub(crate) fn written_digest(text: &[u8]) -> Option<Digest>
    ensures { result ≡ digest_of text.now }
{
    if text.len() != DIGEST_DIGITS {
        return None;
    }
    let bytes = written_bytes(text)?;
    Some(Digest::new(bytes))
}

/// The bytes that so many digits write.
fn written_bytes(digits: &[u8]) -> Option<[u8; DIGEST_BYTES]>
    requires { length digits.now ≡ 2 * DIGEST_BYTES }
    ensures { result ≡ hex_bytes digits.now }
{
    let mut bytes = [0; DIGEST_BYTES];
    let mut left = digits;
    for i in 0..DIGEST_BYTES {
        let [high, low, rest @ ..] = left else {
            return None;
        };
        bytes[i] = written_byte(*high, *low)?;
        left = rest;
    }
    Some(bytes)
}

/// The byte that two digits write.
fn written_byte(high: u8, low: u8) -> Option<u8>
    ensures { result ≡ byte_written high low }
{
    let higher = digit(high)?;
    let lower = digit(low)?;
    Some(higher * 16 + lower)
}

/// The number that a lower-case hexadecimal digit writes.
fn digit(byte: u8) -> Option<u8>
    ensures value { result ≡ hex_digit byte }
    ensures range { IfSome result (λ digit. digit < 16) }
{
    match byte {
        b'0'..=b'9' => Some(byte - b'0'),
        b'a'..=b'f' => Some(byte - b'a' + 10),
        _ => None,
    }
}
