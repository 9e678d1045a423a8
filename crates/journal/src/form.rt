//! The form of a journal's file.
ghost use Rattle.std.specs.Prelude.{◌≡◌, ◌↔◌, IsTrue, ◌+◌, ◌%◌, ◌<◌, ◌++◌, [], ◌∷◌, length};
ghost use Rattle.journal.specs.Form.{journal_file as file_of, header};

/// The bytes of a journal without records, its closed gate included.
pub const HEADER_SIZE: u64 = 17;

/// The most bytes of a journal's file: 2^40.
pub const MAX_FILE_SIZE: u64 = 1_099_511_627_776;

/// The number of the file that journal `k` is in: 2 or 3.
pub(crate) fn journal_file(k: u64) -> u8
    ensures { result ≡ file_of k }
{
    2 + (k % 2) as u8
}

/// The bytes of journal `k` without records: its header and a closed gate.
pub(crate) fn fresh_bytes(k: u64) -> [u8; 17]
    ensures { result ≡ header k ++ 0 ∷ [] }
{
    let k = k.to_be_bytes();
    [
        b'W', b'P', b'T', b'J', b'R', b'N', b'L', b'1', k[0], k[1], k[2], k[3], k[4], k[5], k[6],
        k[7], 0,
    ]
}

/// Is it the header of journal `k`?
pub(crate) fn is_header(k: u64, bytes: &[u8]) -> bool
    ensures { IsTrue result ↔ (bytes.now ≡ header k) }
{
    let fresh = fresh_bytes(k);
    bytes == &fresh[..16]
}
