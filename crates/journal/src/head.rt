//! What stands at a gate of a journal.
ghost use Rattle.std.specs.Prelude.{◌≡◌, ◌≢◌, ◌⊎◌, ℕ, ◌+◌, ◌<◌, ◌≤◌, ◌^◌, ◌∷◌, ◌++◌, length, take, drop, slice_index, min};
ghost use Rattle.journal.specs.Head.{IsHead};

/// What stands at a gate.
#[derive(Drop)]
pub(crate) enum Head {
    /// The gate is not open.
    Closed,
    /// The gate is open, and a whole record does not follow.
    Short,
    /// The gate is open, and a record follows whose payload has so many bytes.
    Open(u32),
}

/// What stands at a gate, by the first five bytes there, if there are so many, and by how many
/// bytes there are up to the end of the file.
pub(crate) fn read_head(bytes: &[u8], left: u64) -> Head
    requires some { 0 < left }
    requires shown { min 5 left ≤ length bytes.now }
    ensures { IsHead result bytes.now left }
{
    if bytes[0] != 1 {
        return Head::Closed;
    }
    if left < 6 {
        return Head::Short;
    }
    let count = u32::from_be_bytes([bytes[1], bytes[2], bytes[3], bytes[4]]);
    if u64::from(count) > left - 6 {
        return Head::Short;
    }
    Head::Open(count)
}
