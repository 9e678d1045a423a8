//! A call that a disk in memory was told.

/// A call that did something. The bytes of a write stand apart, in the order of the writes.
#[derive(Drop)]
pub(crate) enum Told {
    /// Bytes were written to a file at an offset, so many of them.
    Write { file: u8, at: usize, count: usize },
    /// A file was cut to a length.
    Cut { file: u8, size: usize },
    /// A file was brought to the disk.
    Sync { file: u8 },
}
