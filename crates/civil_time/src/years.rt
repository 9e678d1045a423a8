//! The years that have moments.

/// The first year that has moments.
pub const FIRST_YEAR: u16 = 1970;

/// The last year that has moments.
pub const LAST_YEAR: u16 = 9998;
