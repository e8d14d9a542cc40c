//! The limits of a pickle.

/// The most bytes of a pickle.
pub const MOST_IN_ALL: usize = 16_000;
/// The most bytes in one value.
pub const MOST_BYTES: usize = 8_192;
/// The most elements in one list.
pub const MOST_ELEMENTS: usize = 256;
/// The most levels of a value.
pub const MOST_LEVELS: u32 = 16;
/// The most references in a value.
pub const MOST_REFERENCES: u32 = 32;
