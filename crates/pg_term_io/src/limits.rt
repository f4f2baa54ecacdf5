//! How large a term may be.

/// How many levels of terms may nest.
pub const MAX_DEPTH: u8 = 64;

/// How many bytes a term may take, with the byte 131.
pub const MAX_LEN: usize = 16_777_216;
