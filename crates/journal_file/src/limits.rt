// Limits of a journal. Both are this project's own choice.

/// The greatest number of entries.
pub const MAX_ENTRIES: usize = 1_048_576;

/// The greatest weight of all entries.
pub const MAX_WEIGHT: u32 = 16_777_216;
