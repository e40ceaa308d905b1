// Limits of streams and of what is stored of them. All are this project's own choice.

/// The greatest length of a chunk in bytes, that of the profile with the longest chunks.
pub const MAX_CHUNK_LEN: u32 = 11_200;

/// The greatest number of chunks of a segment, and so of the pieces of a manifest.
pub const MAX_CHUNKS: usize = 4_096;

/// The greatest number of champions of a segment.
pub const MAX_CHAMPIONS: usize = 255;

/// How many bytes of a stream or an object are read at a time, and how many of a text are written at least.
pub const PIECE_LEN: usize = 65_536;
