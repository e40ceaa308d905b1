// Chunks are named by their SHA-256, and listed by name and length.

/// The SHA-256 of a chunk, or of a text. Names are ordered by their bytes.
#[derive(Clone, Copy, Debug, PartialEq, Eq, PartialOrd, Ord, Hash)]
pub struct Name(pub [u8; 32]);

/// What stands for a chunk in a list: its name, and its length in bytes.
#[derive(Clone, Copy, Debug, PartialEq, Eq, PartialOrd, Ord, Hash)]
pub struct Piece {
    pub name: Name,
    pub len: u32,
}
