// Short texts, kept without memory.
ghost use Rattle.std.specs.Prelude.{◌≡◌, ◌≤◌, length};

use std::marker::Model;

/// At most `N` bytes. Contracts see them. Texts are ordered by their bytes, a prefix before what it begins.
#[derive(Debug, PartialEq, Eq, PartialOrd, Ord, Hash)]
pub struct ShortText<const N: usize> {
    // Zeros stand behind the text's bytes.
    bytes: [u8; N],
    len: usize,
}

impl<const N: usize> Model for ShortText<N> {
    ghost use Rattle.std.specs.Prelude.{List, ℕ};

    ghost Value = { List ℕ };

    ghost use Rattle.ss_base.specs.Padded.{text_bytes, padded, IsPadded, padded-text_bytes};

    ghost view = { text_bytes };

    ghost invariant = { IsPadded };

    ghost inverse = { padded };

    ghost inverse_ok = { padded-text_bytes };
}

impl<const N: usize> Copy for ShortText<N> {}

impl<const N: usize> Clone for ShortText<N> {
    fn clone(&self) -> Result<Self, std::alloc::AllocError> {
        Ok(*self)
    }
}

impl<const N: usize> ShortText<N> {
    /// The text with these bytes.
    pub fn new(text: &[u8]) -> Self
        requires { length text.now ≤ N }
        ensures { result ≡ text.now }
    {
        let mut bytes = [0; N];
        bytes[..text.len()].copy_from_slice(text);
        ShortText {
            bytes,
            len: text.len(),
        }
    }

    /// The text's bytes.
    pub fn bytes(&self) -> &[u8]
        ensures bytes { result.now ≡ self.now }
        ensures len { length self.now ≤ N }
    {
        &self.bytes[..self.len]
    }
}
