// Names of streams.
ghost use Rattle.std.specs.Prelude.{◌≡◌, ◌↔◌, IsTrue, IsSome, IfSome};
ghost use Rattle.ss_base.specs.StreamName.{is_stream_byte, IsStreamName};

use crate::ShortText;
use std::marker::Model;

const MAX_LEN: usize = 64;

/// The name of a stream: 1 to 64 bytes of `A-Z a-z 0-9 . _ -`. Contracts see its bytes. Names are ordered by
/// their bytes, a prefix before what it begins.
#[derive(Debug, PartialEq, Eq, PartialOrd, Ord, Hash)]
pub struct StreamName {
    text: ShortText<MAX_LEN>,
}

impl Model for StreamName {
    ghost use Rattle.std.specs.Prelude.{List, ℕ, refl};
    ghost use Rattle.ss_base.specs.StreamName.{IsStreamName};

    ghost Value = { List ℕ };

    ghost view = { λ s. s.text };

    ghost invariant = { λ s. IsStreamName s.text };

    ghost inverse = { λ name. record { text = name } };

    ghost inverse_ok = { λ _ _. refl };
}

impl Copy for StreamName {}

impl Clone for StreamName {
    fn clone(&self) -> Result<Self, std::alloc::AllocError> {
        Ok(*self)
    }
}

impl StreamName {
    /// The stream name with these bytes. `None` comes exactly where [`is_stream_name`] answers false.
    pub fn new(text: &[u8]) -> Option<Self>
        ensures found { IsSome result ↔ IsStreamName text.now }
        ensures bytes { IfSome result (λ name. name ≡ text.now) }
    {
        if !is_stream_name(text) {
            return None;
        }
        Some(StreamName {
            text: ShortText::new(text),
        })
    }

    /// The name's bytes.
    pub fn bytes(&self) -> &[u8]
        ensures bytes { result.now ≡ self.now }
        ensures name { IsStreamName self.now }
    {
        self.text.bytes()
    }
}

/// Whether these bytes are a stream name: 1 to 64 of `A-Z a-z 0-9 . _ -`.
pub fn is_stream_name(text: &[u8]) -> bool
    ensures { IsTrue result ↔ IsStreamName text.now }
{
    !text.is_empty() && text.len() <= MAX_LEN && text.iter().all(|b| is_stream_byte(*b))
}

fn is_stream_byte(b: u8) -> bool
    ensures { result ≡ is_stream_byte b }
{
    b.is_ascii_alphanumeric() || matches!(b, b'.' | b'_' | b'-')
}
