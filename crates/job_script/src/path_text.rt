// Names of files.
ghost use Rattle.std.specs.Prelude.{◌≡◌, ◌↔◌, IsTrue, IsSome, IfSome};
ghost use Rattle.job_script.specs.FileName.{IsFileName};

use ss_base::ShortText;
use std::marker::Model;

const MAX_LEN: usize = 255;

/// The name of a file: 1 to 255 bytes from 0x21 to 0x7E. Contracts see its bytes.
#[derive(Debug, PartialEq, Eq)]
pub struct PathText {
    text: ShortText<MAX_LEN>,
}

impl Model for PathText {
    ghost use Rattle.std.specs.Prelude.{List, ℕ, refl};
    ghost use Rattle.job_script.specs.FileName.{IsFileName};

    ghost Value = { List ℕ };

    ghost view = { λ s. s.text };

    ghost invariant = { λ s. IsFileName s.text };

    ghost inverse = { λ name. record { text = name } };

    ghost inverse_ok = { λ _ _. refl };
}

impl Copy for PathText {}

impl Clone for PathText {
    fn clone(&self) -> Result<Self, std::alloc::AllocError> {
        Ok(*self)
    }
}

impl PathText {
    /// The file name with these bytes. `None` comes exactly where they are none.
    pub fn new(text: &[u8]) -> Option<Self>
        ensures found { IsSome result ↔ IsFileName text.now }
        ensures bytes { IfSome result (λ name. name ≡ text.now) }
    {
        if !is_file_name(text) {
            return None;
        }
        Some(PathText {
            text: ShortText::new(text),
        })
    }

    /// The name's text.
    pub fn as_str(&self) -> &str
        ensures bytes { result.now ≡ self.now }
        ensures name { IsFileName self.now }
    {
        str::from_utf8(self.text.bytes()).unwrap()
    }
}

fn is_file_name(text: &[u8]) -> bool
    ensures { IsTrue result ↔ IsFileName text.now }
{
    !text.is_empty() && text.len() <= MAX_LEN && text.iter().all(|b| b.is_ascii_graphic())
}
