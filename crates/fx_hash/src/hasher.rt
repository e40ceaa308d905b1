// The hasher: the state is turned, each word is joined by xor, and the whole is multiplied by one odd number.
ghost use Rattle.std.specs.Prelude.{◌≡◌, ◌≤◌, length};
ghost use Rattle.fx_hash.specs.Fx.{start, word_of, one_more, after};

use std::collections::HashMap;
use std::hash::{BuildHasherDefault, Hasher};

/// The state of FxHash after some words. A number of up to 64 bits is one word. Other bytes are taken eight at a time,
/// and what is left is one word too, where rustc takes four, two and one. Like std's own hasher it has no secret key, so
/// whoever picks the keys can make them collide: it is for keys that the store itself numbers.
#[derive(Clone, Copy, Drop)]
pub struct FxHasher {
    state: u64,
}

/// A map that hashes its keys by FxHash.
pub type FxMap<K, V> = HashMap<K, V, BuildHasherDefault<FxHasher>>;

impl Default for FxHasher {
    ghost is_default = { λ h. h ≡ start };

    fn default() -> FxHasher {
        FxHasher { state: 0 }
    }
}

#[inline]
fn one_word_more(state: u64, word: u64) -> u64
    ensures { result ≡ one_more state word }
{
    (state.rotate_left(5) ^ word).wrapping_mul(0x517c_c1b7_2722_0a95)
}

// Up to eight bytes as a word.
fn read_word(bytes: &[u8]) -> u64
    requires { length bytes.now ≤ 8 }
    ensures { result ≡ word_of bytes.now }
{
    let mut word = [0; 8];
    word[..bytes.len()].copy_from_slice(bytes);
    u64::from_le_bytes(word)
}

impl Hasher for FxHasher {
    ghost write = { after };

    ghost finish = { λ h. h.state };

    #[inline]
    fn finish(&self) -> u64 {
        self.state
    }

    fn write(&mut self, bytes: &[u8]) {
        for part in bytes.chunks(8) {
            self.state = one_word_more(self.state, read_word(part));
        }
    }

    #[inline]
    fn write_u8(&mut self, i: u8) {
        self.state = one_word_more(self.state, i as u64);
    }

    #[inline]
    fn write_u32(&mut self, i: u32) {
        self.state = one_word_more(self.state, i as u64);
    }

    #[inline]
    fn write_u64(&mut self, i: u64) {
        self.state = one_word_more(self.state, i);
    }

    #[inline]
    fn write_usize(&mut self, i: usize) {
        self.state = one_word_more(self.state, i as u64);
    }
}
