// A hasher for names, which are themselves hashes.
ghost use Rattle.std.specs.Prelude.{◌≡◌, fold};
ghost use Rattle.sparse_index.specs.LastBytes.{start, after};

use std::hash::Hasher;

// The last eight bytes that were written, as one number. The first bits of a hook are 0, its last bytes are as good as
// random. No secret key is needed: std's own hasher has none, and a name can be chosen only by trying data.
#[derive(Clone, Copy, Drop)]
pub(crate) struct LastBytes {
    state: u64,
}

impl Default for LastBytes {
    ghost is_default = { λ h. h ≡ start };

    fn default() -> LastBytes {
        LastBytes { state: 0 }
    }
}

impl Hasher for LastBytes {
    ghost write = { after };

    ghost finish = { λ h. h.state };

    fn finish(&self) -> u64 {
        self.state
    }

    fn write(&mut self, bytes: &[u8]) {
        if let Some(last) = bytes.last_chunk::<8>() {
            self.state = u64::from_be_bytes(*last);
            return;
        }
        for byte in bytes {
            self.state = self.state.wrapping_mul(256) ^ (*byte as u64);
        }
    }
}
