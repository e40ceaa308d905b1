// The fingerprint of a window, computed anew.
ghost use Rattle.std.specs.Prelude.{◌≡◌};
ghost use Rattle.roll_hash.specs.Fingerprint.{window_sum, fingerprint};

use crate::{append, high_half};

/// The fingerprint of a window: the sum of its bytes modulo 2^64, each byte times `0x9E3779B97F4A7C15` to the
/// number of bytes that follow it, divided by 2^32 and rounded down. A window has 48 bytes; other lengths are
/// summed alike.
pub fn fingerprint(window: &[u8]) -> u32
    ensures { result ≡ fingerprint window.now }
{
    high_half(sum_of(window))
}

/// The sum modulo 2^64 of a window.
pub fn sum_of(window: &[u8]) -> u64
    ensures { result ≡ window_sum window.now }
{
    let mut sum = 0;
    for byte in window {
        sum = append(sum, *byte);
    }
    sum
}
