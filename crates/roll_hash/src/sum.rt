// The sum of a window, modulo 2^64, as its bytes come and go. The fingerprint is its high half.
ghost use Rattle.std.specs.Prelude.{◌≡◌, ℕ, List, [], ◌∷◌, ◌++◌, length};
ghost use Rattle.roll_hash.specs.Fingerprint.{window_sum, fingerprint};

const BASE: u64 = 0x9E37_79B9_7F4A_7C15;

// 2^64 less BASE^48 modulo 2^64: it takes away the byte that leaves a window of 48.
const LEAVING: u64 = 0xEFCF_ECB6_D7E9_71BF;

/// The sum of a window with one byte more at its end.
#[inline]
pub fn append(sum: u64, byte: u8) -> u64
    ensures { (window : List ℕ) → sum ≡ window_sum window → result ≡ window_sum (window ++ byte ∷ []) }
{
    sum.wrapping_mul(BASE).wrapping_add(u64::from(byte))
}

/// The sum of a window of 48 bytes whose first byte leaves it, while another comes at its end.
#[inline]
pub fn slide(sum: u64, first: u8, byte: u8) -> u64
    ensures { (rest : List ℕ) → length rest ≡ 47 → sum ≡ window_sum (first ∷ rest) → result ≡ window_sum (rest ++ byte ∷ []) }
{
    let change = u64::from(first)
        .wrapping_mul(LEAVING)
        .wrapping_add(u64::from(byte));
    sum.wrapping_mul(BASE).wrapping_add(change)
}

/// The fingerprint of the window that has this sum.
#[inline]
pub fn high_half(sum: u64) -> u32
    ensures { (window : List ℕ) → sum ≡ window_sum window → result ≡ fingerprint window }
{
    (sum >> 32) as u32
}
