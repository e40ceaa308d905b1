// The search for the first cut of bytes that come in pieces. A fingerprint is carried from byte to byte, from 48
// bytes before the lower threshold on.
ghost use Rattle.std.specs.Prelude.{◌≡◌, ℕ, ◌+◌, ◌<◌, ◌≤◌, List, length, min, unwrap_or, MatchOption};
ghost use Rattle.ss_base.specs.Profile.{numbers_of, AreSound};
ghost use Rattle.ss_base.specs.Search.{NonePasses, IsLeast};
ghost use Rattle.roll_hash.specs.Fingerprint.{window_sum};
ghost use Rattle.tttd_chunker.specs.Cut.{window, meets, has_cut};
ghost use Rattle.tttd_chunker.specs.Scanned.{HasScanned, IsScannedTo, IsProgress, is_cut};

use crate::progress::{Progress, Scan};
use roll_hash::{high_half, slide, sum_of};
use ss_base::{Numbers, Profile};

// Goes on with the search where bytes have come.
pub fn advanced(bytes: &[u8], progress: Progress, profile: Profile) -> Progress
    requires { IsProgress (numbers_of profile) bytes.now progress }
    ensures progress { IsProgress (numbers_of profile) bytes.now result }
    ensures found { is_cut result ≡ has_cut (numbers_of profile) bytes.now }
{
    let numbers = profile.numbers();
    match progress {
        Progress::Fresh if bytes.len() < numbers.tmin as usize => Progress::Fresh,
        Progress::Fresh => match begun(bytes, &numbers) {
            Progress::Scanned(scan) => decided(bytes, searched(bytes, scan, profile), &numbers),
            Progress::Cut(len) => decided(bytes, Progress::Cut(len), &numbers),
            Progress::Fresh => Progress::Fresh,
        },
        Progress::Scanned(scan) => decided(bytes, searched(bytes, scan, profile), &numbers),
        Progress::Cut(len) => Progress::Cut(len),
    }
}

// The search at the lower threshold.
fn begun(bytes: &[u8], numbers: &Numbers) -> Progress
    requires sound { AreSound numbers.now }
    requires enough { numbers.now.tmin ≤ length bytes.now }
    ensures { IsScannedTo numbers.now bytes.now numbers.now.tmin result }
{
    let at = numbers.tmin as usize;
    let sum = sum_of(&bytes[at - 48..at]);
    if !met(sum, numbers.d2) {
        Progress::Scanned(Scan {
            at,
            sum,
            backup: None,
        })
    } else if met(sum, numbers.d) {
        Progress::Cut(at)
    } else {
        Progress::Scanned(Scan {
            at,
            sum,
            backup: Some(at),
        })
    }
}

// The search to the upper threshold or the end of the bytes. Each profile has a loop of its own, in which its
// divisors are constants.
fn searched(bytes: &[u8], scan: Scan, profile: Profile) -> Progress
    requires scan { HasScanned (numbers_of profile) bytes.now scan }
    requires below { scan.at ≤ (numbers_of profile).tmax }
    ensures { IsScannedTo (numbers_of profile) bytes.now (min (numbers_of profile).tmax (length bytes.now)) result }
{
    match profile {
        Profile::Tiny => search(bytes, scan, &Profile::Tiny.numbers()),
        Profile::Small => search(bytes, scan, &Profile::Small.numbers()),
        Profile::Large => search(bytes, scan, &Profile::Large.numbers()),
    }
}

#[inline(always)]
fn search(bytes: &[u8], scan: Scan, numbers: &Numbers) -> Progress
    requires sound { AreSound numbers.now }
    requires scan { HasScanned numbers.now bytes.now scan }
    requires below { scan.at ≤ numbers.now.tmax }
    ensures { IsScannedTo numbers.now bytes.now (min numbers.now.tmax (length bytes.now)) result }
{
    let end = (numbers.tmax as usize).min(bytes.len());
    let mut scan = scan;
    loop {
        let stop = next_met(bytes, end, scan.at, scan.sum, numbers.d2);
        match stop.found {
            None => {
                return Progress::Scanned(Scan {
                    at: end,
                    sum: stop.sum,
                    backup: scan.backup,
                });
            }
            Some(at) if met(stop.sum, numbers.d) => return Progress::Cut(at),
            Some(at) => {
                scan = Scan {
                    at,
                    sum: stop.sum,
                    backup: Some(at),
                };
            }
        }
    }
}

// Where a search for a test stopped: at a position that meets it, or at the end. The sum is of the window there.
#[derive(Clone, Copy)]
struct Stop {
    found: Option<usize>,
    sum: u64,
}

// The least position after `at`, up to `end`, that meets the test by a divisor.
#[inline(always)]
fn next_met(bytes: &[u8], end: usize, at: usize, sum: u64, divisor: u32) -> Stop
    requires window { 48 ≤ at }
    requires range { at ≤ end }
    requires within { end ≤ length bytes.now }
    requires divisor { 0 < divisor }
    requires sum { sum ≡ window_sum (window bytes.now at) }
    ensures found { MatchOption result.found (NonePasses (meets divisor bytes.now) (at + 1) end)
        (IsLeast (meets divisor bytes.now) (at + 1) end) }
    ensures sum { result.sum ≡ window_sum (window bytes.now (unwrap_or result.found end)) }
{
    let mut sum = sum;
    for k in at..end {
        sum = slide(sum, bytes[k - 48], bytes[k]);
        if met(sum, divisor) {
            return Stop {
                found: Some(k + 1),
                sum,
            };
        }
    }
    Stop { found: None, sum }
}

// Whether the positions whose window has this sum meet the test by a divisor.
#[inline(always)]
fn met(sum: u64, divisor: u32) -> bool
    requires { 0 < divisor }
    ensures { (bytes : List ℕ) (k : ℕ) → sum ≡ window_sum (window bytes k) → result ≡ meets divisor bytes k }
{
    high_half(sum) % divisor == divisor - 1
}

// The length of the first chunk, where the search has come to the upper threshold.
fn decided(bytes: &[u8], progress: Progress, numbers: &Numbers) -> Progress
    requires sound { AreSound numbers.now }
    requires scanned { IsScannedTo numbers.now bytes.now (min numbers.now.tmax (length bytes.now)) progress }
    ensures progress { IsProgress numbers.now bytes.now result }
    ensures found { is_cut result ≡ has_cut numbers.now bytes.now }
{
    let tmax = numbers.tmax as usize;
    match progress {
        Progress::Fresh => Progress::Fresh,
        Progress::Scanned(scan) if bytes.len() < tmax => Progress::Scanned(scan),
        Progress::Scanned(scan) => Progress::Cut(scan.backup.unwrap_or(tmax)),
        Progress::Cut(len) => Progress::Cut(len),
    }
}
