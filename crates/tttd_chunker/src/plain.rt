// The cut by the plain program, which computes the fingerprint anew at each tested position.
ghost use Rattle.std.specs.Prelude.{◌≡◌, ◌<◌, ◌≤◌, IfOk, map, length};
ghost use Rattle.ss_base.specs.Profile.{numbers_of, AreSound};
ghost use Rattle.ss_base.specs.Search.{least, greatest};
ghost use Rattle.tttd_chunker.specs.Cut.{meets, first_cut, cut};

use roll_hash::fingerprint;
use ss_base::{Memory, Numbers, Profile};
use std::alloc::Global;

/// The chunks of these bytes, in order, as `cut_all` gives them, found slowly. Only want of memory is an error.
pub fn cut_plainly(alloc: Global, profile: Profile, bytes: &[u8]) -> Result<Vec<Vec<u8>>, Memory>
    ensures { IfOk result (λ chunks. map (λ c. c.items) chunks.items ≡ cut (numbers_of profile) bytes.now) }
{
    let numbers = profile.numbers();
    let mut chunks = Vec::new(alloc);
    let mut rest = bytes;
    while !rest.is_empty() {
        let len = first_cut(&numbers, rest);
        chunks.push(rest[..len].to_vec(alloc)?)?;
        rest = &rest[len..];
    }
    Ok(chunks)
}

// The length of the first chunk.
fn first_cut(numbers: &Numbers, rest: &[u8]) -> usize
    requires sound { AreSound numbers.now }
    requires some { 0 < length rest.now }
    ensures value { result ≡ first_cut numbers.now rest.now }
    ensures positive { 0 < result }
    ensures within { result ≤ length rest.now }
{
    let tmin = numbers.tmin as usize;
    let tmax = numbers.tmax as usize;
    match first_met(rest, numbers.d, tmin, tmax.min(rest.len())) {
        Some(main) => main,
        None if rest.len() < tmax => rest.len(),
        None => last_met(rest, numbers.d2, tmin, tmax).unwrap_or(tmax),
    }
}

// The least position from low to high that meets the test by a divisor.
fn first_met(rest: &[u8], divisor: u32, low: usize, high: usize) -> Option<usize>
    requires window { 48 ≤ low }
    requires within { high ≤ length rest.now }
    requires divisor { 0 < divisor }
    ensures { result ≡ least (meets divisor rest.now) low high }
{
    for k in low..high + 1 {
        if meets(rest, divisor, k) {
            return Some(k);
        }
    }
    None
}

// The greatest position from low to high that meets the test by a divisor.
fn last_met(rest: &[u8], divisor: u32, low: usize, high: usize) -> Option<usize>
    requires window { 48 ≤ low }
    requires within { high ≤ length rest.now }
    requires range { low ≤ high }
    requires divisor { 0 < divisor }
    ensures { result ≡ greatest (meets divisor rest.now) low high }
{
    let mut found = None;
    for k in low..high + 1 {
        if meets(rest, divisor, k) {
            found = Some(k);
        }
    }
    found
}

// Whether a position meets the test by a divisor.
fn meets(rest: &[u8], divisor: u32, k: usize) -> bool
    requires window { 48 ≤ k }
    requires within { k ≤ length rest.now }
    requires divisor { 0 < divisor }
    ensures { result ≡ meets divisor rest.now k }
{
    fingerprint(&rest[k - 48..k]) % divisor == divisor - 1
}
