// The cut of a stream that comes in pieces.
ghost use Rattle.std.specs.Prelude.{◌≡◌, ℕ, ◌<◌, ◌≤◌, ◌↔◌, false, List, [], ◌∷◌, ◌++◌, length, drop, is_some, IsSome, IfOk, IfSome, IfNone, MatchOption, OnOk, OnErr};
ghost use Rattle.ss_base.specs.Profile.{numbers_of};
ghost use Rattle.tttd_chunker.specs.Cut.{has_cut, cut};

use crate::progress::Progress;
use crate::scan::advanced;
use ss_base::{Memory, Profile};
use std::alloc::Global;
use std::marker::Model;

/// Cuts a stream into chunks while its bytes come in pieces. Contracts see the profile, and the pending bytes: those
/// that were pushed and are in no chunk yet. A chunker is as before after an error.
#[derive(Drop)]
pub struct Chunker {
    profile: Profile,
    buffer: Vec<u8>,
    // How many bytes at the buffer's front have left in chunks.
    start: usize,
    progress: Progress,
}

impl Model for Chunker {
    ghost use Rattle.tttd_chunker.specs.Pending.{Pending};

    ghost Value = { Pending };

    ghost use Rattle.tttd_chunker.specs.Kept.{kept_bytes, IsKept};

    ghost view = { kept_bytes };

    ghost invariant = { IsKept };
}

impl Chunker {
    /// A chunker with nothing pending.
    pub fn new(alloc: Global, profile: Profile) -> Result<Chunker, Memory>
        ensures profile { IfOk result (λ chunker. chunker.profile ≡ profile) }
        ensures bytes { IfOk result (λ chunker. chunker.bytes ≡ []) }
        ensures open { IfOk result (λ chunker. has_cut (numbers_of profile) chunker.bytes ≡ false) }
    {
        Ok(Chunker {
            profile,
            buffer: Vec::new(alloc),
            start: 0,
            progress: Progress::Fresh,
        })
    }

    /// Adds bytes to the pending ones.
    pub fn push(&mut self, bytes: &[u8]) -> Result<(), Memory>
        ensures profile { self.new.profile ≡ self.old.profile }
        ensures ok { OnOk result (self.new.bytes ≡ self.old.bytes ++ bytes.now) }
        ensures err { OnErr result (self.new ≡ self.old) }
    {
        self.start = compact(&mut self.buffer, self.start);
        self.buffer.extend_from_slice(bytes)?;
        Ok(())
    }

    /// Takes the first pending chunk out. `None` comes exactly where no pending position from the lower to the upper
    /// threshold meets the main test and fewer bytes are pending than the upper threshold.
    pub fn next(&mut self, alloc: Global) -> Result<Option<Vec<u8>>, Memory>
        ensures profile { self.new.profile ≡ self.old.profile }
        ensures found { IfOk result (λ chunk. is_some chunk ≡ has_cut (numbers_of self.old.profile) self.old.bytes) }
        ensures taken { IfOk result (λ found. IfSome found (λ chunk. self.old.bytes ≡ chunk.items ++ self.new.bytes)) }
        ensures none { IfOk result (λ found. IfNone found (self.new.bytes ≡ self.old.bytes)) }
        ensures err { OnErr result (self.new ≡ self.old) }

        // However the stream goes on, the chunk is the first of its cut.
        ensures cut { IfOk result (λ found. IfSome found (λ chunk. (more : List ℕ) →
            cut (numbers_of self.old.profile) (self.old.bytes ++ more)
            ≡ chunk.items ∷ cut (numbers_of self.old.profile) (self.new.bytes ++ more))) }
        ensures sized { IfOk result (λ found. IfSome found (λ chunk.
            (0 < length chunk.items) × (length chunk.items ≤ (numbers_of self.old.profile).tmax))) }
    {
        match advanced(&self.buffer[self.start..], self.progress, self.profile) {
            Progress::Cut(len) => {
                self.progress = Progress::Cut(len);
                let chunk = self.buffer[self.start..self.start + len].to_vec(alloc)?;
                self.start += len;
                self.progress = Progress::Fresh;
                Ok(Some(chunk))
            }
            progress => {
                self.progress = progress;
                Ok(None)
            }
        }
    }

    /// Takes the pending bytes out as the last chunk of the stream. `None` comes exactly where nothing is pending.
    pub fn rest(&mut self, alloc: Global) -> Result<Option<Vec<u8>>, Memory>
        requires { has_cut (numbers_of self.old.profile) self.old.bytes ≡ false }
        ensures profile { self.new.profile ≡ self.old.profile }
        ensures found { IfOk result (λ found. IsSome found ↔ (0 < length self.old.bytes)) }
        ensures chunk { IfOk result (λ found. IfSome found (λ chunk. chunk.items ≡ self.old.bytes)) }
        ensures ok { OnOk result (self.new.bytes ≡ []) }
        ensures err { OnErr result (self.new ≡ self.old) }

        // The stream ends here.
        ensures cut { IfOk result (λ found. MatchOption found (cut (numbers_of self.old.profile) self.old.bytes ≡ [])
            (λ chunk. cut (numbers_of self.old.profile) self.old.bytes ≡ chunk.items ∷ [])) }
        ensures sized { IfOk result (λ found. IfSome found (λ chunk. length chunk.items < (numbers_of self.old.profile).tmax)) }
    {
        if self.start == self.buffer.len() {
            return Ok(None);
        }
        let chunk = self.buffer[self.start..].to_vec(alloc)?;
        self.buffer.clear();
        self.start = 0;
        self.progress = Progress::Fresh;
        Ok(Some(chunk))
    }
}

// Moves the bytes from `start` on to the front, once at least as many have left. Answers where they start then.
fn compact(buffer: &mut Vec<u8>, start: usize) -> usize
    requires { start ≤ length buffer.old.items }
    ensures within { result ≤ length buffer.new.items }
    ensures same { drop result buffer.new.items ≡ drop start buffer.old.items }
{
    let left = buffer.len() - start;
    if start < left {
        return start;
    }
    buffer.copy_within(start.., 0);
    buffer.truncate(left);
    0
}
