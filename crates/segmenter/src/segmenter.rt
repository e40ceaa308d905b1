// The rule by which a segment ends, applied while chunks come.
ghost use Rattle.std.specs.Prelude.{◌≡◌, ℕ, ◌+◌, ◌≤◌, ◌↔◌, List, [], ◌∷◌, ◌++◌, length, IsTrue, IsSome, is_some, if◌then◌else◌, IfOk, IfSome, OnErr, OnSome};
ghost use Rattle.ss_base.specs.Profile.{numbers_of, AreSound};
ghost use Rattle.chunk_name.specs.Pieces.{name_of_bytes};
ghost use Rattle.segmenter.specs.Segment.{HasChunks};
ghost use Rattle.segmenter.specs.Segments.{ends_behind, segments};

use crate::Segment;
use crate::joined::Joined;
use ss_base::{Memory, Name, Numbers, Profile};
use std::alloc::Global;
use std::marker::Model;

/// Groups a stream's chunks into segments, one chunk at a time. Contracts see the profile's numbers and the chunks
/// of the segment that hasn't ended yet.
#[derive(Drop)]
pub struct Segmenter {
    numbers: Numbers,
    chunks: Joined,
}

impl Model for Segmenter {
    ghost use Rattle.segmenter.specs.Pending.{Pending, IsPending};

    ghost Value = { Pending };

    ghost view = { λ s. record { numbers = s.numbers; chunks = s.chunks } };

    ghost invariant = { λ s. IsPending (record { numbers = s.numbers; chunks = s.chunks }) };
}

impl Segmenter {
    /// A segmenter at the start of a stream. It takes no memory.
    pub fn new(alloc: Global, profile: Profile) -> Self
        ensures { result ≡ record { numbers = numbers_of profile; chunks = [] } }
    {
        Segmenter {
            numbers: profile.numbers(),
            chunks: Joined::new(alloc),
        }
    }

    /// Adds the stream's next chunk, and gives the segment that ends behind it, if one does.
    pub fn add(&mut self, chunk: &[u8]) -> Result<Option<Segment>, Memory>
        requires some { 1 ≤ length chunk.now }
        requires fits { length chunk.now ≤ self.old.numbers.tmax }
        ensures ends { IfOk result (λ found. IsSome found ↔ IsTrue (ends_behind self.old.numbers (length self.old.chunks + 1) (name_of_bytes chunk.now))) }
        ensures segment { IfOk result (λ found. IfSome found (λ s. HasChunks s (self.old.chunks ++ chunk.now ∷ []))) }

        // The segment is the first of those of the definition, whatever comes after this chunk.
        ensures first { IfOk result (λ found. OnSome found ((later : List (List ℕ)) →
            segments self.old.numbers (self.old.chunks ++ chunk.now ∷ later) ≡ (self.old.chunks ++ chunk.now ∷ []) ∷ segments self.old.numbers later)) }
        ensures pending { IfOk result (λ found. self.new.chunks ≡ (if is_some found then [] else self.old.chunks ++ chunk.now ∷ [])) }
        ensures numbers { self.new.numbers ≡ self.old.numbers }
        ensures err { OnErr result (self.new ≡ self.old) }
    {
        let name = self.chunks.push(chunk)?;
        if !ends_behind(&self.numbers, self.chunks.len(), &name) {
            return Ok(None);
        }
        Ok(Some(self.chunks.take()))
    }

    /// The segment that ends with the stream. `None` comes exactly where no chunk pends. It takes no memory.
    pub fn rest(&mut self) -> Option<Segment>
        ensures found { IsSome result ↔ (1 ≤ length self.old.chunks) }
        ensures segment { IfSome result (λ s. HasChunks s self.old.chunks) }
        ensures last { segments self.old.numbers self.old.chunks ≡ (if is_some result then self.old.chunks ∷ [] else []) }
        ensures after { self.new ≡ record self.old { chunks = [] } }
    {
        if self.chunks.len() == 0 {
            return None;
        }
        Some(self.chunks.take())
    }
}

// Whether a segment ends behind the last of count chunks, which has this name.
fn ends_behind(numbers: &Numbers, count: usize, name: &Name) -> bool
    requires { AreSound numbers.now }
    ensures { result ≡ ends_behind numbers.now count name.now }
{
    let last = u32::from(name.0[30]) * 256 + u32::from(name.0[31]);
    count >= numbers.smin as usize && last % numbers.sdiv == 0 || count == numbers.smax as usize
}
