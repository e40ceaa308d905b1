// From the bytes of a stream to its segments.
ghost use Rattle.std.specs.Prelude.{◌≡◌, true, false, [], ◌++◌, IfOk, OnOk, IfSome, IfNone, MatchOption};
ghost use Rattle.ss_base.specs.Profile.{numbers_of};
ghost use Rattle.tttd_chunker.specs.Cut.{has_cut};
ghost use Rattle.segment_reader.specs.Grouping.{numbers_in, bytes_in, IsInStep, HasNone};
ghost use Rattle.segment_reader.specs.Next.{IsNext};

use segmenter::{Segment, Segmenter};
use ss_base::{Memory, Profile};
use std::alloc::Global;
use tttd_chunker::Chunker;

/// Groups the chunks of a stream while its bytes come. After an error a chunk may be lost.
#[derive(Drop)]
pub struct Grouping {
    pub chunker: Chunker,
    pub segmenter: Segmenter,
}

impl Grouping {
    /// A stream that begins.
    pub fn new(alloc: Global, profile: Profile) -> Result<Self, Memory>
        ensures numbers { IfOk result (λ g. numbers_in g ≡ numbers_of profile) }
        ensures in_step { IfOk result IsInStep }
        ensures bytes { IfOk result (λ g. bytes_in g ≡ []) }
    {
        Ok(Grouping {
            chunker: Chunker::new(alloc, profile)?,
            segmenter: Segmenter::new(alloc, profile),
        })
    }

    /// Adds the next bytes of the stream.
    pub fn push(&mut self, bytes: &[u8]) -> Result<(), Memory>
        requires { IsInStep self.old }
        ensures numbers { numbers_in self.new ≡ numbers_in self.old }
        ensures in_step { OnOk result (IsInStep self.new) }
        ensures bytes { OnOk result (bytes_in self.new ≡ bytes_in self.old ++ bytes.now) }
    {
        self.chunker.push(bytes)
    }

    /// Takes out the first segment that is whole whatever comes, if one is.
    pub fn next(&mut self, alloc: Global) -> Result<Option<Segment>, Memory>
        requires { IsInStep self.old }
        ensures numbers { numbers_in self.new ≡ numbers_in self.old }
        ensures in_step { OnOk result (IsInStep self.new) }
        ensures some { IfOk result (λ found. IfSome found (λ segment.
            IsNext (numbers_in self.old) false segment (bytes_in self.old) (bytes_in self.new))) }
        ensures same { IfOk result (λ found. IfNone found (bytes_in self.new ≡ bytes_in self.old)) }
        ensures none { IfOk result (λ found. IfNone found (HasNone self.new)) }
    {
        while let Some(chunk) = self.chunker.next(alloc)? {
            if let Some(segment) = self.segmenter.add(&chunk)? {
                return Ok(Some(segment));
            }
        }
        Ok(None)
    }

    /// Takes out the last segment of the stream, which ends here. `None` comes exactly where nothing pends.
    pub fn rest(&mut self, alloc: Global) -> Result<Option<Segment>, Memory>
        requires in_step { IsInStep self.old }
        requires none { has_cut (numbers_in self.old) self.old.chunker.bytes ≡ false }
        ensures numbers { numbers_in self.new ≡ numbers_in self.old }
        ensures in_step { OnOk result (IsInStep self.new) }
        ensures bytes { OnOk result (bytes_in self.new ≡ []) }
        ensures last { IfOk result (λ found. MatchOption found (bytes_in self.old ≡ []) (λ segment.
            IsNext (numbers_in self.old) true segment (bytes_in self.old) [])) }
    {
        let Some(chunk) = self.chunker.rest(alloc)? else {
            return Ok(self.segmenter.rest());
        };
        if let Some(segment) = self.segmenter.add(&chunk)? {
            return Ok(Some(segment));
        }
        Ok(self.segmenter.rest())
    }
}
