// `segments`: one line for each segment.
ghost use Rattle.std.specs.Prelude.{◌≡◌, ◌≤◌, List, ℕ, length, IfOk, string_bytes};
ghost use Rattle.ss_base.specs.Profile.{numbers_of};
ghost use Rattle.ss_base.specs.Search.{NonePasses};
ghost use Rattle.segmenter.specs.Segment.{HasChunks};
ghost use Rattle.segmenter.specs.Segments.{ends_at};
ghost use Rattle.store_run.specs.Lines.{segment_line};

use crate::chunk_lines::ChunkLines;
use chunk_name::hex_of;
use hook_sampler::hooks;
use manifest_codec::content;
use segmenter::{Segment, Segmenter};
use ss_base::{Memory, Profile};
use std::alloc::Global;

/// The lines of `segments`: the digits of the SHA-256 of the segment's pieces part, and its numbers of chunks, bytes
/// and hooks.
#[derive(Drop)]
pub struct SegmentLines {
    segmenter: Segmenter,
    bits: u32,
    ghost sampled: { bits ≡ segmenter.numbers.bits },
    ghost few: { bits ≤ 32 },
    ghost pending: { NonePasses (ends_at segmenter.numbers segmenter.chunks) 1 (length segmenter.chunks) },
}

impl SegmentLines {
    ghost use Rattle.store_run.specs.SegmentLines.{StartsWith};

    /// The lines of a stream that begins.
    pub fn new(alloc: Global, profile: Profile) -> Self
        ensures { StartsWith (numbers_of profile) result }
    {
        SegmentLines {
            segmenter: Segmenter::new(alloc, profile),
            bits: profile.numbers().bits,
        }
    }
}

impl ChunkLines for SegmentLines {
    ghost use Rattle.std.specs.Prelude.{◌++◌};
    ghost use Rattle.store_run.specs.Lines.{segment_lines};

    ghost text = { λ stage s chunks. segment_lines stage s.segmenter.numbers (s.segmenter.chunks ++ chunks) };

    ghost most = { λ s. s.segmenter.numbers.tmax };

    fn add(&mut self, alloc: Global, chunk: &[u8]) -> Result<String, Memory> {
        match self.segmenter.add(chunk)? {
            Some(segment) => segment_line(alloc, &segment, self.bits),
            None => Ok(String::new(alloc)),
        }
    }

    fn rest(&mut self, alloc: Global) -> Result<String, Memory> {
        match self.segmenter.rest() {
            Some(segment) => segment_line(alloc, &segment, self.bits),
            None => Ok(String::new(alloc)),
        }
    }
}

#[tactic(auto, unfolding(crate::specs::Lines::segment_line))]
fn segment_line(alloc: Global, segment: &Segment, bits: u32) -> Result<String, Memory>
    requires { bits ≤ 32 }
    ensures { (chunks : List (List ℕ)) → HasChunks segment.now chunks →
        IfOk result (λ line. string_bytes line ≡ segment_line bits chunks) }
{
    let digits = hex_of(alloc, &content(&segment.pieces))?;
    let chunks = segment.pieces.len();
    let bytes = segment.bytes.len();
    let hooks = hooks(alloc, &segment.pieces, bits)?.len();
    Ok(format!(in alloc; "{digits} {chunks} {bytes} {hooks}\n")?)
}
