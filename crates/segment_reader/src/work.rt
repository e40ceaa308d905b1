// The segments of one stream, one by one.
ghost use Rattle.std.specs.Prelude.{◌≡◌, ◌-◌, ◌<◌, false, length, IfOk, IfSome, IfNone, IfErr, OnErr};
ghost use Rattle.outside.specs.Views.{source_view};
ghost use Rattle.segment_reader.specs.Whole.{above_pending};
ghost use Rattle.segment_reader.specs.WorkState.{unused, failed};
ghost use Rattle.segment_reader.specs.Answer.{GaveSegment, GaveNone};
ghost use Rattle.segment_reader.specs.Cause.{EndsFor, NextCount};

use crate::NextFault;
use crate::grouping::Grouping;
use crate::reading::read_segment;
use outside::Source;
use segmenter::Segment;
use ss_base::{Memory, Profile};
use std::alloc::Global;
use std::marker::Model;

/// What is kept of one stream between its segments: the bytes that were taken and are in no segment yet, by their
/// chunks. A call that answers an error counts none of the bytes that it read.
#[derive(Drop)]
pub struct Work {
    stream: Grouping,
    limit: u64,
    taken: u64,
    pending: u64,
    ended: bool,
    spent: bool,
}

impl Model for Work {
    ghost use Rattle.segment_reader.specs.WorkState.{WorkState};

    ghost Value = { WorkState };

    ghost use Rattle.segment_reader.specs.Kept.{seen, IsKept};

    ghost view = { seen };

    ghost invariant = { IsKept };
}

impl Work {
    /// The work on a stream of at most `limit` bytes, at its start.
    pub fn new(alloc: Global, profile: Profile, limit: u64) -> Result<Work, Memory>
        ensures { IfOk result (λ work. work ≡ unused profile limit) }
    {
        Ok(Work {
            stream: Grouping::new(alloc, profile)?,
            limit,
            taken: 0,
            pending: 0,
            ended: false,
            spent: false,
        })
    }

    /// Whether a call answered an error.
    pub fn spent(&self) -> bool
        ensures { result ≡ self.now.spent }
    {
        self.spent
    }

    /// How many bytes were taken and not given out.
    pub fn pending(&self) -> u64
        ensures number { result ≡ self.now.pending }
        ensures bytes { self.now.spent ≡ false → result ≡ length self.now.bytes }
    {
        self.pending
    }
}

/// The next segment of the stream. The source is read in pieces of 65,536 bytes, and only while no whole segment is
/// pending. `None` comes exactly where the source has ended and nothing is pending, `TooLong` exactly where the source
/// gave a byte past the limit, `Fault` where a read failed. After an error the work is spent. What stands behind the
/// source is as before.
pub fn next_segment<S: Source>(
    alloc: Global,
    source: &mut S,
    work: &mut Work,
) -> Result<Option<Segment>, NextFault>
    requires { work.old.spent ≡ false }
    ensures some { IfOk result (λ found. IfSome found (λ segment. GaveSegment work.old work.new
        (source_view ⟦<S as Source>⟧ source.old) (source_view ⟦<S as Source>⟧ source.new) segment)) }
    ensures none { IfOk result (λ found. IfNone found (GaveNone work.old work.new
        (source_view ⟦<S as Source>⟧ source.old) (source_view ⟦<S as Source>⟧ source.new))) }
    ensures ends { IfErr result (λ fault. EndsFor fault work.old.numbers (work.old.limit - work.old.taken) work.old.bytes
        (source_view ⟦<S as Source>⟧ source.old) (source_view ⟦<S as Source>⟧ source.new)) }
    ensures err { OnErr result (work.new ≡ failed work.old) }
    ensures count { NextCount result (S.faults source.old) (S.faults source.new) }
    ensures behind { S.behind source.new ≡ S.behind source.old }
    ensures few { work.new.pending < above_pending work.new.numbers }
{
    if work.ended {
        return Ok(None);
    }
    work.spent = true;
    let room = work.limit - work.taken;
    let found = read_segment(alloc, source, &mut work.stream, room)?;
    work.taken += found.read;
    work.pending = work.pending + found.read - len_of(&found.segment);
    work.ended = found.ended;
    work.spent = false;
    Ok(found.segment)
}

// How many bytes a segment has, if there is one.
fn len_of(segment: &Option<Segment>) -> u64
    ensures none { IfNone segment.now (result ≡ 0) }
    ensures some { IfSome segment.now (λ s. result ≡ length s.bytes.items) }
{
    match segment {
        Some(segment) => segment.bytes.len() as u64,
        None => 0,
    }
}
