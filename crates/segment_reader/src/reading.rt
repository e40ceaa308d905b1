// A source is read until a segment is whole.
ghost use Rattle.std.specs.Prelude.{◌≡◌, ◌<◌, ◌+◌, length, IfOk, OnOk, IfErr};
ghost use Rattle.outside.specs.Views.{source_view};
ghost use Rattle.segment_reader.specs.Whole.{above_pending};
ghost use Rattle.segment_reader.specs.Grouping.{numbers_in, bytes_in, IsInStep};
ghost use Rattle.segment_reader.specs.Found.{HasFound};
ghost use Rattle.segment_reader.specs.Cause.{EndsFor, NextCount};

use crate::NextFault;
use crate::grouping::Grouping;
use outside::Source;
use segmenter::Segment;
use ss_base::PIECE_LEN;
use std::alloc::Global;

/// What a call found: a segment, or none at the end of the stream; how many bytes it read; whether the source ended.
#[derive(Drop)]
pub struct Found {
    pub segment: Option<Segment>,
    pub read: u64,
    pub ended: bool,
}

/// Reads the source in pieces while no segment is whole, and at most `room` bytes, and gives the segment.
pub fn read_segment<S: Source>(
    alloc: Global,
    source: &mut S,
    stream: &mut Grouping,
    room: u64,
) -> Result<Found, NextFault>
    requires in_step { IsInStep stream.old }
    requires few { length (bytes_in stream.old) < above_pending (numbers_in stream.old) }
    ensures numbers { numbers_in stream.new ≡ numbers_in stream.old }
    ensures in_step { OnOk result (IsInStep stream.new) }
    ensures few { OnOk result (length (bytes_in stream.new) < above_pending (numbers_in stream.old)) }
    ensures found { IfOk result (λ found. HasFound (numbers_in stream.old) room (bytes_in stream.old) (bytes_in stream.new)
        (source_view ⟦<S as Source>⟧ source.old) (source_view ⟦<S as Source>⟧ source.new) found) }
    ensures ends { IfErr result (λ fault. EndsFor fault (numbers_in stream.old) room (bytes_in stream.old)
        (source_view ⟦<S as Source>⟧ source.old) (source_view ⟦<S as Source>⟧ source.new)) }
    ensures count { NextCount result (S.faults source.old) (S.faults source.new) }
    ensures behind { S.behind source.new ≡ S.behind source.old }
{
    let mut read = 0;
    loop {
        if let Some(segment) = stream.next(alloc)? {
            return Ok(Found {
                segment: Some(segment),
                read,
                ended: false,
            });
        }
        let piece = source.read(alloc, PIECE_LEN)?;
        if piece.is_empty() {
            let segment = stream.rest(alloc)?;
            return Ok(Found {
                segment,
                read,
                ended: true,
            });
        }
        if piece.len() as u64 > room - read {
            return Err(NextFault::TooLong);
        }
        stream.push(&piece)?;
        read += piece.len() as u64;
    }
}
