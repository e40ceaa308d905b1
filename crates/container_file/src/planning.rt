// Where fresh chunks go.
ghost use Rattle.std.specs.Prelude.{◌≡◌, ◌+◌, ◌<◌, ◌≤◌, ◌^◌, List, [], ◌∷◌, ◌++◌, map, length, IfOk, OnOk};
ghost use Rattle.std.specs.List.{All, sum_by};
ghost use Rattle.chunk_name.specs.Pieces.{HasChunkLen};
ghost use Rattle.container_file.specs.declared.container_end.ContainerEnd.{ContainerEnd};
ghost use Rattle.container_file.specs.Chunk.{Chunk, IsChunk, the_chunk, fresh_chunks};
ghost use Rattle.container_file.specs.Layout.{written, puts, places, end_after};
ghost use Rattle.container_file.specs.Plan.{IsLaidOut, TakesPut};

use crate::fields::{RECORD, write_header, write_record};
use crate::{ContainerEnd, Plan, Put};
use ss_base::{ContainerId, Memory, Piece, Place};
use std::alloc::Global;

/// Lays out the fresh chunks of a segment behind what the session has stored. `pieces` are the segment's chunks, whose
/// bytes lie one behind another in `bytes`, and `fresh` marks those to store. A record goes to the last container where
/// that has `room` bytes or fewer with it, and otherwise starts the next one.
pub fn plan(
    alloc: Global,
    pieces: &[Piece],
    bytes: &[u8],
    fresh: &[bool],
    end: ContainerEnd,
    room: u32,
) -> Result<Plan, Memory>
    requires marks { length fresh.now ≡ length pieces.now }
    requires lengths { All HasChunkLen pieces.now }
    requires bytes { sum_by (λ p. p.len) pieces.now ≡ length bytes.now }
    requires containers { end.containers + length pieces.now < 2 ^ 32 }
    ensures puts { IfOk result (λ plan. map written plan.puts.items ≡ puts end room (fresh_chunks pieces.now bytes.now fresh.now)) }
    ensures places { IfOk result (λ plan. plan.places.items ≡ places end room (fresh_chunks pieces.now bytes.now fresh.now)) }
    ensures end { IfOk result (λ plan. plan.end ≡ end_after end room (fresh_chunks pieces.now bytes.now fresh.now)) }
    // Each fresh chunk makes a whole record.
    ensures chunks { OnOk result (All IsChunk (fresh_chunks pieces.now bytes.now fresh.now)) }
{
    let mut laid = Plan {
        puts: Vec::new(alloc),
        places: Vec::new(alloc),
        end,
    };
    let mut rest = bytes;
    for (i, piece) in pieces.iter().enumerate() {
        let space = space(rest.len(), pieces.len() - i, room);
        let (chunk, next) = rest.split_at(piece.len as usize);
        rest = next;
        if fresh[i] {
            add(alloc, &mut laid, *piece, chunk, room, space)?;
        }
    }
    Ok(laid)
}

// How many bytes so many records, with so many bytes of chunks, can add to one container.
fn space(bytes: usize, records: usize, room: u32) -> usize
    requires { records < 2 ^ 32 }
{
    let room = room as usize;
    (bytes.min(room) + records * RECORD as usize).min(room)
}

// Lays out one more chunk. A new put gets this much space.
fn add(
    alloc: Global,
    plan: &mut Plan,
    piece: Piece,
    chunk: &[u8],
    room: u32,
    space: usize,
) -> Result<(), Memory>
    requires containers { plan.old.end.containers + 1 < 2 ^ 32 }
    requires len { HasChunkLen piece }
    requires bytes { length chunk.now ≡ piece.len }
    ensures chunk { OnOk result (IsChunk (the_chunk piece chunk.now)) }
    ensures laid { OnOk result ((end : ContainerEnd) (chunks : List Chunk) → IsLaidOut end room chunks plan.old →
        IsLaidOut end room (chunks ++ the_chunk piece chunk.now ∷ []) plan.new) }
{
    let to = plan.end.opened(room, piece);
    let starts = plan.end.containers < to.containers;
    let container = ContainerId {
        session: to.session,
        ordinal: to.containers - 1,
    };
    let mut put = put_for(alloc, &mut plan.puts, container, starts, space)?;
    write_record(&mut put.bytes, piece, chunk)?;
    plan.puts.push(put)?;
    plan.places.push(Place {
        container,
        offset: to.used + RECORD,
    })?;
    plan.end = ContainerEnd {
        session: to.session,
        containers: to.containers,
        used: to.used + RECORD + piece.len,
    };
    Ok(())
}

// The put to which a record goes.
fn put_for(
    alloc: Global,
    puts: &mut Vec<Put>,
    container: ContainerId,
    starts: bool,
    space: usize,
) -> Result<Put, Memory>
    ensures { IfOk result (λ put. TakesPut container starts (map written puts.old.items) (map written puts.new.items) (written put)) }
{
    if !starts {
        if let Some(put) = puts.pop() {
            return Ok(put);
        }
    }
    let mut bytes = Vec::with_capacity(alloc, space)?;
    if starts {
        write_header(&mut bytes, container)?;
    }
    Ok(Put {
        container,
        starts,
        bytes,
    })
}
