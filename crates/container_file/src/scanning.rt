// What lies in a container.
ghost use Rattle.std.specs.Prelude.{◌≡◌, ◌⊎◌, ℕ, ◌+◌, ◌<◌, ◌≤◌, ◌^◌, List, length, IfOk, IfErr, MatchResult};
ghost use Rattle.std.specs.List.{All};
ghost use Rattle.ss_base.specs.declared.ids.ContainerId.{ContainerId};
ghost use Rattle.container_file.specs.Chunk.{Chunk, IsChunk};
ghost use Rattle.container_file.specs.Text.{IsContainer, records_text};
ghost use Rattle.container_file.specs.Scanned.{records_of, IsFirstBad, Refuses, RefusesRecords};

use crate::fields::{HEADER, RECORD, read_header, read_record};
use ss_base::{Memory, Piece};
use std::alloc::{AllocError, AllocFailed, Global};

/// A record of a container: what stands for its chunk, and the offset of the chunk's first byte.
#[derive(Clone, Copy, Debug, PartialEq, Eq)]
pub struct ScanRecord {
    pub piece: Piece,
    pub offset: u32,
}

/// Why bytes give no records.
#[derive(Clone, Copy, Debug, PartialEq, Eq)]
pub enum ScanFault {
    /// The bytes are no container, from this place on: 0 for a wrong header, else the start of the first record that
    /// isn't whole or whose length is outside 1 to 11,200.
    NotContainer(u64),
    /// Memory was wanted and not to be had.
    Memory,
}

impl From<AllocError> for ScanFault {
    ghost use Rattle.container_file.specs.declared.scanning.ScanFault.TheVariants.{Memory};

    ghost from_gives = { λ _ fault. fault ≡ Memory };

    fn from(_: AllocError) -> Self {
        ScanFault::Memory
    }
}

impl<T: Drop> From<AllocFailed<T>> for ScanFault {
    ghost use Rattle.container_file.specs.declared.scanning.ScanFault.TheVariants.{Memory};

    ghost from_gives = { λ _ fault. fault ≡ Memory };

    fn from(_: AllocFailed<T>) -> Self {
        ScanFault::Memory
    }
}

/// The records of a container, in their order. `NotContainer` comes exactly where the bytes are no container, with the
/// first bad place.
pub fn scan(alloc: Global, bytes: &[u8]) -> Result<Vec<ScanRecord>, ScanFault>
    requires { length bytes.now < 2 ^ 32 }
    // What is read is the text of a container with these records.
    ensures read { IfOk result (λ records. (id : ContainerId) × (chunks : List Chunk) ×
        IsContainer id chunks bytes.now × (records.items ≡ records_of chunks)) }
    // What is the text of a container is read, unless memory runs out.
    ensures container { (id : ContainerId) (chunks : List Chunk) → IsContainer id chunks bytes.now →
        MatchResult result (λ records. records.items ≡ records_of chunks) (λ fault. fault ≡ ScanFault.Memory) }
    // The place that a fault names is the first bad one.
    ensures refused { IfErr result (Refuses bytes.now) }
    // Where there is a first bad place, it is the answer, unless memory runs out.
    ensures bad { (at : ℕ) → IsFirstBad bytes.now at →
        MatchResult result (λ _. ⊥) (λ fault. (fault ≡ ScanFault.NotContainer at) ⊎ (fault ≡ ScanFault.Memory)) }
{
    if bytes.len() < HEADER as usize {
        return Err(ScanFault::NotContainer(0));
    }
    let (head, records) = bytes.split_at(HEADER as usize);
    if read_header(head).is_none() {
        return Err(ScanFault::NotContainer(0));
    }
    scan_records(alloc, records)
}

// The records behind a header.
fn scan_records(alloc: Global, bytes: &[u8]) -> Result<Vec<ScanRecord>, ScanFault>
    requires { length bytes.now + 16 < 2 ^ 32 }
    ensures read { IfOk result (λ records. (chunks : List Chunk) ×
        All IsChunk chunks × (records_text chunks ≡ bytes.now) × (records.items ≡ records_of chunks)) }
    ensures refused { IfErr result (RefusesRecords bytes.now) }
{
    let mut found = Vec::new(alloc);
    let mut at = HEADER;
    let mut rest = bytes;
    while !rest.is_empty() {
        let Some((piece, _, next)) = read_record(rest) else {
            return Err(ScanFault::NotContainer(u64::from(at)));
        };
        found.push(ScanRecord {
            piece,
            offset: at + RECORD,
        })?;
        at += RECORD + piece.len;
        rest = next;
    }
    Ok(found)
}
