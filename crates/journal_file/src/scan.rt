// A journal that comes in pieces.
ghost use Rattle.std.specs.Prelude.{◌≡◌, ◌<◌, ℕ, List, [], ◌++◌, length, None, Some, IfOk, IfErr, IfSome, IfNone, OnOk};
ghost use Rattle.journal_file.specs.Header.{header_text};
ghost use Rattle.journal_file.specs.Journal.{IsJournal};
ghost use Rattle.journal_file.specs.Scan.{IsBytesFault, head_text};
ghost use Rattle.journal_file.specs.Front.{IsFront, scan_text};

use crate::JournalFault;
use crate::found::{Found, take_entries};
use crate::header::split_header;
use journal_entry::Entry;
use ss_base::Profile;
use std::alloc::Global;

const HEADER_LEN: usize = 8;

/// What was read of a journal: its profile, once its header came, its entries, and the bytes behind them that are
/// no whole entry yet, fewer than the longest entry has.
#[derive(Drop)]
pub(crate) struct Scan {
    profile: Option<Profile>,
    found: Found,
    pending: Vec<u8>,
}

impl Scan {
    #[tactic(auto, using(journal_entry::proofs::WeightLaws::weight_none))]
    pub(crate) fn new(alloc: Global) -> Scan
        ensures front { IsFront result }
        ensures text { scan_text result ≡ [] }
    {
        Scan {
            profile: None,
            found: Found {
                entries: Vec::new(alloc),
                weight: 0,
                place: 8,
            },
            pending: Vec::new(alloc),
        }
    }

    /// Takes the next piece. A refusal is one however the bytes go on.
    pub(crate) fn add(&mut self, alloc: Global, piece: &[u8]) -> Result<(), JournalFault>
        requires { IsFront self.old }
        ensures front { OnOk result (IsFront self.new) }
        ensures text { OnOk result (scan_text self.new ≡ scan_text self.old ++ piece.now) }
        ensures bad { IfErr result (λ fault. (later : List ℕ) → IsBytesFault fault ((scan_text self.old ++ piece.now) ++ later)) }
    {
        self.pending.extend_from_slice(piece)?;
        let Some((profile, body)) = split_front(self.profile, &self.pending)? else {
            return Ok(());
        };
        let rest = take_entries(alloc, &mut self.found, body)?;
        self.pending = rest.to_vec(alloc)?;
        self.profile = Some(profile);
        Ok(())
    }

    /// The journal, where all its bytes came.
    pub(crate) fn finish(self) -> Result<(Profile, Vec<Entry>), JournalFault>
        requires { IsFront self }
        ensures ok { IfOk result (λ found. IsJournal (scan_text self) found.0 found.1.items) }
        ensures bad { IfErr result (λ fault. IsBytesFault fault (scan_text self)) }
    {
        let Scan {
            profile,
            found,
            pending,
        } = self;
        let Some(profile) = profile else {
            return Err(JournalFault::NotStore);
        };
        if !pending.is_empty() {
            return Err(JournalFault::BadEntry(found.place));
        }
        Ok((profile, found.entries))
    }
}

/// The profile, and the bytes behind the header, where the header is read or begins the bytes; `None` where it may
/// still come whole.
fn split_front(
    profile: Option<Profile>,
    bytes: &[u8],
) -> Result<Option<(Profile, &[u8])>, JournalFault>
    ensures found { IfOk result (λ answer. IfSome answer (λ found. head_text profile ++ bytes.now ≡ header_text found.0 ++ found.1.now)) }
    ensures short { IfOk result (λ answer. IfNone answer ((profile ≡ None) × (length bytes.now < 8))) }
    ensures bad { IfErr result (λ fault. (later : List ℕ) → (profile ≡ None) × IsBytesFault fault (bytes.now ++ later)) }
{
    match profile {
        Some(profile) => Ok(Some((profile, bytes))),
        None if bytes.len() < HEADER_LEN => Ok(None),
        None => match split_header(bytes) {
            Some(found) => Ok(Some(found)),
            None => Err(JournalFault::NotStore),
        },
    }
}
