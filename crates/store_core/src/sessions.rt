// What a session adds to the history.
ghost use Rattle.std.specs.Prelude.{◌≡◌, ◌≤◌, true, false};
ghost use Rattle.journal_entry.specs.declared.entry.Point.TheVariants.{Finish as FinishPoint, Abort as AbortPoint};
ghost use Rattle.ss_base.specs.Profile.{numbers_of};
ghost use Rattle.history.specs.Bounds.{are_counts};
ghost use Rattle.history.specs.OwnEnd.{own_end};
ghost use Rattle.history.specs.Sessions.{is_pending};
ghost use Rattle.history.specs.Legal.{is_open_to, are_hooks, are_uses, are_texts};
ghost use Rattle.store_core.specs.View.{past_of, made, Adds};
ghost use Rattle.store_core.specs.Answers.{BeginAnswer, ChooseAnswer, CommitAnswer};

use crate::keeping::all_kept;
use crate::{BeginFault, Choice, PointFault, State, Stored};
use history::{Items, Point};
use ss_base::{ManifestId, Name, StreamName};
use std::alloc::Global;

impl<const L: usize, const M: usize> State<L, M> {
    /// Begins a session under a name, and answers its number. `Taken`: the name is held, which an entry says then.
    /// `Full`: with the entry the limits would be broken. After `Full` and `Memory` all is as before.
    pub fn begin(&mut self, author: u32, name: StreamName) -> Result<u32, BeginFault>
        ensures { BeginAnswer self.old self.new author name result }
    {
        let session = self.journal().reply_to_begin(&name);
        match self.add(author, Point::Begin { name, session }) {
            Ok(()) => {}
            Err(PointFault::Full) => return Err(BeginFault::Full),
            Err(PointFault::Memory) => return Err(BeginFault::Memory),
        }
        match session {
            Some(session) => Ok(session),
            None => Err(BeginFault::Taken),
        }
    }

    /// Chooses champions for a segment of the session with these hooks, and answers the manifest that its commit will
    /// have and what is kept of the champions. The session has no pending choice; the hooks are distinct, at most 4,096,
    /// and their first bits are zero. `Full`: with the entry the limits would be broken. After an Err all is as before.
    pub fn choose(
        &mut self,
        alloc: Global,
        author: u32,
        session: u32,
        hooks: Vec<Name>,
    ) -> Result<Choice, PointFault>
        requires author { is_open_to author session (past_of self.old) ≡ true }
        requires idle { is_pending session (past_of self.old) ≡ false }
        requires hooks { are_hooks (numbers_of self.old.profile).bits hooks.items ≡ true }
        ensures { ChooseAnswer L M self.old self.new author session hooks.items result }
    {
        let Ok(chosen) = self.champions(alloc, hooks.as_slice()) else {
            return Err(PointFault::Memory);
        };
        let Ok(champions) = all_kept(alloc, self.journal().history(), chosen.as_slice()) else {
            return Err(PointFault::Memory);
        };
        let manifest = self.journal().next_manifest(session);
        let point = Point::Choose {
            session,
            hooks: Items::new(hooks),
            champions: Items::new(chosen),
        };
        match self.add(author, point) {
            Ok(()) => Ok(Choice {
                manifest,
                champions,
            }),
            Err(PointFault::Full) => Err(PointFault::Full),
            Err(PointFault::Memory) => Err(PointFault::Memory),
        }
    }

    /// Records that the segment that was chosen for is stored, and answers its manifest. The choice is pending, and
    /// what is stored is within the bounds of a commit. `Full`: with the entry the limits would be broken. After an Err
    /// all is as before.
    pub fn commit(
        &mut self,
        author: u32,
        session: u32,
        stored: Stored,
    ) -> Result<ManifestId, PointFault>
        requires author { is_open_to author session (past_of self.old) ≡ true }
        requires waiting { is_pending session (past_of self.old) ≡ true }
        requires counts { are_counts stored.chunks stored.bytes stored.fresh stored.fresh_bytes ≡ true }
        requires uses { are_uses session (past_of self.old) stored.uses.items ≡ true }
        ensures { CommitAnswer self.old self.new author session stored result }
    {
        let manifest = self.journal().next_manifest(session);
        let point = Point::Commit {
            manifest,
            content: stored.content,
            text: stored.text,
            chunks: stored.chunks,
            bytes: stored.bytes,
            fresh: stored.fresh,
            fresh_bytes: stored.fresh_bytes,
            uses: Items::new(stored.uses),
        };
        match self.add(author, point) {
            Ok(()) => Ok(manifest),
            Err(PointFault::Full) => Err(PointFault::Full),
            Err(PointFault::Memory) => Err(PointFault::Memory),
        }
    }

    /// Ends a session, which started this many containers: more than the ordinal of each of its own that it used. It
    /// has no pending choice. It takes no memory and always has room.
    pub fn finish(&mut self, author: u32, session: u32, containers: u32)
        requires author { is_open_to author session (past_of self.old) ≡ true }
        requires idle { is_pending session (past_of self.old) ≡ false }
        requires containers { own_end session (past_of self.old) ≤ containers }
        ensures { Adds self.old self.new (made author (FinishPoint session containers)) }
    {
        self.add_end(
            author,
            Point::Finish {
                session,
                containers,
            },
        );
    }

    /// Gives a session up, which started this many containers and wrote this many manifests: as many as its commits,
    /// or one more where a choice is pending. It takes no memory and always has room.
    pub fn abort(&mut self, author: u32, session: u32, containers: u32, texts: u32)
        requires author { is_open_to author session (past_of self.old) ≡ true }
        requires containers { own_end session (past_of self.old) ≤ containers }
        requires texts { are_texts session texts (past_of self.old) ≡ true }
        ensures { Adds self.old self.new (made author (AbortPoint session containers texts)) }
    {
        self.add_end(
            author,
            Point::Abort {
                session,
                containers,
                texts,
            },
        );
    }
}
