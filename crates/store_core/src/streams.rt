// What is recorded of retained streams.
ghost use Rattle.std.specs.Prelude.{◌≡◌, true};
ghost use Rattle.journal_entry.specs.declared.entry.Point.TheVariants.{Done as DonePoint};
ghost use Rattle.history.specs.Sessions.{is_reading, is_looked_by};
ghost use Rattle.store_core.specs.View.{past_of, made, Adds};
ghost use Rattle.store_core.specs.Answers.{DeleteAnswer, LookAnswer, StatAnswer};

use crate::{Looked, NameFault, PointFault, State};
use history::{Point, Totals};
use ss_base::StreamName;
use std::alloc::Global;

impl<const L: usize, const M: usize> State<L, M> {
    /// Gives a name free, and answers the session whose stream it was. `NoStream`: no stream is retained under the
    /// name, which an entry says then. `Full`: with the entry the limits would be broken. After `Full` and `Memory` all
    /// is as before.
    pub fn delete(&mut self, author: u32, name: StreamName) -> Result<u32, NameFault>
        ensures { DeleteAnswer self.old self.new author name result }
    {
        let session = self.journal().history().retained(&name);
        match self.add(author, Point::Delete { name, session }) {
            Ok(()) => {}
            Err(PointFault::Full) => return Err(NameFault::Full),
            Err(PointFault::Memory) => return Err(NameFault::Memory),
        }
        match session {
            Some(session) => Ok(session),
            None => Err(NameFault::NoStream),
        }
    }

    /// Begins to read the stream that is retained under a name, and answers the reading's number, the stream's session
    /// and what is kept of its manifests, in order. `NoStream`: no stream is retained under the name, which an entry
    /// says then. `Full`: with the entry the limits would be broken. After `Full` and `Memory` all is as before.
    pub fn look(
        &mut self,
        alloc: Global,
        author: u32,
        name: StreamName,
    ) -> Result<Looked, NameFault>
        ensures { LookAnswer self.old self.new author name result }
    {
        let seen = self.journal().reply_to_look(&name);
        let Ok(manifests) = self.journal().manifests_seen(alloc, seen) else {
            return Err(NameFault::Memory);
        };
        match self.add(author, Point::Look { name, seen }) {
            Ok(()) => {}
            Err(PointFault::Full) => return Err(NameFault::Full),
            Err(PointFault::Memory) => return Err(NameFault::Memory),
        }
        match seen {
            Some(seen) => Ok(Looked {
                reader: seen.reader,
                session: seen.session,
                manifests,
            }),
            None => Err(NameFault::NoStream),
        }
    }

    /// Ends a reading. It takes no memory and always has room.
    pub fn done(&mut self, author: u32, reader: u32)
        requires unfinished { is_reading reader (past_of self.old) ≡ true }
        requires author { is_looked_by author reader (past_of self.old) ≡ true }
        ensures { Adds self.old self.new (made author (DonePoint reader)) }
    {
        self.add_end(author, Point::Done { reader });
    }

    /// The totals of the entries so far, which it records. `Full`: with the entry the limits would be broken. After an
    /// Err all is as before.
    pub fn stat(&mut self, author: u32) -> Result<Totals, PointFault>
        ensures { StatAnswer self.old self.new author result }
    {
        let totals = self.journal().totals();
        match self.add(author, Point::Stat { totals }) {
            Ok(()) => Ok(totals),
            Err(PointFault::Full) => Err(PointFault::Full),
            Err(PointFault::Memory) => Err(PointFault::Memory),
        }
    }
}
