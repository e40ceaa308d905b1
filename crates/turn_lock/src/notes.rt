// What one pass has seen, told to another.
ghost use Rattle.std.specs.Prelude.{◌≡◌, [], IfOk};
ghost use Rattle.turn_lock.specs.Passes.{numbers_of};
ghost use Rattle.turn_lock.specs.Seen.{IsLater, longer};

use crate::law::{Both, COUNT, Copy, Tell};
use crate::pass::{Note, Pass};
use crate::turns::Turns;
use crate::view::View;
use atomic_table::{Badge, Seat};
use history::Logged;
use ss_base::Memory;
use std::mem;

impl<T: Logged> Turns<T> {
    /// A copy of what the pass has seen.
    pub fn note(&self, pass: &mut Pass) -> Result<Note, Memory>
        requires turns { pass.old.turns ≡ self.now }
        ensures note { IfOk result (λ n. n ≡ record { turns = pass.old.turns; seen = pass.old.seen }) }
        ensures pass { pass.new ≡ pass.old }
    {
        let badge = mem::replace(&mut pass.badge, Badge::blank());
        let mut seat: Seat<Option<T>, View> = badge.into_seat();
        let copy = self.table.shared.split_seat::<Copy>(&mut seat);
        pass.badge = seat.into_badge();
        Ok(Note {
            badge: copy.into_badge(),
        })
    }

    /// The pass has seen what the note has, too.
    pub fn meet(&self, pass: &mut Pass, note: Note)
        requires pass { pass.old.turns ≡ self.now }
        requires note { note.turns ≡ self.now }
        ensures pass { pass.new ≡ record pass.old { seen = longer pass.old.seen note.seen } }
        ensures seen { IsLater (numbers_of pass.old) pass.old.seen pass.new.seen }
        ensures note { IsLater [] note.seen pass.new.seen }
    {
        let Note { badge: copy } = note;
        let badge = mem::replace(&mut pass.badge, Badge::blank());
        let mut seat: Seat<Option<T>, View> = badge.into_seat();
        let shared = &self.table.shared;
        shared.join_seat::<Both>(&mut seat, copy.into_seat());
        shared.load::<Tell>(&mut seat, COUNT);
        pass.badge = seat.into_badge();
    }
}
