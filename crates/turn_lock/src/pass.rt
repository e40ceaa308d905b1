// Passes and notes.
ghost use Rattle.std.specs.Prelude.{◌≡◌};

use crate::view::View;
use atomic_table::{Badge, Seat};
use std::marker::Model;
use std::mem;

/// The right to take turns, and what was seen in them. Contracts see it as its number, the first number, the base, what
/// it has seen and the numbers that were joined into it. The opener is also seen with the next number to be given out.
#[derive(Drop)]
pub struct Pass {
    pub(crate) number: u32,
    pub(crate) next: Option<u64>,
    pub(crate) badge: Badge<View>,
}

impl Model for Pass {
    ghost use Rattle.std.specs.Prelude.{◌≡◌, ◌∷◌, [], ◌≤◌, ◌^◌};
    ghost use Rattle.std.specs.Option.{ForSome};
    ghost use Rattle.turn_lock.specs.Passes.{PassView, pass_of, view_of, first_view};

    ghost Value = { PassView };

    ghost view = { λ p. pass_of p.badge.table_id (first_view p.badge.views) };

    ghost invariant = { λ p. (p.badge.views ≡ view_of (pass_of p.badge.table_id (first_view p.badge.views)) ∷ []) × (p.number ≡ (pass_of p.badge.table_id (first_view p.badge.views)).number) × (p.next ≡ (pass_of p.badge.table_id (first_view p.badge.views)).next) × ForSome p.next (λ n. n ≤ 2 ^ 32) };
}

impl Pass {
    /// Its number, which is the author of its entries.
    pub fn number(&self) -> u32
        ensures { result ≡ self.now.number }
    {
        self.number
    }
}

/// A copy of what a pass has seen.
#[derive(Drop)]
pub struct Note {
    pub(crate) badge: Badge<View>,
}

impl Model for Note {
    ghost use Rattle.std.specs.Prelude.{◌≡◌, ◌∷◌, []};
    ghost use Rattle.turn_lock.specs.Passes.{NoteView, IsNote, first_view};

    ghost Value = { NoteView };

    ghost view = { λ n. record { turns = n.badge.table_id; seen = (first_view n.badge.views).known.seen } };

    ghost invariant = { λ n. (n.badge.views ≡ first_view n.badge.views ∷ []) × IsNote (first_view n.badge.views) };
}
