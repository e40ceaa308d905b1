// The rule of the table, and the kinds of step.
use crate::view::View;
use atomic_table::{Join, Play, Split, TableRule};
use history::Logged;
use std::snapshot::Snapshot;

// The words of the table.
pub(crate) const TICKET: usize = 0;

pub(crate) const SERVING: usize = 1;

pub(crate) const COUNT: usize = 2;

/// With what the turns start: the opener's number, and the state.
#[derive(Drop)]
pub struct Opening<T> {
    pub first: u32,
    pub state: Snapshot<T>,
}

pub struct Law;

impl<T: Logged> TableRule<Option<T>, View, Opening<T>> for Law {
    ghost use Rattle.turn_lock.specs.Rule.{Kept};
    ghost use Rattle.turn_lock.specs.Openings.{opener};

    ghost holds = { λ _. Kept T.entries T.base };

    ghost first = { λ key. opener key.first (T.base key.state.value) (T.entries key.state.value) };
}

/// Draws a ticket.
pub(crate) struct Draw;

impl<T> Play<Option<T>, View> for Draw {
    ghost use Rattle.turn_lock.specs.Steps.{Draws};

    ghost then = { Draws };
}

/// Looks whose turn it is, and takes the state where it is the own.
pub(crate) struct Look;

impl<T: Logged> Play<Option<T>, View> for Look {
    ghost use Rattle.turn_lock.specs.Steps.{Looks};

    ghost then = { Looks T.entries T.base };
}

/// Adds the entry that the state has more, if it has one.
pub(crate) struct Add;

impl<T: Logged> Play<Option<T>, View> for Add {
    ghost use Rattle.turn_lock.specs.Steps.{Adds};

    ghost then = { Adds T.entries T.base };
}

/// Serves the next ticket, and gives the state back.
pub(crate) struct Serve;

impl<T> Play<Option<T>, View> for Serve {
    ghost use Rattle.turn_lock.specs.Steps.{Serves};

    ghost then = { Serves };
}

/// Looks at the count, which tells what became of two lists that were joined.
pub(crate) struct Tell;

impl<T> Play<Option<T>, View> for Tell {
    ghost use Rattle.turn_lock.specs.Steps.{Tells};

    ghost then = { Tells };
}

/// The opener gives out its next number.
pub(crate) struct Give;

impl Split<View> for Give {
    ghost use Rattle.turn_lock.specs.Steps.{gave, given};

    ghost left = { gave };

    ghost right = { given };
}

/// A copy of what was seen, without a number.
pub(crate) struct Copy;

impl Split<View> for Copy {
    ghost use Rattle.std.specs.Prelude.{[]};
    ghost use Rattle.turn_lock.specs.Steps.{copy};

    ghost left = { λ v. v };

    ghost right = { copy [] };
}

/// Two become one.
pub(crate) struct Both;

impl Join<View> for Both {
    ghost use Rattle.turn_lock.specs.Steps.{both};
    ghost use Rattle.turn_lock.specs.Passes.{nobody};

    ghost both = { both };

    ghost spent = { nobody };
}
