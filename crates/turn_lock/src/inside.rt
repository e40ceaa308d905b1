// A turn.
ghost use Rattle.std.specs.Prelude.{◌≡◌, ◌≤◌, ◌^◌};
ghost use Rattle.std.specs.Option.{ForSome};
ghost use Rattle.turn_lock.specs.Passes.{pass_of};
ghost use Rattle.turn_lock.specs.Entered.{IsEntered};

use crate::view::View;
use atomic_table::Seat;

/// A turn of a pass, with the state. Whoever ends it by neither `leave` nor `end` lets all others wait forever.
pub struct Inside<T> {
    pub state: T,
    pub(crate) number: u32,
    pub(crate) next: Option<u64>,
    pub(crate) seat: Seat<Option<T>, View>,
    ghost seated: { IsEntered seat },
    ghost number_is: { number ≡ (pass_of seat.table_id seat.me.0).number },
    ghost next_is: { next ≡ (pass_of seat.table_id seat.me.0).next },
    ghost fits: { ForSome next (λ n. n ≤ 2 ^ 32) },
}

impl<T> Inside<T> {
    /// Takes the state out for good. Whoever enters later waits forever.
    pub fn end(self) -> T
        ensures { result ≡ self.state }
    {
        let Inside {
            state,
            number: _,
            next: _,
            seat: _,
        } = self;
        state
    }
}
