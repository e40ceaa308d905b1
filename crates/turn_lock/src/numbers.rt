// Numbers are given out, and come together again.
ghost use Rattle.std.specs.Prelude.{◌≡◌, ◌^◌, ◌<◌, ◌++◌, ℕ, suc, [], Some, None, MatchResult};
ghost use Rattle.turn_lock.specs.Passes.{numbers_of, next_of};
ghost use Rattle.turn_lock.specs.Seen.{IsLater, longer};
ghost use Rattle.turn_lock.specs.Steps.{next_number};
ghost use Rattle.turn_lock.specs.declared.numbers.SplitFault.TheVariants.{Callers};

use crate::law::{Both, COUNT, Give, Tell};
use crate::pass::Pass;
use crate::turns::Turns;
use crate::view::View;
use atomic_table::{Badge, Seat};
use history::Logged;
use std::mem;

/// Why no number was given out.
#[derive(Debug, PartialEq, Eq, Drop)]
pub enum SplitFault {
    /// Every number is given out: the next one would be this.
    Callers(u64),
    /// Memory was wanted and not to be had.
    Memory,
}

// Where one of two is the opener, its next number.
fn either_next(one: Option<u64>, other: Option<u64>) -> Option<u64>
    ensures { result ≡ next_of one other }
{
    match one {
        Some(n) => Some(n),
        None => other,
    }
}

impl<T: Logged> Turns<T> {
    /// A pass with the opener's next number, which has seen the same. `Callers(n)` where that number, `n`, is 2^32; the
    /// pass is then as before.
    pub fn split(&self, pass: &mut Pass) -> Result<Pass, SplitFault>
        requires turns { pass.old.turns ≡ self.now }
        requires opener { (n : ℕ) × (pass.old.next ≡ Some n) }
        ensures result { MatchResult result (λ r. (next_number pass.old.next < 2 ^ 32) × (r ≡ record pass.old { number = next_number pass.old.next; joined = []; next = None })) (λ e. (e ≡ Callers (2 ^ 32)) × (pass.old.next ≡ Some (2 ^ 32))) }
        ensures pass { MatchResult result (λ _. pass.new ≡ record pass.old { next = Some (suc (next_number pass.old.next)) }) (λ _. pass.new ≡ pass.old) }
    {
        let Some(next) = pass.next else {
            unreachable!()
        };
        if next >= 1 << 32 {
            return Err(SplitFault::Callers(next));
        }
        let badge = mem::replace(&mut pass.badge, Badge::blank());
        let mut seat: Seat<Option<T>, View> = badge.into_seat();
        let given = self.table.shared.split_seat::<Give>(&mut seat);
        pass.badge = seat.into_badge();
        pass.next = Some(next + 1);
        Ok(Pass {
            number: next as u32,
            next: None,
            badge: given.into_badge(),
        })
    }

    /// Both passes in one, with the number of the first. It has seen the longer of their lists.
    pub fn join(&self, pass: Pass, other: Pass) -> Pass
        requires pass { pass.turns ≡ self.now }
        requires other { other.turns ≡ self.now }
        ensures pass { result ≡ record pass { joined = pass.joined ++ numbers_of other; seen = longer pass.seen other.seen; next = next_of pass.next other.next } }
        ensures seen { IsLater (numbers_of pass) pass.seen result.seen }
        ensures other { IsLater (numbers_of other) other.seen result.seen }
    {
        let Pass {
            number,
            next,
            badge,
        } = pass;
        let Pass {
            number: _,
            next: other_next,
            badge: other_badge,
        } = other;
        let mut seat: Seat<Option<T>, View> = badge.into_seat();
        let shared = &self.table.shared;
        shared.join_seat::<Both>(&mut seat, other_badge.into_seat());
        shared.load::<Tell>(&mut seat, COUNT);
        Pass {
            number,
            next: either_next(next, other_next),
            badge: seat.into_badge(),
        }
    }
}
