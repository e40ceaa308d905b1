// Which calls on an object in memory fail, and how many were made and failed.
ghost use Rattle.std.specs.Prelude.{◌≡◌, ◌==◌, ◌≤◌, ℕ, IsTrue};
ghost use Rattle.std.specs.List.{list_any};
ghost use Rattle.outside.specs.Faults.{Rose};
ghost use Rattle.outside.specs.CallPlan.{fails_next, after_call, planned};

use std::marker::Model;

/// The calls of an object in memory that fail, by their numbers, counted from 1. Contracts see a plan's numbers
/// and its two counts, which stand still at their last value.
#[derive(Drop)]
pub struct CallPlan {
    fails: Vec<u32>,
    made: u64,
    faults: u64,
}

impl Model for CallPlan {
    ghost use Rattle.outside.specs.CallPlan.{Plan};

    ghost Value = { Plan };

    ghost view = { λ p. record { fails = p.fails.items; made = p.made; faults = p.faults } };
}

impl CallPlan {
    pub fn new(fails: Vec<u32>) -> CallPlan
        ensures { result ≡ planned fails.items }
    {
        CallPlan {
            fails,
            made: 0,
            faults: 0,
        }
    }

    /// Counts one more call, and answers whether it is one of those that fail.
    pub fn next_fails(&mut self) -> bool
        ensures fails { result ≡ fails_next self.old }
        ensures counted { self.new ≡ after_call self.old }
        ensures later { self.old.faults ≤ self.new.faults }
        ensures rose { IsTrue result → Rose self.old.faults self.new.faults }
    {
        self.made = self.made.saturating_add(1);
        let fails = is_listed(&self.fails, self.made);
        if fails {
            self.faults = self.faults.saturating_add(1);
        }
        fails
    }
}

fn is_listed(numbers: &[u32], number: u64) -> bool
    ensures { result ≡ list_any (λ n. n == number) numbers.now }
{
    numbers.iter().any(|n| u64::from(*n) == number)
}
