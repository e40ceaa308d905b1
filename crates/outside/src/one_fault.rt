// The plan of which one call fails.
ghost use Rattle.std.specs.Prelude.{◌≡◌, ◌==◌, ◌≤◌, [], ◌∷◌, Bool, if◌then◌else◌};
ghost use Rattle.outside.specs.CallPlan.{fails_next, count_up, planned};
ghost use Rattle.outside.specs.Faults.{Rose};

use std::marker::Model;

/// The number of the call that fails, counted from 1. Contracts see a plan whose list has this number alone.
#[derive(Drop)]
pub struct OneFault {
    at: u32,
    made: u64,
    faults: u64,
}

impl Model for OneFault {
    ghost use Rattle.std.specs.Prelude.{[], ◌∷◌};
    ghost use Rattle.outside.specs.CallPlan.{Plan};

    ghost Value = { Plan };

    ghost view = { λ p. record { fails = p.at ∷ []; made = p.made; faults = p.faults } };
}

impl OneFault {
    pub fn new(at: u32) -> OneFault
        ensures { result ≡ planned (at ∷ []) }
    {
        OneFault {
            at,
            made: 0,
            faults: 0,
        }
    }

    /// Counts one more call, and answers whether it is the one that fails.
    pub fn next_fails(&mut self) -> bool
        ensures fails { result ≡ fails_next self.old }
        ensures counted { self.new ≡ record self.old { made = count_up self.old.made } }
    {
        self.made = self.made.saturating_add(1);
        u64::from(self.at) == self.made
    }

    /// Counts one more fault.
    pub fn fail(&mut self)
        ensures counted { self.new ≡ record self.old { faults = count_up self.old.faults } }
        ensures later { self.old.faults ≤ self.new.faults }
        ensures rose { Rose self.old.faults self.new.faults }
    {
        self.faults = self.faults.saturating_add(1);
    }
}
