// Sessions that may have dead objects of one kind.
ghost use Rattle.std.specs.Prelude.{◌≡◌, ℕ, ◌+◌, ◌≤◌, ◌<◌, ◌==◌, ◌||◌, true, false, [], OnOk, MatchOption, drop, get_or, slice_get};
ghost use Rattle.std.specs.VecDeque.{deque_len};
ghost use Rattle.pins_counts.specs.Waiting.{awaits, IsAscending};

use ss_base::Memory;
use std::alloc::Global;
use std::collections::VecDeque;
use std::marker::Model;

#[derive(Drop)]
pub(crate) struct Waiting {
    sessions: VecDeque<u32>,
    below: usize,
}

impl Model for Waiting {
    ghost use Rattle.std.specs.Prelude.{◌≤◌};
    ghost use Rattle.std.specs.VecDeque.{deque_capacity};
    ghost use Rattle.pins_counts.specs.Waiting.{Awaited, IsAscending};
    ghost use Rattle.pins_counts.specs.Codes.{awaited_code};

    ghost Value = { Awaited };

    ghost coded = { awaited_code };

    ghost view = { λ w. record { sessions = w.sessions.items; below = w.below } };

    ghost invariant = { λ w. IsAscending 0 w.below w.sessions.items × (w.below ≤ deque_capacity w.sessions) };
}

impl Waiting {
    pub(crate) fn new(alloc: Global) -> Waiting
        ensures { result ≡ record { sessions = []; below = 0 } }
    {
        Waiting {
            sessions: VecDeque::new(alloc),
            below: 0,
        }
    }

    // Makes room for the sessions below this number.
    pub(crate) fn make_room(&mut self, below: usize) -> Result<(), Memory>
        ensures ok { OnOk result (below ≤ self.new.below) }
        ensures kept { self.old.below ≤ self.new.below }
        ensures sessions { self.new.sessions ≡ self.old.sessions }
    {
        if self.below < below {
            self.sessions.try_reserve(below - self.sessions.len())?;
            self.below = below;
        }
        Ok(())
    }

    // Adds the session, for which there is room.
    pub(crate) fn add(&mut self, session: u32)
        requires { session < self.old.below }
        ensures sessions { (q : ℕ) → awaits self.new.sessions q ≡ ((q == session) || awaits self.old.sessions q) }
        ensures below { self.new.below ≡ self.old.below }
    {
        let at = place_of(&self.sessions, session as usize, self.below);
        if stands_at(&self.sessions, at, session) {
            return;
        }
        let _ = self.sessions.insert(at, session);
    }

    // The first of the sessions.
    pub(crate) fn first(&self) -> Option<u32>
        ensures { result ≡ slice_get self.now.sessions 0 }
    {
        self.sessions.front().copied()
    }

    // Takes the first away.
    pub(crate) fn pop(&mut self)
        ensures sessions { self.new.sessions ≡ drop 1 self.old.sessions }
        ensures below { self.new.below ≡ self.old.below }
    {
        self.sessions.pop_front();
    }

    // The first of the sessions from one on.
    pub(crate) fn first_from(&self, from: usize) -> Option<u32>
        ensures { MatchOption result ((q : ℕ) → from ≤ q → awaits self.now.sessions q ≡ false) (λ s. (from ≤ s) × ((q : ℕ) → from ≤ q → q < s → awaits self.now.sessions q ≡ false)) }
    {
        let at = place_of(&self.sessions, from, self.below);
        if at < self.sessions.len() {
            Some(self.sessions[at])
        } else {
            None
        }
    }
}

// The place in ascending sessions of the first that isn't below this number.
fn place_of(sessions: &VecDeque<u32>, number: usize, below: usize) -> usize
    requires { IsAscending 0 below sessions.now.items }
    ensures within { result ≤ deque_len sessions.now }
    ensures before { (k d : ℕ) → k < result → get_or sessions.now.items k d < number }
    ensures behind { (k d : ℕ) → result ≤ k → k < deque_len sessions.now → number ≤ get_or sessions.now.items k d }
{
    let mut low = 0;
    let mut high = sessions.len();
    while low < high {
        let mid = low + (high - low) / 2;
        if (sessions[mid] as usize) < number {
            low = mid + 1;
        } else {
            high = mid;
        }
    }
    low
}

// Whether the session stands at this place.
fn stands_at(sessions: &VecDeque<u32>, at: usize, session: u32) -> bool
    ensures yes { result ≡ true → (at < deque_len sessions.now) × (get_or sessions.now.items at 0 ≡ session) }
    ensures no_other { result ≡ false → at < deque_len sessions.now → get_or sessions.now.items at 0 ≡ session → ⊥ }
{
    at < sessions.len() && sessions[at] == session
}
