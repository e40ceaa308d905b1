// Passes are split, joined and told what another has seen.
ghost use Rattle.std.specs.Prelude.{◌≡◌, ◌^◌, ◌<◌, ◌++◌, ℕ, suc, [], Some, None, IfOk, MatchResult};
ghost use Rattle.turn_lock.specs.Passes.{numbers_of, next_of};
ghost use Rattle.turn_lock.specs.Seen.{IsLater, longer};
ghost use Rattle.turn_lock.specs.Steps.{next_number};
ghost use Rattle.turn_lock.specs.declared.numbers.SplitFault.TheVariants.{Callers};

use crate::Store;
use ss_base::Memory;
use turn_lock::{Note, Pass, SplitFault};

impl<const L: usize, const M: usize> Store<L, M> {
    /// A pass with the opener's next number, which has seen the same. `Callers(n)` where that number, `n`, is 2^32; the
    /// pass is then as before.
    pub fn split(&self, pass: &mut Pass) -> Result<Pass, SplitFault>
        requires turns { pass.old.turns ≡ self.now }
        requires opener { (n : ℕ) × (pass.old.next ≡ Some n) }
        ensures result { MatchResult result (λ r. (next_number pass.old.next < 2 ^ 32) × (r ≡ record pass.old { number = next_number pass.old.next; joined = []; next = None })) (λ e. (e ≡ Callers (2 ^ 32)) × (pass.old.next ≡ Some (2 ^ 32))) }
        ensures pass { MatchResult result (λ _. pass.new ≡ record pass.old { next = Some (suc (next_number pass.old.next)) }) (λ _. pass.new ≡ pass.old) }
    {
        self.turns.split(pass)
    }

    /// Both passes in one, with the number of the first. It has seen the longer of their lists.
    pub fn join(&self, pass: Pass, other: Pass) -> Pass
        requires pass { pass.turns ≡ self.now }
        requires other { other.turns ≡ self.now }
        ensures pass { result ≡ record pass { joined = pass.joined ++ numbers_of other; seen = longer pass.seen other.seen; next = next_of pass.next other.next } }
        ensures seen { IsLater (numbers_of pass) pass.seen result.seen }
        ensures other { IsLater (numbers_of other) other.seen result.seen }
    {
        self.turns.join(pass, other)
    }

    /// A copy of what the pass has seen.
    pub fn note(&self, pass: &mut Pass) -> Result<Note, Memory>
        requires turns { pass.old.turns ≡ self.now }
        ensures note { IfOk result (λ n. n ≡ record { turns = pass.old.turns; seen = pass.old.seen }) }
        ensures pass { pass.new ≡ pass.old }
    {
        self.turns.note(pass)
    }

    /// The pass has seen what the note has, too.
    pub fn meet(&self, pass: &mut Pass, note: Note)
        requires pass { pass.old.turns ≡ self.now }
        requires note { note.turns ≡ self.now }
        ensures pass { pass.new ≡ record pass.old { seen = longer pass.old.seen note.seen } }
        ensures seen { IsLater (numbers_of pass.old) pass.old.seen pass.new.seen }
        ensures note { IsLater [] note.seen pass.new.seen }
    {
        self.turns.meet(pass, note)
    }
}
