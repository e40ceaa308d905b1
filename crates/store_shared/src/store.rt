// A store's state that callers take turns on.
ghost use Rattle.std.specs.Prelude.{◌≡◌, ◌<◌, suc, [], Some, IfOk};
ghost use Rattle.std.specs.List.{AllByRecursion};
ghost use Rattle.turn_lock.specs.Passes.{IsWhole};
ghost use Rattle.turn_lock.specs.Turn.{pass_in};
ghost use Rattle.history_calls.specs.Turn.{IsTurn};
ghost use Rattle.store_shared.specs.Sight.{base_of, seen_by, AreByOthers, HasSeen};
ghost use Rattle.store_shared.specs.Took.{CanLeave};

use ss_base::Memory;
use std::alloc::Global;
use std::marker::Model;
use std::sync::Wait;
use store_core::State;
use turn_lock::{Inside, Pass, Turns};

/// A store's state for many callers, with at most `L` manifests at a hook and `M` champions of a segment. Contracts see
/// which store it is: passes, notes and tokens belong to the store that gave them.
#[derive(Drop)]
pub struct Store<const L: usize, const M: usize> {
    pub(crate) turns: Turns<State<L, M>>,
}

impl<const L: usize, const M: usize> Model for Store<L, M> {
    ghost use Rattle.atomic_table.specs.Seated.{TableId};

    ghost Value = { TableId };

    ghost view = { λ s. s.turns };
}

impl<const L: usize, const M: usize> Store<L, M> {
    /// The store over a state, and the first pass, whose number is `first` and which gives out the numbers above it. No
    /// entry of the state has an author of `first` or above. After `Memory` the state is dropped.
    pub fn start(
        alloc: Global,
        state: State<L, M>,
        first: u32,
    ) -> Result<(Store<L, M>, Pass), Memory>
        requires authors { AllByRecursion (λ e. e.author < first) state.entries }
        ensures pass { IfOk result (λ r. r.1 ≡ record { turns = r.0; first = first; base = base_of state.entry; number = first; joined = []; seen = state.entry.entries; next = Some (suc first) }) }
    {
        let (turns, pass) = Turns::start(alloc, state, first)?;
        Ok((Store { turns }, pass))
    }

    // Waits for a turn of the pass.
    pub(crate) fn enter<R: Wait>(&self, rt: &R, pass: Pass) -> Inside<State<L, M>>
        requires turns { pass.turns ≡ self.now }
        ensures pass { pass_in result ≡ record pass { seen = result.state.entries } }
        ensures base { base_of result.state ≡ pass.base }
        ensures turn { IsTurn (AreByOthers pass) L M pass.number (seen_by pass) result.state }
        ensures whole { IsWhole pass → result.state.entries ≡ pass.seen }
    {
        let inside = self.turns.enter(rt, pass);
        let _entries = inside.state.entries();
        inside
    }

    // Ends a turn.
    pub(crate) fn leave<R>(&self, rt: &R, inside: Inside<State<L, M>>) -> Pass
        requires { CanLeave self.now (pass_in inside) inside.state }
        ensures pass { result ≡ record (pass_in inside.entry) { seen = inside.entry.state.entries } }
        ensures seen { HasSeen L M result inside.entry.state }
    {
        let _entries = inside.state.entries();
        self.turns.leave(rt, inside)
    }

    /// Takes the state out, at a turn of the pass. Whoever calls the store later waits forever. The state's entries
    /// begin with what the pass has seen, and are just these where the pass is the opener and has every number that was
    /// given out.
    pub fn end<R: Wait>(&self, rt: &R, pass: Pass) -> State<L, M>
        requires turns { pass.turns ≡ self.now }
        ensures turn { IsTurn (AreByOthers pass) L M pass.number (seen_by pass) result }
        ensures whole { IsWhole pass → result ≡ seen_by pass }
    {
        self.enter(rt, pass).end()
    }
}
