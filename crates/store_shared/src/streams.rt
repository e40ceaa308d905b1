// The calls of a pass that begin nothing.
ghost use Rattle.std.specs.Prelude.{◌≡◌};
ghost use Rattle.store_core.specs.Answers.{DeleteAnswer, ReclaimAnswer, StatAnswer};
ghost use Rattle.store_shared.specs.Took.{TookTurn};

use crate::Store;
use history::Totals;
use ss_base::StreamName;
use std::alloc::Global;
use std::sync::Wait;
use store_core::{NameFault, PointFault, Removal};
use turn_lock::Pass;

impl<const L: usize, const M: usize> Store<L, M> {
    /// Gives a name free, and answers the session whose stream it was. `NoStream`: no stream is retained under the
    /// name, which an entry says then. `Full`: with the entry the limits would be broken. After `Full` and `Memory` no
    /// entry is added.
    pub fn delete<R: Wait>(
        &self,
        rt: &R,
        pass: Pass,
        name: StreamName,
    ) -> (Pass, Result<u32, NameFault>)
        requires turns { pass.turns ≡ self.now }
        ensures { TookTurn L M pass result.0 (λ turn after. DeleteAnswer turn after pass.number name result.1) }
    {
        let author = pass.number();
        let mut inside = self.enter(rt, pass);
        let answer = inside.state.delete(author, name);
        (self.leave(rt, inside), answer)
    }

    /// Gives the first 16 objects, at most, that nothing needs over to be removed, each as a `Removal`, and records
    /// them. `Full`: with the entry the limits would be broken. After an Err no entry is added.
    pub fn reclaim<R: Wait>(
        &self,
        rt: &R,
        alloc: Global,
        pass: Pass,
    ) -> (Pass, Result<Vec<Removal>, PointFault>)
        requires turns { pass.turns ≡ self.now }
        ensures { TookTurn L M pass result.0 (λ turn after. ReclaimAnswer turn after pass.number result.1) }
    {
        let author = pass.number();
        let mut inside = self.enter(rt, pass);
        let answer = inside.state.reclaim(alloc, author);
        (self.leave(rt, inside), answer)
    }

    /// The totals of the entries so far, which it records. `Full`: with the entry the limits would be broken. After an
    /// Err no entry is added.
    pub fn stat<R: Wait>(&self, rt: &R, pass: Pass) -> (Pass, Result<Totals, PointFault>)
        requires turns { pass.turns ≡ self.now }
        ensures { TookTurn L M pass result.0 (λ turn after. StatAnswer turn after pass.number result.1) }
    {
        let author = pass.number();
        let mut inside = self.enter(rt, pass);
        let answer = inside.state.stat(author);
        (self.leave(rt, inside), answer)
    }
}
