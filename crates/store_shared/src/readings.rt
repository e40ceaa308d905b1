// The calls of a reading.
ghost use Rattle.std.specs.Prelude.{◌≡◌, Ok, Err, MatchResult};
ghost use Rattle.journal_entry.specs.declared.entry.Point.TheVariants.{Done as DonePoint};
ghost use Rattle.store_core.specs.View.{made, Adds};
ghost use Rattle.store_core.specs.Answers.{LookAnswer};
ghost use Rattle.history_calls.specs.ReadingSteps.{CanEnd};
ghost use Rattle.store_shared.specs.Tokens.{reading_of};
ghost use Rattle.store_shared.specs.Took.{TookTurn};

use crate::{Reading, Store};
use ss_base::StreamName;
use std::alloc::Global;
use std::sync::Wait;
use store_core::NameFault;
use turn_lock::Pass;

impl<const L: usize, const M: usize> Store<L, M> {
    /// Looks a stream up by its name, so that it stays until the reading is done. `NoStream`: no stream is retained
    /// under the name, which an entry says then. `Full`: with the entry the limits would be broken. After `Full` and
    /// `Memory` no entry is added.
    pub fn look<R: Wait>(
        &self,
        rt: &R,
        alloc: Global,
        pass: Pass,
        name: StreamName,
    ) -> Result<Reading, (Pass, NameFault)>
        requires turns { pass.turns ≡ self.now }
        ensures { MatchResult result
            (λ reading. TookTurn L M pass reading.pass (λ turn after. LookAnswer turn after pass.number name (Ok reading.looked)))
            (λ back. TookTurn L M pass back.0 (λ turn after. LookAnswer turn after pass.number name (Err back.1))) }
    {
        let author = pass.number();
        let mut inside = self.enter(rt, pass);
        let answer = inside.state.look(alloc, author, name);
        let pass = self.leave(rt, inside);
        match answer {
            Ok(looked) => Ok(Reading { pass, looked }),
            Err(fault) => Err((pass, fault)),
        }
    }

    /// Ends a reading. It takes no memory and always has room.
    pub fn done<R: Wait>(&self, rt: &R, reading: Reading) -> Pass
        requires turns { reading.pass.turns ≡ self.now }
        requires end { CanEnd (reading_of reading) }
        ensures { TookTurn L M reading.pass result (λ turn after. Adds turn after (made reading.pass.number (DonePoint reading.looked.reader))) }
    {
        let Reading { pass, looked } = reading;
        let author = pass.number();
        let mut inside = self.enter(rt, pass);
        inside.state.done(author, looked.reader);
        self.leave(rt, inside)
    }
}
