// The calls of a reading.
ghost use Rattle.std.specs.Prelude.{◌≡◌, ℕ, List, MatchResult};
ghost use Rattle.journal_entry.specs.declared.entry.Entry.{Entry};
ghost use Rattle.history_calls.specs.Tokens.{IdleView, ReadingView};
ghost use Rattle.history_calls.specs.ReadingSteps.{CanEnd, HasLooked, HasNotLooked, HasEnded};

use ss_base::StreamName;
use std::alloc::Global;
use store_core::{Looked, NameFault};

/// The calls by which one caller adds a reading of a stream to a history. Between its two calls others may add entries,
/// where the history is shared. Each call adds at most one entry, and answers as a state does at its turn.
pub trait ReadingCalls {
    type Idle;

    type Reading;

    /// What others may add between two calls.
    ghost others: { List Entry → Type 0 };

    /// How many manifests stand at a hook, and how many champions a segment has, at most.
    ghost standings: { ℕ };

    ghost champions: { ℕ };

    /// What a token stands for: the caller, what it has seen of the history, the stream that it reads.
    ghost of_idle: { Self → Self.Idle → IdleView };

    ghost of_reading: { Self → Self.Reading → ReadingView };

    /// Looks a stream up by its name, so that it stays until the reading is done.
    fn look(
        &mut self,
        alloc: Global,
        idle: Self::Idle,
        name: StreamName,
    ) -> Result<Self::Reading, (Self::Idle, NameFault)>
        ensures { MatchResult result
            (λ reading. HasLooked others standings champions (of_idle self.old idle) name (of_reading self.new reading))
            (λ back. HasNotLooked others standings champions (of_idle self.old idle) name (of_idle self.new back.0) back.1) };

    /// The stream that is read.
    fn looked<'t>(&self, reading: &'t Self::Reading) -> &'t Looked
        ensures { result.now ≡ (of_reading self.now reading.now).looked };

    /// Ends the reading.
    fn done(&mut self, reading: Self::Reading) -> Self::Idle
        requires { CanEnd (of_reading self.old reading) }
        ensures { HasEnded others standings champions (of_reading self.old reading) (of_idle self.new result) };
}
