// The lines that a command prints of a stream's chunks.
ghost use Rattle.std.specs.Prelude.{◌≡◌, ◌≤◌, ◌++◌, ℕ, List, [], ◌∷◌, length, IfOk, OnOk, string_bytes};
ghost use Rattle.store_run.specs.Lines.{IsLines};
ghost use Rattle.store_run.specs.SoFar.{Stage, at_end, so_far};

use ss_base::Memory;
use std::alloc::Global;

/// What makes lines of a stream's chunks while they come.
pub trait ChunkLines: Drop {
    /// The lines of the stream whose further chunks are these: at its end all of them, so far those that are whole
    /// whatever comes.
    ghost text: { Stage → Self → List (List ℕ) → List ℕ };

    /// The greatest length of a chunk.
    ghost most: { Self → ℕ };

    /// Takes the next chunk, and gives the lines that are whole with it, perhaps none.
    fn add(&mut self, alloc: Global, chunk: &[u8]) -> Result<String, Memory>
        requires some { 1 ≤ length chunk.now }
        requires fits { length chunk.now ≤ most self.old }
        ensures lines { IfOk result (λ lines. (stage : Stage) (later : List (List ℕ)) →
            text stage self.old (chunk.now ∷ later) ≡ string_bytes lines ++ text stage self.new later) }
        ensures whole { IfOk result (λ lines. IsLines (string_bytes lines)) }
        ensures none_whole { OnOk result (text so_far self.new [] ≡ []) }
        ensures most { most self.new ≡ most self.old };

    /// The lines that are left at the stream's end.
    fn rest(&mut self, alloc: Global) -> Result<String, Memory>
        ensures { IfOk result (λ lines. string_bytes lines ≡ text at_end self.old []) };
}
