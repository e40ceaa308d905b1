// What bytes are read from.
ghost use Rattle.std.specs.Prelude.{◌≡◌, ◌≤◌, ℕ, Bool, List, Option, [], vec_len, IsTrue, IfOk, MatchResult};
ghost use Rattle.std.specs.Io.KnownBytes.{Keeps, Consumes, IsAtEnd};
ghost use Rattle.outside.specs.Behind.{Behind};
ghost use Rattle.outside.specs.Faults.{HasCause};

use crate::Trouble;
use std::alloc::Global;

/// A source of bytes, read from front to back.
pub trait Source {
    /// The bytes still to come, where they are told.
    ghost left: { Self → Option (List ℕ) };

    /// The end was answered. It stays the end.
    ghost ended: { Self → Bool };

    /// How often this source has failed.
    ghost faults: { Self → ℕ };

    /// What stands behind the source: the reference that it borrows and what is told of a shelf. No read changes it.
    ghost behind: { Self → Behind };

    /// The next bytes, at least one and at most `max`, or none at the end. After an `Err` none is lost.
    fn read(&mut self, alloc: Global, max: usize) -> Result<Vec<u8>, Trouble>
        requires { 1 ≤ max }
        ensures most { IfOk result (λ bytes. vec_len bytes ≤ max) }
        ensures bytes { MatchResult result
            (λ bytes. Consumes (left self.old) (left self.new) bytes.items)
            (λ _. Keeps (left self.old) (left self.new)) }
        ensures end { IfOk result (λ bytes. bytes.items ≡ [] → IsTrue (ended self.new) × IsAtEnd (left self.new)) }
        ensures stays { IsTrue (ended self.old) → IsTrue (ended self.new) × IfOk result (λ bytes. bytes.items ≡ []) }
        ensures cause { HasCause (faults self.old) (faults self.new) result }
        ensures behind { behind self.new ≡ behind self.old };
}
