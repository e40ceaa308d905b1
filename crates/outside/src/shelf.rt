// Named objects that are read, made, added to and taken away.
ghost use Rattle.std.specs.Prelude.{◌≡◌, ◌≤◌, ℕ, List, Option, vec_len, IfOk, IfSome, MatchResult};
ghost use Rattle.std.specs.FinMap.{contains_key};
ghost use Rattle.outside.specs.Faults.{HasCause};
ghost use Rattle.outside.specs.Shelf.{Objects, Given, Written, bytes_of, part_of, with_object, with_added, without_object, CreateLeaves, AppendLeaves, EraseLeaves, read_of, write_of, one_more, next_read};

use crate::Trouble;
use std::alloc::Global;

/// A shelf of named objects, each a list of bytes. No call changes another object than the named one. An absent
/// object is no cause of an `Err`: it reads as an empty one does, `append` makes it, and `erase` leaves it.
pub trait Shelf {
    /// The objects, where an exclusive shelf tells them.
    ghost held: { Self → Option Objects };

    /// The reads that answered Ok, in order, where a recording shelf tells them.
    ghost gave: { Self → Option (List Given) };

    /// The creates and appends that answered Ok, in order, where a recording shelf tells them.
    ghost wrote: { Self → Option (List Written) };

    /// The names of the erases that answered Ok, in order, where a recording shelf tells them.
    ghost erased: { Self → Option (List (List ℕ)) };

    /// How many reads were made, modulo 2^64.
    ghost reads: { Self → ℕ };

    /// How often this shelf has failed.
    ghost faults: { Self → ℕ };

    /// Whether the object is there.
    fn has(&mut self, name: &str) -> Result<bool, Trouble>
        ensures answer { IfOk result (λ there. IfSome (held self.old) (λ objects. there ≡ contains_key objects name.now)) }
        ensures held { held self.new ≡ held self.old }
        ensures gave { gave self.new ≡ gave self.old }
        ensures wrote { wrote self.new ≡ wrote self.old }
        ensures erased { erased self.new ≡ erased self.old }
        ensures reads { reads self.new ≡ reads self.old }
        ensures cause { HasCause (faults self.old) (faults self.new) result };

    /// The object's bytes from the place `at` on, as many as `max` or to the end.
    fn read(&mut self, alloc: Global, name: &str, at: u64, max: usize) -> Result<Vec<u8>, Trouble>
        ensures most { IfOk result (λ bytes. vec_len bytes ≤ max) }
        ensures bytes { IfOk result (λ bytes. IfSome (held self.old)
            (λ objects. bytes.items ≡ part_of (bytes_of objects name.now) at max)) }
        ensures held { held self.new ≡ held self.old }
        ensures gave { MatchResult result
            (λ bytes. gave self.new ≡ one_more (gave self.old) (read_of name.now at max bytes.items))
            (λ _. gave self.new ≡ gave self.old) }
        ensures wrote { wrote self.new ≡ wrote self.old }
        ensures erased { erased self.new ≡ erased self.old }
        ensures reads { reads self.new ≡ next_read (reads self.old) }
        ensures cause { HasCause (faults self.old) (faults self.new) result };

    /// Makes the object hold exactly `bytes`, whether it was there or not.
    fn create(&mut self, name: &str, bytes: &[u8]) -> Result<(), Trouble>
        ensures held { MatchResult result
            (λ _. held self.new ≡ with_object (held self.old) name.now bytes.now)
            (λ _. CreateLeaves (held self.old) (held self.new) name.now bytes.now) }
        ensures gave { gave self.new ≡ gave self.old }
        ensures wrote { MatchResult result
            (λ _. wrote self.new ≡ one_more (wrote self.old) (write_of name.now bytes.now))
            (λ _. wrote self.new ≡ wrote self.old) }
        ensures erased { erased self.new ≡ erased self.old }
        ensures reads { reads self.new ≡ reads self.old }
        ensures cause { HasCause (faults self.old) (faults self.new) result };

    /// Adds `bytes` at the object's end. An absent object is made first.
    fn append(&mut self, name: &str, bytes: &[u8]) -> Result<(), Trouble>
        ensures held { MatchResult result
            (λ _. held self.new ≡ with_added (held self.old) name.now bytes.now)
            (λ _. AppendLeaves (held self.old) (held self.new) name.now bytes.now) }
        ensures gave { gave self.new ≡ gave self.old }
        ensures wrote { MatchResult result
            (λ _. wrote self.new ≡ one_more (wrote self.old) (write_of name.now bytes.now))
            (λ _. wrote self.new ≡ wrote self.old) }
        ensures erased { erased self.new ≡ erased self.old }
        ensures reads { reads self.new ≡ reads self.old }
        ensures cause { HasCause (faults self.old) (faults self.new) result };

    /// Takes the object away. That it is absent is no cause of an `Err`.
    fn erase(&mut self, name: &str) -> Result<(), Trouble>
        ensures held { MatchResult result
            (λ _. held self.new ≡ without_object (held self.old) name.now)
            (λ _. EraseLeaves (held self.old) (held self.new) name.now) }
        ensures gave { gave self.new ≡ gave self.old }
        ensures wrote { wrote self.new ≡ wrote self.old }
        ensures erased { MatchResult result
            (λ _. erased self.new ≡ one_more (erased self.old) name.now)
            (λ _. erased self.new ≡ erased self.old) }
        ensures reads { reads self.new ≡ reads self.old }
        ensures cause { HasCause (faults self.old) (faults self.new) result };
}
