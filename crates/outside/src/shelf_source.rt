// A source of one object of a shelf.
ghost use Rattle.std.specs.Prelude.{◌≡◌, ◌≤◌, ◌+◌, ◌⊎◌, if◌then◌else◌, ℕ, List, [], true, false, Some, vec_len, IfOk, MatchResult, IsTrue};
ghost use Rattle.std.specs.Io.KnownBytes.{Keeps, Consumes, IsAtEnd};
ghost use Rattle.outside.specs.Behind.{shelf_behind};
ghost use Rattle.outside.specs.Faults.{HasCause};
ghost use Rattle.outside.specs.Shelf.{left_of, one_more, read_of, next_read};

use crate::{Shelf, Source, Trouble};
use std::alloc::Global;

/// A source of one object of a shelf, from its first byte on. It tells what is left of the object where the shelf
/// tells its objects, and its count of faults is the shelf's. Each read makes one read of the shelf, until one
/// gave no bytes; then it makes none. It changes no object. A read that could pass the place 2^64 - 1 answers
/// `Memory`, and makes none.
#[derive(Drop)]
pub struct ShelfSource<'a, F: Shelf> {
    files: &'a mut F,
    name: &'a str,
    at: u64,
    has_ended: bool,
    ghost at_end: { has_ended ≡ true → (bytes : List ℕ) → left_of (F.held files.now) name.now at ≡ Some bytes → bytes ≡ [] },
}

impl<'a, F: Shelf> ShelfSource<'a, F> {
    ghost use Rattle.outside.specs.ShelfSource.{files_of, source_name, source_at, source_ended};

    /// A source of the object of this name. When it ends, `files` is as the source last left it.
    pub fn new(files: &'a mut F, name: &'a str) -> ShelfSource<'a, F>
        ensures same_reference { (files_of result).ghost_name ≡ files.entry.ghost_name }
        ensures files { (files_of result).now ≡ files.old }
        ensures name { source_name result ≡ name.now }
        ensures at { source_at result ≡ 0 }
        ensures ended { source_ended result ≡ false }
        ensures left { ⟦<ShelfSource<'a, F> as Source>⟧.left result ≡ left_of (F.held files.old) name.now 0 }
        ensures behind { ⟦<ShelfSource<'a, F> as Source>⟧.behind result ≡ shelf_behind ⟦<F as Shelf>⟧ files.entry }
    {
        ShelfSource {
            files,
            name,
            at: 0,
            has_ended: false,
        }
    }
}

impl<F: Shelf> Source for ShelfSource<'_, F> {
    ghost use Rattle.outside.specs.ShelfSource.{files_of, source_name, source_at, source_left, source_ended};

    ghost left = { source_left F.held };

    ghost ended = { source_ended };

    ghost faults = { λ s. F.faults s.files.now };

    ghost behind = { λ s. shelf_behind ⟦<F as Shelf>⟧ s.files };

    fn read(&mut self, alloc: Global, max: usize) -> Result<Vec<u8>, Trouble>
        requires { 1 ≤ max }
        ensures most { IfOk result (λ bytes. vec_len bytes ≤ max) }
        ensures bytes { MatchResult result
            (λ bytes. Consumes (source_left F.held self.old) (source_left F.held self.new) bytes.items)
            (λ _. Keeps (source_left F.held self.old) (source_left F.held self.new)) }
        ensures end { IfOk result (λ bytes. bytes.items ≡ [] → IsTrue (source_ended self.new) × IsAtEnd (source_left F.held self.new)) }
        ensures stays { IsTrue (source_ended self.old) → IsTrue (source_ended self.new) × IfOk result (λ bytes. bytes.items ≡ []) }
        ensures cause { HasCause (F.faults (files_of self.old).now) (F.faults (files_of self.new).now) result }
        ensures behind { shelf_behind ⟦<F as Shelf>⟧ (files_of self.new) ≡ shelf_behind ⟦<F as Shelf>⟧ (files_of self.old) }

        // Only an empty answer ends it.
        ensures ended { MatchResult result
            (λ bytes. IsTrue (source_ended self.new) → bytes.items ≡ [])
            (λ _. source_ended self.new ≡ source_ended self.old) }

        // One read of the shelf, at the place where the one before ended, and none behind the end.
        ensures name { source_name self.new ≡ source_name self.old }
        ensures at { MatchResult result
            (λ bytes. source_at self.new ≡ source_at self.old + vec_len bytes)
            (λ _. source_at self.new ≡ source_at self.old) }
        ensures gave { MatchResult result
            (λ bytes. F.gave (files_of self.new).now ≡ (if source_ended self.old then F.gave (files_of self.old).now
            else one_more (F.gave (files_of self.old).now) (read_of (source_name self.old) (source_at self.old) max bytes.items)))
            (λ _. F.gave (files_of self.new).now ≡ F.gave (files_of self.old).now) }
        ensures reads { MatchResult result
            (λ _. F.reads (files_of self.new).now ≡ (if source_ended self.old then F.reads (files_of self.old).now
            else next_read (F.reads (files_of self.old).now)))
            (λ _. (F.reads (files_of self.new).now ≡ F.reads (files_of self.old).now)
            ⊎ (F.reads (files_of self.new).now ≡ next_read (F.reads (files_of self.old).now))) }

        // The same shelf, on which nothing but reads was done.
        ensures same_reference { (files_of self.new).ghost_name ≡ (files_of self.old).ghost_name }
        ensures held { F.held (files_of self.new).now ≡ F.held (files_of self.old).now }
        ensures wrote { F.wrote (files_of self.new).now ≡ F.wrote (files_of self.old).now }
        ensures erased { F.erased (files_of self.new).now ≡ F.erased (files_of self.old).now }
    {
        if self.has_ended {
            return Ok(Vec::new(alloc));
        }
        if u64::MAX - self.at < max as u64 {
            return Err(Trouble::Memory);
        }
        let bytes = self.files.read(alloc, self.name, self.at, max)?;
        self.at += bytes.len() as u64;
        self.has_ended = bytes.is_empty();
        Ok(bytes)
    }
}
