// Values that hold a history.

/// A value that holds a list of entries. It has no calls.
pub trait Logged {
    ghost use Rattle.std.specs.Prelude.{List, ℕ};
    ghost use Rattle.journal_entry.specs.declared.entry.Entry.{Entry};

    // The entries that the value holds, the oldest first.
    ghost entries: { Self → List Entry };

    // The numbers that its history is judged by, which never change.
    ghost base: { Self → List ℕ };
}
