// Laws of the texts of entries.
ghost use Rattle.std.specs.Prelude.{◌≡◌, ℕ, List, ◌++◌};
ghost use Rattle.std.specs.List.{AllByRecursion};
ghost use Rattle.journal_entry.specs.declared.entry.Entry.{Entry};
ghost use Rattle.journal_entry.specs.EntryText.{entry_text, entries_text};
ghost use Rattle.journal_entry.specs.Bounds.{IsEntry};

/// No entry's text begins that of another, so a text is that of one list of entries. It runs nothing.
pub fn one_reading()
    ensures entry { (a b : Entry) (x y : List ℕ) → IsEntry a → IsEntry b → entry_text a ++ x ≡ entry_text b ++ y
        → (a ≡ b) × (x ≡ y) }
    ensures entries { (left right : List Entry) → AllByRecursion IsEntry left → AllByRecursion IsEntry right
        → entries_text left ≡ entries_text right → left ≡ right }
{}
