// Laws of what bytes are.
ghost use Rattle.std.specs.Prelude.{◌≡◌, ℕ, List};
ghost use Rattle.ss_base.specs.declared.profile.Profile.{Profile};
ghost use Rattle.journal_entry.specs.declared.entry.Entry.{Entry};
ghost use Rattle.journal_file.specs.Journal.{IsJournal, HasNoHeader, IsBadAt};

/// Bytes are one journal, or no store, or bad at one place: what [`crate::read`] answers of them, where it wants
/// no memory and the shelf does not fail, is the only answer. It runs nothing.
pub fn one_answer()
    ensures bad { (bytes : List ℕ) (profile : Profile) (entries : List Entry) (place : ℕ) →
        IsJournal bytes profile entries → IsBadAt bytes place → ⊥ }
    ensures place { (bytes : List ℕ) (first second : ℕ) → IsBadAt bytes first → IsBadAt bytes second → first ≡ second }
    ensures journal { (bytes : List ℕ) (p q : Profile) (left right : List Entry) →
        IsJournal bytes p left → IsJournal bytes q right → (p ≡ q) × (left ≡ right) }
    ensures header { (bytes : List ℕ) (profile : Profile) (entries : List Entry) →
        IsJournal bytes profile entries → HasNoHeader bytes → ⊥ }
    ensures start { (bytes : List ℕ) (place : ℕ) → IsBadAt bytes place → HasNoHeader bytes → ⊥ }
{}
