// Sessions and readings: each is begun once, its end always fits, and other entries leave it as it is.
ghost use Rattle.std.specs.Prelude.{◌≡◌, ◌≤◌, ◌∷◌, ℕ, List, true, false, count_by};
ghost use Rattle.journal_entry.specs.declared.entry.Entry.{Entry};
ghost use Rattle.history.specs.declared.rules.Rules.{Rules};
ghost use Rattle.history.specs.OwnEnd.{own_end};
ghost use Rattle.history.specs.Sessions.{begins, closes, is_unfinished, is_retained, is_begun_by, commits_of, last_hooks, pending, looks, ends, is_reading, is_looked_by};
ghost use Rattle.history.specs.Legal.{is_within, is_legal};
ghost use Rattle.history_laws.specs.Concerns.{concerns_session, concerns_reading};

/// A session is begun by at most one entry, and so is a reading.
pub fn begun_once()
    ensures session { (rules : Rules) (past : List Entry) (session : ℕ) → is_legal rules past ≡ true
        → count_by (λ (entry : Entry). begins session entry.point) past ≤ 1 }
    ensures reading { (rules : Rules) (past : List Entry) (reader : ℕ) → is_legal rules past ≡ true
        → count_by (λ (entry : Entry). looks reader entry.point) past ≤ 1 }
{}

/// An entry that ends an unfinished session or reading never breaks the limits: there is room for it.
pub fn ends_fit()
    ensures session { (rules : Rules) (past : List Entry) (session : ℕ) (entry : Entry) → is_legal rules past ≡ true
        → is_unfinished session past ≡ true → closes session entry.point ≡ true → is_within rules.limits (entry ∷ past) ≡ true }
    ensures reading { (rules : Rules) (past : List Entry) (reader : ℕ) (entry : Entry) → is_legal rules past ≡ true
        → is_reading reader past ≡ true → ends reader entry.point ≡ true → is_within rules.limits (entry ∷ past) ≡ true }
{}

/// An entry that does not concern a session leaves it as it was: whether it is unfinished and retained, who began it,
/// its commits, its last choice and whether that is pending, and what it used of its own.
pub fn other_sessions_stay()
    ensures unfinished { (past : List Entry) (entry : Entry) (session : ℕ) → concerns_session session entry.point ≡ false
        → is_unfinished session (entry ∷ past) ≡ is_unfinished session past }
    ensures retained { (past : List Entry) (entry : Entry) (session : ℕ) → concerns_session session entry.point ≡ false
        → is_retained session (entry ∷ past) ≡ is_retained session past }
    ensures author { (past : List Entry) (entry : Entry) (author session : ℕ) → concerns_session session entry.point ≡ false
        → is_begun_by author session (entry ∷ past) ≡ is_begun_by author session past }
    ensures commits { (past : List Entry) (entry : Entry) (session : ℕ) → concerns_session session entry.point ≡ false
        → commits_of session (entry ∷ past) ≡ commits_of session past }
    ensures hooks { (past : List Entry) (entry : Entry) (session : ℕ) → concerns_session session entry.point ≡ false
        → last_hooks session (entry ∷ past) ≡ last_hooks session past }
    ensures pending { (past : List Entry) (entry : Entry) (session : ℕ) → concerns_session session entry.point ≡ false
        → pending session (entry ∷ past) ≡ pending session past }
    ensures used { (past : List Entry) (entry : Entry) (session : ℕ) → concerns_session session entry.point ≡ false
        → own_end session (entry ∷ past) ≡ own_end session past }
{}

/// An entry that neither begins nor ends a reading leaves it as it was.
pub fn other_readings_stay()
    ensures unfinished { (past : List Entry) (entry : Entry) (reader : ℕ) → concerns_reading reader entry.point ≡ false
        → is_reading reader (entry ∷ past) ≡ is_reading reader past }
    ensures author { (past : List Entry) (entry : Entry) (author reader : ℕ) → concerns_reading reader entry.point ≡ false
        → is_looked_by author reader (entry ∷ past) ≡ is_looked_by author reader past }
{}
