// What a caller's entries are among those of others.
ghost use Rattle.std.specs.Prelude.{ℕ, ◌≡◌, List, [], ◌∷◌, ◌++◌, map, filter, eqb};
ghost use Rattle.journal_entry.specs.declared.entry.Entry.{Entry};
ghost use Rattle.journal_entry.specs.declared.entry.Point.{Point};
ghost use Rattle.store_core.specs.View.{StateView, made, Adds};
ghost use Rattle.history_calls.specs.Turn.{AtTurn};
ghost use Rattle.job_entries.specs.Interleaved.{IsInterleaved, AddsPoints};

use std::marker::Brand;

/// What others may add to a history between two calls of a caller. The laws are of every such property.
pub trait Others {
    ghost others: { List Entry → Type 0 };
}

impl Others for Brand {
    ghost others = { λ came. Unit {0} };
}

/// Where others add nothing, a caller's entries stand behind what it had seen, one for each of its points. Wherever they
/// add some, the caller's own among those that were added are these. It runs nothing.
pub fn entries_of_one_caller<O: Others>()
    ensures alone { (author : ℕ) (before after : StateView) (points : List Point)
        → ((came : List Entry) → O.others came → came ≡ [])
        → AddsPoints O.others author before after points
        → after ≡ record before { entries = before.entries ++ map (made author) points } }
    ensures among_others { (author : ℕ) (entries : List Entry) (points : List Point)
        → IsInterleaved O.others author entries points
        → filter (λ (entry : Entry). eqb entry.author author) entries ≡ map (made author) points }
{}

/// A call that adds an entry at its turn adds its point, and one that adds none no point; what calls add one behind
/// another are the points of the first and those of the second. It runs nothing.
pub fn entries_of_a_call<O: Others>()
    ensures entry { (standings champions author : ℕ) (seen after : StateView) (point : Point)
        → AtTurn O.others standings champions author seen (λ turn. Adds turn after (made author point))
        → AddsPoints O.others author seen after (point ∷ []) }
    ensures none { (standings champions author : ℕ) (seen after : StateView)
        → AtTurn O.others standings champions author seen (λ turn. after ≡ turn)
        → AddsPoints O.others author seen after [] }
    ensures nothing { (author : ℕ) (seen : StateView) → AddsPoints O.others author seen seen [] }
    ensures both { (author : ℕ) (before between after : StateView) (points more : List Point)
        → AddsPoints O.others author before between points
        → AddsPoints O.others author between after more
        → AddsPoints O.others author before after (points ++ more) }
{}

/// What a caller added beside others it also added beside others that may add more. It runs nothing.
pub fn entries_beside_more<O: Others, P: Others>()
    ensures { (author : ℕ) (before after : StateView) (points : List Point)
        → ((came : List Entry) → O.others came → P.others came)
        → AddsPoints O.others author before after points
        → AddsPoints P.others author before after points }
{}
