// What a caller may rely on between its calls.
ghost use Rattle.std.specs.Prelude.{ℕ, List, Option, None, Ok};
ghost use Rattle.ss_base.specs.declared.ids.ManifestId.{ManifestId};
ghost use Rattle.ss_base.specs.declared.name.Name.{Name};
ghost use Rattle.store_core.specs.declared.values.Choice.{Choice};
ghost use Rattle.store_core.specs.View.{StateView, past_of};
ghost use Rattle.store_core.specs.Answers.{BeginAnswer, ChooseAnswer};
ghost use Rattle.history_calls.specs.OpenAt.{IsOpenAt, IsPendingSo};
ghost use Rattle.history_calls.specs.Turn.{IsTurn, AtTurn};

/// Whatever it is that others add before a caller's turn leaves the caller's session as it was; a session that begins has committed
/// and chosen nothing; behind a choice its champions are pending, and are kept as the choice gives them. It runs
/// nothing.
pub fn sessions_of_a_caller()
    ensures turn { (standings champions author session commit_count containers : ℕ) (choice : Option (List ManifestId)) (seen turn : StateView)
        → IsTurn (λ came. Unit {0}) standings champions author seen turn
        → IsOpenAt author session choice commit_count containers (past_of seen)
        → IsOpenAt author session choice commit_count containers (past_of turn) }
    ensures begun { (standings champions author session : ℕ) (name : List ℕ) (seen after : StateView)
        → AtTurn (λ came. Unit {0}) standings champions author seen (λ turn. BeginAnswer turn after author name (Ok session))
        → IsOpenAt author session None 0 0 (past_of after) }
    ensures chosen { (standings champions author session commit_count containers : ℕ) (hooks : List Name) (choice : Choice) (seen after : StateView)
        → AtTurn (λ came. Unit {0}) standings champions author seen (λ turn. ChooseAnswer standings champions turn after author session hooks (Ok choice))
        → IsOpenAt author session None commit_count containers (past_of seen)
        → IsPendingSo author session commit_count containers choice after }
{}
