// Which sessions are waited for as the numbers change.
ghost use Rattle.std.specs.Prelude.{◌≡◌, ℕ, ◌<◌, ◌≤◌, false, None, length};
ghost use Rattle.pins_counts.specs.Waiting.{awaits, ended_at, IsQuiet};

use crate::kind::Kind;
use crate::tally::Tally;
use crate::waiting::Waiting;

// Adds the session, if it is closed.
pub(crate) fn await_session(tally: &Tally, session: u32, waiting: &mut Waiting)
    requires { length tally.now.sessions ≤ waiting.old.below }
    ensures here { awaits waiting.new.sessions session ≡ false → ended_at tally.now session ≡ None }
    ensures kept { (q : ℕ) → awaits waiting.new.sessions q ≡ false → awaits waiting.old.sessions q ≡ false }
    ensures below { waiting.new.below ≡ waiting.old.below }
{
    if tally.ended(session).is_some() {
        waiting.add(session);
    }
}

// Adds the session, if it has a dead object of the kind.
pub(crate) fn await_dead(tally: &Tally, kind: Kind, session: u32, waiting: &mut Waiting)
    requires { session < waiting.old.below }
    ensures here { awaits waiting.new.sessions session ≡ false → IsQuiet kind tally.now session }
    ensures kept { (q : ℕ) → awaits waiting.new.sessions q ≡ false → awaits waiting.old.sessions q ≡ false }
    ensures below { waiting.new.below ≡ waiting.old.below }
{
    if tally.has_dead(kind, session) {
        waiting.add(session);
    }
}

// Takes the first sessions away, up to one that has a dead object of the kind.
pub(crate) fn pass_quiet(tally: &Tally, kind: Kind, waiting: &mut Waiting)
    requires { (q : ℕ) → awaits waiting.old.sessions q ≡ false → IsQuiet kind tally.now q }
    ensures covers { (q : ℕ) → awaits waiting.new.sessions q ≡ false → IsQuiet kind tally.now q }
    ensures below { waiting.new.below ≡ waiting.old.below }
{
    while let Some(session) = waiting.first() {
        if tally.has_dead(kind, session) {
            return;
        }
        waiting.pop();
    }
}
