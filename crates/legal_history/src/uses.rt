// The ordinals of its own that a Commit uses.
ghost use Rattle.std.specs.Prelude.{◌≡◌};
ghost use Rattle.history.specs.OwnEnd.{end_of, end_among};

use crate::session::larger;
use ss_base::ContainerId;

#[tactic(auto, unfolding(history::specs::OwnEnd::end_of))]
fn end_of(session: u32, id: ContainerId) -> u64
    ensures { result ≡ end_of session id }
{
    if id.session == session {
        u64::from(id.ordinal) + 1
    } else {
        0
    }
}

// The least number above each own ordinal among the containers.
pub(crate) fn end_among(session: u32, uses: &[ContainerId]) -> u64
    ensures { result ≡ end_among session uses.now }
{
    let mut end = 0;
    for id in uses {
        end = larger(end, end_of(session, *id));
    }
    end
}
