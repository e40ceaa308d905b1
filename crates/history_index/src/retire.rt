// What the end of a session takes out of the index.
ghost use Rattle.std.specs.Prelude.{◌≡◌};
ghost use Rattle.sparse_index.specs.Lists.{list_at, is_ready};
ghost use Rattle.ss_base.specs.declared.name.Name.{Name as Hook};
ghost use Rattle.ss_base.specs.Standings.{without_session};
ghost use Rattle.history_index.specs.MayChange.{MayRetire};

use crate::choices::hooks_at;
use journal_entry::Entry;
use sparse_index::Index;
use ss_base::ManifestId;

// Takes the session's manifests out of the lists. These are the numbers of its choices: its manifests stand only at
// hooks of the choice in the place of their seq.
pub(crate) fn retire_session<const L: usize>(
    index: &mut Index<L>,
    before: &[Entry],
    choices: &[u32],
    session: u32,
)
    requires { MayRetire index.old session before.now choices.now }
    ensures lists { (hook : Hook) → list_at index.new hook ≡ without_session session (list_at index.old hook) }
    ensures ready { (hook : Hook) → is_ready index.new hook ≡ is_ready index.old hook }
{
    for (place, number) in choices.iter().enumerate() {
        let seq = place as u32;
        index.retire(hooks_at(before, *number), ManifestId { session, seq });
    }
}
