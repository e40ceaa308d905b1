// A new journal.
ghost use Rattle.std.specs.Prelude.{◌≡◌, ◌≤◌, IfSome, IsErrOf, IsTrue, OnOk, MatchResult};
ghost use Rattle.std.specs.FinMap.{contains_key};
ghost use Rattle.outside.specs.Shelf.{with_object, CreateLeaves, write_of, one_more};
ghost use Rattle.journal_file.specs.Cause.{CreateCount};
ghost use Rattle.journal_file.specs.Header.{journal_name, header_text};

use crate::CreateFault;
use crate::header::header_of;
use outside::Shelf;
use ss_base::Profile;

/// Makes a journal without entries. `AlreadyStore` comes exactly where the first call, `has("journal")`, answered
/// true; then no other call is made. After another `Err` the journal may be absent, or hold a front of its header.
pub fn create<S: Shelf>(shelf: &mut S, profile: Profile) -> Result<(), CreateFault>
    ensures held { MatchResult result
        (λ _. S.held shelf.new ≡ with_object (S.held shelf.old) journal_name (header_text profile))
        (λ _. CreateLeaves (S.held shelf.old) (S.held shelf.new) journal_name (header_text profile)) }
    ensures wrote { MatchResult result
        (λ _. S.wrote shelf.new ≡ one_more (S.wrote shelf.old) (write_of journal_name (header_text profile)))
        (λ _. S.wrote shelf.new ≡ S.wrote shelf.old) }

    // The journal of a store is not touched.
    ensures absent { OnOk result (IfSome (S.held shelf.old) (λ objects. IsTrue (contains_key objects journal_name) → ⊥)) }
    ensures already { IsErrOf result CreateFault.AlreadyStore →
        IfSome (S.held shelf.old) (λ objects. IsTrue (contains_key objects journal_name)) }
    ensures there { IfSome (S.held shelf.old) (λ objects. IsTrue (contains_key objects journal_name) →
        S.held shelf.new ≡ S.held shelf.old) }
    ensures untouched { IsErrOf result CreateFault.AlreadyStore → S.held shelf.new ≡ S.held shelf.old }

    ensures gave { S.gave shelf.new ≡ S.gave shelf.old }
    ensures erased { S.erased shelf.new ≡ S.erased shelf.old }
    ensures reads { S.reads shelf.new ≡ S.reads shelf.old }
    ensures later { S.faults shelf.old ≤ S.faults shelf.new }
    ensures count { CreateCount result (S.faults shelf.old) (S.faults shelf.new) }
{
    if shelf.has("journal")? {
        return Err(CreateFault::AlreadyStore);
    }
    shelf.create("journal", header_of(profile))?;
    Ok(())
}
