// Which hooks a choice may have.
ghost use Rattle.std.specs.Prelude.{◌≡◌, ◌≤◌, true, [], IfOk};
ghost use Rattle.std.specs.List.{list_all};
ghost use Rattle.ss_base.specs.Hook.{is_hook};
ghost use Rattle.ss_base.specs.Ids.{has_name, are_distinct};
ghost use Rattle.history.specs.Legal.{are_hooks};
ghost use Rattle.store_core.specs.Seen.{HasSeen};

use ss_base::{Memory, Name, is_hook};
use std::alloc::Global;
use std::collections::BTreeSet;

// Puts the hooks into an empty set, the last first, up to the first that it has. Answers whether it had none.
#[tactic(auto, unfolding(ss_base::specs::Ids::are_distinct))]
fn put_distinct(seen: &mut BTreeSet<Name>, hooks: &[Name]) -> Result<bool, Memory>
    requires { seen.old.keys ≡ [] }
    ensures distinct { IfOk result (λ distinct. distinct ≡ are_distinct hooks.now) }
    ensures seen { IfOk result (λ distinct. distinct ≡ true → HasSeen seen.new.keys hooks.now) }
{
    match hooks {
        [] => Ok(true),
        [hook, rest @ ..] => {
            let distinct = put_distinct(seen, rest)?;
            if !distinct {
                return Ok(false);
            }
            let is_new = seen.insert(*hook)?;
            Ok(is_new)
        }
    }
}

#[tactic(auto, unfolding(ss_base::specs::Ids::has_name))]
fn has_name(name: &Name, names: &[Name]) -> bool
    ensures { result ≡ has_name name.now names.now }
{
    names.iter().any(|other| name.0 == other.0)
}

// The same of a few hooks: each is compared with those behind it.
#[tactic(auto, unfolding(ss_base::specs::Ids::are_distinct))]
fn few_are_distinct(hooks: &[Name]) -> bool
    ensures { result ≡ are_distinct hooks.now }
{
    match hooks {
        [] => true,
        [hook, rest @ ..] => !has_name(hook, rest) && few_are_distinct(rest),
    }
}

// A set costs more than to compare so many with each other.
const FEW: usize = 32;

fn are_distinct(alloc: Global, hooks: &[Name]) -> Result<bool, Memory>
    ensures { IfOk result (λ distinct. distinct ≡ are_distinct hooks.now) }
{
    if hooks.len() <= FEW {
        return Ok(few_are_distinct(hooks));
    }
    let mut seen = BTreeSet::new(alloc);
    let distinct = put_distinct(&mut seen, hooks)?;
    Ok(distinct)
}

fn all_are_hooks(bits: u32, hooks: &[Name]) -> bool
    requires { bits ≤ 32 }
    ensures { result ≡ list_all (is_hook bits) hooks.now }
{
    hooks.iter().all(|hook| is_hook(hook, bits))
}

// Whether the hooks are distinct, at most 4,096, and their first bits are zero.
#[tactic(auto, unfolding(history::specs::Legal::are_hooks))]
pub(crate) fn are_hooks(alloc: Global, bits: u32, hooks: &[Name]) -> Result<bool, Memory>
    requires { bits ≤ 32 }
    ensures { IfOk result (λ fine. fine ≡ are_hooks bits hooks.now) }
{
    if hooks.len() > 4096 {
        return Ok(false);
    }
    if !all_are_hooks(bits, hooks) {
        return Ok(false);
    }
    let distinct = are_distinct(alloc, hooks)?;
    Ok(distinct)
}
