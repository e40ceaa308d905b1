// The lists that are kept, by their hooks.
ghost use Rattle.std.specs.Prelude.{◌≡◌, OnOk, OnErr};
ghost use Rattle.std.specs.List.{IsDistinct};
ghost use Rattle.std.specs.HashMap.{IsUnchanged};
ghost use Rattle.ss_base.specs.Ids.{same_manifest};
ghost use Rattle.ss_base.specs.Standings.{in_front, promoted, without_manifest};
ghost use Rattle.sparse_index.specs.Lists.{list_at, is_ready, HasRoom, Changes};
ghost use Rattle.sparse_index.specs.Kept.{lists_of};

use crate::list::{in_front, promote, retire};
use crate::name_key::{NameKey, NameMap};
use arrayvec::ArrayVec;
use ss_base::{ManifestId, Memory, Name, Standing};

// What stands at the hook.
pub(crate) fn list_of<'a, const L: usize>(
    lists: &'a NameMap<ArrayVec<Standing, L>>,
    hook: &Name,
) -> &'a [Standing]
    ensures { result.now ≡ list_at (lists_of lists.now.entries) hook.now }
{
    match lists.get(&NameKey(*hook)) {
        Some(list) => list.as_slice(),
        None => &[],
    }
}

pub(crate) fn is_kept<const L: usize>(lists: &NameMap<ArrayVec<Standing, L>>, hook: &Name) -> bool
    ensures { result ≡ is_ready (lists_of lists.now.entries) hook.now }
{
    lists.contains_key(&NameKey(*hook))
}

// Keeps a list for the hook.
pub(crate) fn keep<const L: usize>(
    lists: &mut NameMap<ArrayVec<Standing, L>>,
    hook: &Name,
) -> Result<(), Memory>
    ensures ok { OnOk result (HasRoom (lists_of lists.old.entries) (lists_of lists.new.entries) hook.now) }
    ensures err { OnErr result (IsUnchanged lists.old lists.new) }
{
    if !lists.contains_key(&NameKey(*hook)) {
        lists.insert(NameKey(*hook), ArrayVec::new())?;
    }
    Ok(())
}

// Puts the manifest in front of the hook's list.
pub(crate) fn put_at<const L: usize>(
    lists: &mut NameMap<ArrayVec<Standing, L>>,
    hook: &Name,
    standing: Standing,
)
    ensures { Changes (lists_of lists.old.entries) (lists_of lists.new.entries) hook.now (in_front L standing) }
{
    if let Some(list) = lists.get_mut(&NameKey(*hook)) {
        let changed = in_front(standing, list);
        *list = changed;
    }
}

// Moves the champions that stand at the hook to its front.
pub(crate) fn promote_at<const L: usize>(
    lists: &mut NameMap<ArrayVec<Standing, L>>,
    hook: &Name,
    champions: &[ManifestId],
)
    requires { IsDistinct same_manifest champions.now }
    ensures { Changes (lists_of lists.old.entries) (lists_of lists.new.entries) hook.now (promoted champions.now) }
{
    if let Some(list) = lists.get_mut(&NameKey(*hook)) {
        promote(champions, list);
    }
}

// Takes the manifest out of the hook's list.
pub(crate) fn retire_at<const L: usize>(
    lists: &mut NameMap<ArrayVec<Standing, L>>,
    hook: &Name,
    id: ManifestId,
)
    ensures { Changes (lists_of lists.old.entries) (lists_of lists.new.entries) hook.now (without_manifest id) }
{
    if let Some(list) = lists.get_mut(&NameKey(*hook)) {
        retire(id, list);
    }
}
