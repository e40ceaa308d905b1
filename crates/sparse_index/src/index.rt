// Which manifests stand at each hook.
ghost use Rattle.std.specs.Prelude.{◌≡◌, ◌≤◌, IsTrue, false, OnOk, OnErr, All, if◌then◌else◌};
ghost use Rattle.std.specs.List.{IsDistinct, list_all};
ghost use Rattle.std.specs.FinMap as map;
ghost use Rattle.ss_base.specs.declared.name.Name.{Name as Hook};
ghost use Rattle.ss_base.specs.Ids.{same_name, same_manifest, has_name};
ghost use Rattle.ss_base.specs.Champions.{stands_in};
ghost use Rattle.ss_base.specs.Standings.{in_front, promoted, without_manifest};
ghost use Rattle.sparse_index.specs.Lists.{list_at, is_ready, HasRoom, Changes};

use crate::kept::{is_kept, keep, list_of, promote_at, put_at, retire_at};
use crate::name_key::NameMap;
use arrayvec::ArrayVec;
use ss_base::{ManifestId, Memory, Name, Standing};
use std::alloc::Global;
use std::collections::HashMap;
use std::hash::BuildHasherDefault;
use std::marker::Model;

/// Which manifests stand at each hook, at most `L`, the most recently used first. Contracts see a map from names to
/// lists, in which a hook that isn't there has the empty list. A hook is ready where a list, perhaps an empty one, is
/// kept for it; it stays ready.
#[derive(Drop)]
pub struct Index<const L: usize> {
    lists: NameMap<ArrayVec<Standing, L>>,
}

impl<const L: usize> Model for Index<L> {
    ghost use Rattle.std.specs.Prelude.{◌≤◌};
    ghost use Rattle.sparse_index.specs.Lists.{Lists, lists_code};
    ghost use Rattle.sparse_index.specs.Kept.{lists_of};

    ghost Value = { Lists };

    ghost coded = { lists_code };

    ghost view = { λ index. lists_of index.lists.entries };

    ghost invariant = { λ _. (1 ≤ L) × (L ≤ 255) };
}

impl<const L: usize> Index<L> {
    /// No hook has a list. Lists will be kept on `alloc`. `L` is from 1 to 255.
    pub fn new(alloc: Global) -> Index<L>
        requires { (1 ≤ L) × (L ≤ 255) }
        ensures { result ≡ map.empty }
    {
        Index {
            lists: HashMap::with_hasher(alloc, BuildHasherDefault::new()),
        }
    }

    /// Makes the hooks ready. The lists stay as they were, also after want of memory.
    pub fn make_room(&mut self, hooks: &[Name]) -> Result<(), Memory>
        ensures ok { OnOk result (All (λ hook. IsTrue (is_ready self.new hook)) hooks.now) }
        ensures kept { (hook : Hook) → IsTrue (is_ready self.old hook) → IsTrue (is_ready self.new hook) }
        ensures lists { (hook : Hook) → list_at self.new hook ≡ list_at self.old hook }
    {
        for hook in hooks {
            self.make_ready(hook)?;
        }
        Ok(())
    }

    /// Whether all of the hooks are ready.
    pub fn has_room(&self, hooks: &[Name]) -> bool
        ensures { result ≡ list_all (is_ready self.now) hooks.now }
    {
        for hook in hooks {
            if !self.is_ready(hook) {
                return false;
            }
        }
        true
    }

    /// Puts the manifest in front of the list of each of the hooks, and drops the last one past `L`. The hooks are
    /// distinct and ready, and the manifest stands at none of them.
    pub fn put(&mut self, hooks: &[Name], standing: Standing)
        requires distinct { IsDistinct same_name hooks.now }
        requires ready { All (λ hook. IsTrue (is_ready self.old hook)) hooks.now }
        requires absent { All (λ hook. stands_in standing.id (list_at self.old hook) ≡ false) hooks.now }
        ensures lists { (hook : Hook) → list_at self.new hook ≡ (if has_name hook hooks.now then in_front L standing (list_at self.old hook) else list_at self.old hook) }
        ensures ready { (hook : Hook) → is_ready self.new hook ≡ is_ready self.old hook }
    {
        for hook in hooks {
            self.put_at(hook, standing);
        }
    }

    /// Moves the champions that stand at each of the hooks to the front of its list, in their order. The hooks are
    /// distinct, and so are the champions.
    pub fn promote(&mut self, hooks: &[Name], champions: &[ManifestId])
        requires distinct_hooks { IsDistinct same_name hooks.now }
        requires distinct_champions { IsDistinct same_manifest champions.now }
        ensures lists { (hook : Hook) → list_at self.new hook ≡ (if has_name hook hooks.now then promoted champions.now (list_at self.old hook) else list_at self.old hook) }
        ensures ready { (hook : Hook) → is_ready self.new hook ≡ is_ready self.old hook }
    {
        for hook in hooks {
            self.promote_at(hook, champions);
        }
    }

    /// Takes the manifest out of the lists of these hooks.
    pub fn retire(&mut self, hooks: &[Name], id: ManifestId)
        ensures lists { (hook : Hook) → list_at self.new hook ≡ (if has_name hook hooks.now then without_manifest id (list_at self.old hook) else list_at self.old hook) }
        ensures ready { (hook : Hook) → is_ready self.new hook ≡ is_ready self.old hook }
    {
        for hook in hooks {
            self.retire_at(hook, id);
        }
    }

    /// What stands at the hook, the most recently used first.
    pub fn of(&self, hook: &Name) -> &[Standing]
        ensures { result.now ≡ list_at self.now hook.now }
    {
        list_of(&self.lists, hook)
    }

    fn is_ready(&self, hook: &Name) -> bool
        ensures { result ≡ is_ready self.now hook.now }
    {
        is_kept(&self.lists, hook)
    }

    // Keeps a list for the hook.
    fn make_ready(&mut self, hook: &Name) -> Result<(), Memory>
        ensures ok { OnOk result (HasRoom self.old self.new hook.now) }
        ensures err { OnErr result (self.new ≡ self.old) }
    {
        keep(&mut self.lists, hook)
    }

    fn put_at(&mut self, hook: &Name, standing: Standing)
        ensures { Changes self.old self.new hook.now (in_front L standing) }
    {
        put_at(&mut self.lists, hook, standing);
    }

    fn promote_at(&mut self, hook: &Name, champions: &[ManifestId])
        requires { IsDistinct same_manifest champions.now }
        ensures { Changes self.old self.new hook.now (promoted champions.now) }
    {
        promote_at(&mut self.lists, hook, champions);
    }

    fn retire_at(&mut self, hook: &Name, id: ManifestId)
        ensures { Changes self.old self.new hook.now (without_manifest id) }
    {
        retire_at(&mut self.lists, hook, id);
    }
}
