// Objects in memory, by their names.
ghost use Rattle.std.specs.Prelude.{◌≡◌, ◌++◌, OnOk, OnErr};
ghost use Rattle.std.specs.Option.{option_copied};
ghost use Rattle.std.specs.FinMap as map;
ghost use Rattle.outside.specs.Shelf.{bytes_of, part_of};

use ss_base::Memory;
use std::alloc::Global;
use std::collections::BTreeMap;
use std::marker::Model;

/// Objects in memory. Contracts see a finite map from names to bytes.
#[derive(Drop)]
pub struct ObjectMap {
    alloc: Global,
    objects: BTreeMap<String, Vec<u8>>,
}

impl Model for ObjectMap {
    ghost use Rattle.std.specs.Prelude.{ℕ, List};
    ghost use Rattle.std.specs.Coded.{coded_ℕ, coded_list};
    ghost use Rattle.std.specs.FinMap.{code};
    ghost use Rattle.outside.specs.Shelf.{Objects};
    ghost use Rattle.outside.specs.ObjectMap.{objects_of};

    ghost Value = { Objects };

    ghost coded = { code (coded_list coded_ℕ) (coded_list coded_ℕ) };

    ghost view = { λ o. objects_of o.objects };
}

impl ObjectMap {
    /// No objects. Names and bytes will be kept on `alloc`.
    pub fn new(alloc: Global) -> ObjectMap
        ensures { result ≡ map.empty }
    {
        ObjectMap {
            alloc,
            objects: BTreeMap::new(alloc),
        }
    }

    /// The object's bytes, where it is there.
    pub fn get(&self, name: &str) -> Option<&[u8]>
        ensures { option_copied result ≡ map.get self.now name.now }
    {
        match self.objects.get(name) {
            Some(bytes) => Some(bytes),
            None => None,
        }
    }

    /// The object's bytes; an absent one has none.
    pub fn bytes_of(&self, name: &str) -> &[u8]
        ensures { result.now ≡ bytes_of self.now name.now }
    {
        match self.get(name) {
            Some(bytes) => bytes,
            None => &[],
        }
    }

    /// The object's bytes from the place `at` on, as many as `max` or to the end.
    pub fn part_of(&self, name: &str, at: u64, max: usize) -> &[u8]
        ensures { result.now ≡ part_of (bytes_of self.now name.now) at max }
    {
        let bytes = self.bytes_of(name);
        let start = bytes.len().min(at as usize);
        let left = &bytes[start..];
        &left[..max.min(left.len())]
    }

    /// Makes the object hold exactly these bytes.
    pub fn put(&mut self, name: &str, bytes: &[u8]) -> Result<(), Memory>
        ensures ok { OnOk result (self.new ≡ map.insert self.old name.now bytes.now) }
        ensures err { OnErr result (self.new ≡ self.old) }
    {
        let copy = bytes.to_vec(self.alloc)?;
        let key = String::from_str(self.alloc, name)?;
        self.objects.insert(key, copy)?;
        Ok(())
    }

    /// Adds these bytes at the object's end, which is made where it is absent.
    pub fn add(&mut self, name: &str, bytes: &[u8]) -> Result<(), Memory>
        ensures ok { OnOk result (self.new ≡ map.insert self.old name.now (bytes_of self.old name.now ++ bytes.now)) }
        ensures err { OnErr result (self.new ≡ self.old) }
    {
        match self.objects.get_mut(name) {
            Some(object) => Ok(object.extend_from_slice(bytes)?),
            None => self.put(name, bytes),
        }
    }

    /// Takes the object away, where it is there.
    pub fn remove(&mut self, name: &str)
        ensures { self.new ≡ map.remove self.old name.now }
    {
        let _ = self.objects.remove(name);
    }
}
