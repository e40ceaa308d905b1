// Fresh chunks, and the manifests that list them.
ghost use Rattle.std.specs.Prelude.{◌≡◌, ◌<◌, ◌^◌, map};
ghost use Rattle.container_file.specs.Layout.{written};
ghost use Rattle.outside.specs.Views.{shelf_view};
ghost use Rattle.depot.specs.Storing.{puts_len, PutAnswer, PutsAnswer, StoreAnswer, WriteAnswer};

use crate::shelf_calls::{append_object, create_object};
use crate::{Depot, Placed, Written};
use chunk_name::name_of;
use container_file::Put;
use outside::{Shelf, Trouble};
use ss_base::{ManifestId, Object};
use std::alloc::Global;

impl<S: Shelf> Depot<'_, S> {
    ghost use Rattle.depot.specs.Seen.{shelf_of, seen};

    /// Stores the fresh chunks of a manifest: one create for each put that starts a container, and one append for each
    /// other put, in order, up to the first that fails. Together they have fewer than 2^64 bytes. After an `Err` the
    /// puts before the one that failed are done, and of that one perhaps a front.
    pub fn store_fresh(
        &mut self,
        alloc: Global,
        id: ManifestId,
        puts: &[Put],
    ) -> Result<Placed, Trouble>
        requires { puts_len puts.now < 2 ^ 64 }
        ensures same_reference { (shelf_of self.new).ghost_name ≡ (shelf_of self.old).ghost_name }
        ensures answer { StoreAnswer (seen ⟦<S as Shelf>⟧ self.old) (seen ⟦<S as Shelf>⟧ self.new) id puts.now result }
    {
        put_all(alloc, self.shelf, puts)?;
        Ok(Placed::new(id, sum_of(puts)))
    }

    /// Writes the manifest whose fresh chunks are stored, by one create. After an `Err` it is as before, or it is
    /// absent, or holds a front of the text.
    pub fn write_manifest(
        &mut self,
        alloc: Global,
        placed: Placed,
        text: &[u8],
    ) -> Result<Written, Trouble>
        ensures same_reference { (shelf_of self.new).ghost_name ≡ (shelf_of self.old).ghost_name }
        ensures answer { WriteAnswer (seen ⟦<S as Shelf>⟧ self.old) (seen ⟦<S as Shelf>⟧ self.new) placed text.now result }
    {
        let object = Object::Manifest(placed.id());
        create_object(alloc, self.shelf, object, text)?;
        Ok(Written::new(placed, name_of(text)))
    }
}

fn put_all<S: Shelf>(alloc: Global, shelf: &mut S, puts: &[Put]) -> Result<(), Trouble>
    ensures { PutsAnswer (shelf_view ⟦<S as Shelf>⟧ shelf.old) (shelf_view ⟦<S as Shelf>⟧ shelf.new) (map written puts.now) result }
{
    for put in puts {
        put_one(alloc, shelf, put)?;
    }
    Ok(())
}

fn put_one<S: Shelf>(alloc: Global, shelf: &mut S, put: &Put) -> Result<(), Trouble>
    ensures { PutAnswer (shelf_view ⟦<S as Shelf>⟧ shelf.old) (shelf_view ⟦<S as Shelf>⟧ shelf.new) (written put.now) result }
{
    let object = Object::Container(put.container);
    if put.starts {
        return create_object(alloc, shelf, object, &put.bytes);
    }
    append_object(alloc, shelf, object, &put.bytes)
}

// How many bytes the puts have.
fn sum_of(puts: &[Put]) -> u64
    requires { puts_len puts.now < 2 ^ 64 }
    ensures { result ≡ puts_len puts.now }
{
    puts.iter().map(|put| put.bytes.len() as u64).sum()
}
