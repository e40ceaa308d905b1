// Objects that nothing needs any more.
ghost use Rattle.std.specs.Prelude.{◌≡◌};
ghost use Rattle.depot.specs.Removing.{RemoveAnswer};

use crate::Depot;
use crate::shelf_calls::erase_object;
use outside::{Shelf, Trouble};
use std::alloc::Global;
use store_core::{Removal, removal_object};

impl<S: Shelf> Depot<'_, S> {
    ghost use Rattle.depot.specs.Seen.{shelf_of, seen};

    /// Erases the object that was given over to be removed, by one erase. After an `Err`, which gives the removal back,
    /// the object is there as before, or is absent.
    pub fn remove(&mut self, alloc: Global, removal: Removal) -> Result<(), (Removal, Trouble)>
        ensures same_reference { (shelf_of self.new).ghost_name ≡ (shelf_of self.old).ghost_name }
        ensures answer { RemoveAnswer (seen ⟦<S as Shelf>⟧ self.old) (seen ⟦<S as Shelf>⟧ self.new) removal result }
    {
        match erase_object(alloc, self.shelf, removal_object(&removal)) {
            Ok(()) => Ok(()),
            Err(trouble) => Err((removal, trouble)),
        }
    }
}
