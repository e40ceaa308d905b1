// A shelf of containers and manifests.
ghost use Rattle.std.specs.Prelude.{◌≡◌};

use outside::Shelf;

/// The containers and manifests of a store, on a shelf that it borrows. Contracts see the shelf as it is now. When the
/// depot ends, its lender has the shelf as the depot last left it.
#[derive(Drop)]
pub struct Depot<'a, S: Shelf> {
    pub(crate) shelf: &'a mut S,
}

impl<'a, S: Shelf> Depot<'a, S> {
    ghost use Rattle.depot.specs.Seen.{shelf_of};

    /// A depot over this shelf. It makes no call.
    pub fn over(shelf: &'a mut S) -> Depot<'a, S>
        ensures same_reference { (shelf_of result).ghost_name ≡ shelf.entry.ghost_name }
        ensures shelf { (shelf_of result).now ≡ shelf.old }
    {
        Depot { shelf }
    }
}
