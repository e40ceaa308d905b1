// One call on the shelf, on an object by its name.
ghost use Rattle.ss_base.specs.ObjectName.{object_text};
ghost use Rattle.outside.specs.Views.{shelf_view};
ghost use Rattle.depot.specs.Calls.{ReadAnswer, CreateAnswer, AppendAnswer, EraseAnswer};

use outside::{Shelf, Trouble};
use ss_base::{Object, object_name};
use std::alloc::Global;

pub(crate) fn read_object<S: Shelf>(
    alloc: Global,
    shelf: &mut S,
    object: Object,
    at: u64,
    max: usize,
) -> Result<Vec<u8>, Trouble>
    ensures { ReadAnswer (shelf_view ⟦<S as Shelf>⟧ shelf.old) (shelf_view ⟦<S as Shelf>⟧ shelf.new) (object_text object) at max result }
{
    let name = object_name(alloc, &object)?;
    shelf.read(alloc, &name, at, max)
}

pub(crate) fn create_object<S: Shelf>(
    alloc: Global,
    shelf: &mut S,
    object: Object,
    bytes: &[u8],
) -> Result<(), Trouble>
    ensures { CreateAnswer (shelf_view ⟦<S as Shelf>⟧ shelf.old) (shelf_view ⟦<S as Shelf>⟧ shelf.new) (object_text object) bytes.now result }
{
    let name = object_name(alloc, &object)?;
    shelf.create(&name, bytes)
}

pub(crate) fn append_object<S: Shelf>(
    alloc: Global,
    shelf: &mut S,
    object: Object,
    bytes: &[u8],
) -> Result<(), Trouble>
    ensures { AppendAnswer (shelf_view ⟦<S as Shelf>⟧ shelf.old) (shelf_view ⟦<S as Shelf>⟧ shelf.new) (object_text object) bytes.now result }
{
    let name = object_name(alloc, &object)?;
    shelf.append(&name, bytes)
}

pub(crate) fn erase_object<S: Shelf>(
    alloc: Global,
    shelf: &mut S,
    object: Object,
) -> Result<(), Trouble>
    ensures { EraseAnswer (shelf_view ⟦<S as Shelf>⟧ shelf.old) (shelf_view ⟦<S as Shelf>⟧ shelf.new) (object_text object) result }
{
    let name = object_name(alloc, &object)?;
    shelf.erase(&name)
}
