// The calls on the shelf of the output.
ghost use Rattle.std.specs.Prelude.{[]};
ghost use Rattle.outside.specs.Views.{shelf_view};
ghost use Rattle.depot.specs.Calls.{CreateAnswer, AppendAnswer};
ghost use Rattle.restore.specs.Output.{HasAnswer};

use outside::{Shelf, Trouble};

// Whether the output is there.
pub(crate) fn is_there<F: Shelf>(files: &mut F, output: &str) -> Result<bool, Trouble>
    ensures { HasAnswer output.now (shelf_view ⟦<F as Shelf>⟧ files.old) (shelf_view ⟦<F as Shelf>⟧ files.new) result }
{
    files.has(output)
}

// Makes the output, without bytes.
pub(crate) fn make<F: Shelf>(files: &mut F, output: &str) -> Result<(), Trouble>
    ensures { CreateAnswer (shelf_view ⟦<F as Shelf>⟧ files.old) (shelf_view ⟦<F as Shelf>⟧ files.new) output.now [] result }
{
    files.create(output, &[])
}

// Adds these bytes to the output.
pub(crate) fn add<F: Shelf>(files: &mut F, output: &str, bytes: &[u8]) -> Result<(), Trouble>
    ensures { AppendAnswer (shelf_view ⟦<F as Shelf>⟧ files.old) (shelf_view ⟦<F as Shelf>⟧ files.new) output.now bytes.now result }
{
    files.append(output, bytes)
}
