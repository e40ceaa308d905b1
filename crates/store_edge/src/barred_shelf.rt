// A shelf some of whose names are barred.
ghost use Rattle.std.specs.Prelude.{◌≡◌, None};
ghost use Rattle.outside.specs.Faults.{HasCause};

use crate::ahead_shelf::AheadShelf;
use crate::bar::Bar;
use outside::{Shelf, Trouble};
use std::alloc::Global;
use std::sync::Wait;

/// A shelf of which a call on a barred name is a fault before the shelf is asked. Each other call is the shelf's. It
/// tells no bytes and keeps no record, only its counts, which begin with 0.
#[derive(Drop)]
pub struct BarredShelf<'a, F> {
    shelf: F,
    bar: Bar<'a>,
    reads: u64,
    faults: u64,
}

impl<'a, F: Shelf> BarredShelf<'a, F> {
    /// This shelf behind this bar.
    pub fn new(shelf: F, bar: Bar<'a>) -> BarredShelf<'a, F> {
        BarredShelf {
            shelf,
            bar,
            reads: 0,
            faults: 0,
        }
    }
}

impl<R: Wait> BarredShelf<'_, AheadShelf<'_, R>> {
    /// Puts on the disk what calls on the folder's shelf changed.
    pub fn sync(&mut self) -> Result<(), Trouble> {
        self.shelf.sync()
    }
}

impl<F: Shelf> Shelf for BarredShelf<'_, F> {
    ghost held = { λ _. None };

    ghost gave = { λ _. None };

    ghost wrote = { λ _. None };

    ghost erased = { λ _. None };

    ghost reads = { λ s. s.reads };

    ghost faults = { λ s. s.faults };

    fn has(&mut self, name: &str) -> Result<bool, Trouble> {
        admit(&mut self.faults, self.bar, name)?;
        counted(&mut self.faults, self.shelf.has(name))
    }

    fn read(&mut self, alloc: Global, name: &str, at: u64, max: usize) -> Result<Vec<u8>, Trouble> {
        self.reads = self.reads.wrapping_add(1);
        admit(&mut self.faults, self.bar, name)?;
        counted(&mut self.faults, self.shelf.read(alloc, name, at, max))
    }

    fn create(&mut self, name: &str, bytes: &[u8]) -> Result<(), Trouble> {
        admit(&mut self.faults, self.bar, name)?;
        counted(&mut self.faults, self.shelf.create(name, bytes))
    }

    fn append(&mut self, name: &str, bytes: &[u8]) -> Result<(), Trouble> {
        admit(&mut self.faults, self.bar, name)?;
        counted(&mut self.faults, self.shelf.append(name, bytes))
    }

    fn erase(&mut self, name: &str) -> Result<(), Trouble> {
        admit(&mut self.faults, self.bar, name)?;
        counted(&mut self.faults, self.shelf.erase(name))
    }
}

// A fault where the name is barred.
fn admit(faults: &mut u64, bar: Bar<'_>, name: &str) -> Result<(), Trouble>
    ensures cause { HasCause faults.old faults.new result }
{
    if bar.bars(name) {
        return counted(faults, Err(Trouble::Fault));
    }
    Ok(())
}

// Passes on an answer, and counts a fault.
fn counted<T>(faults: &mut u64, answer: Result<T, Trouble>) -> Result<T, Trouble>
    ensures same { result ≡ answer }
    ensures cause { HasCause faults.old faults.new result }
{
    match answer {
        Ok(value) => Ok(value),
        Err(Trouble::Fault) => {
            *faults = faults.saturating_add(1);
            Err(Trouble::Fault)
        }
        Err(Trouble::Memory) => Err(Trouble::Memory),
    }
}
