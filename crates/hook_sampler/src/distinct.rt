// Names without repetition.
ghost use Rattle.std.specs.Prelude.{◌≡◌, [], ◌∷◌, ◌++◌, OnOk, OnErr, if◌then◌else◌};
ghost use Rattle.std.specs.List.{list_any};
ghost use Rattle.ss_base.specs.Ids.{same_name};

use ss_base::{Memory, Name};
use std::alloc::Global;
use std::collections::BTreeSet;
use std::marker::Model;

/// Names without repetition, in the order in which they first came. Contracts see their list.
#[derive(Drop)]
pub struct Distinct {
    seen: BTreeSet<Name>,
    names: Vec<Name>,
}

impl Model for Distinct {
    ghost use Rattle.ss_base.specs.declared.name.Name.{Name};
    ghost use Rattle.std.specs.Prelude.{List};

    ghost Value = { List Name };

    ghost use Rattle.hook_sampler.specs.Seen.{HasSeen};

    ghost view = { λ s. s.names.items };

    ghost invariant = { λ s. HasSeen s.seen.keys s.names.items };
}

impl Distinct {
    pub fn new(alloc: Global) -> Self
        ensures { result ≡ [] }
    {
        Distinct {
            seen: BTreeSet::new(alloc),
            names: Vec::new(alloc),
        }
    }

    /// Adds a name, unless it was added before.
    pub fn add(&mut self, name: Name) -> Result<(), Memory>
        ensures ok { OnOk result (self.new ≡ (if list_any (same_name name) self.old then self.old else self.old ++ name ∷ [])) }
        ensures err { OnErr result (self.new ≡ self.old) }
    {
        self.names.reserve(1)?;
        if self.seen.insert(name)? {
            self.names.push(name)?;
        }
        Ok(())
    }

    pub fn into_names(self) -> Vec<Name>
        ensures { result.items ≡ self }
    {
        let Distinct { seen: _, names } = self;
        names
    }
}
