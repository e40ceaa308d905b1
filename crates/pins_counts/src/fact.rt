// What is kept of an object.
ghost use Rattle.std.specs.Prelude.{◌≡◌, ◌+◌, ◌-◌, ◌<◌, ◌^◌, IsSome, OnOk, OnErr, None};
ghost use Rattle.std.specs.HashMap.{IsUnchanged};
ghost use Rattle.pins_counts.specs.Facts.{fact_at, fact_or_nothing, OneSet};

use fx_hash::FxMap;
use ss_base::{Memory, Object};

// Of one kind and session, the objects from one number to another.
#[derive(Clone, Copy)]
pub(crate) struct Run {
    pub(crate) first: u32,
    pub(crate) last: u32,
}

// An object that is gone knows a run of neighbours that are, so that a walk need not visit them.
#[derive(Clone, Copy)]
pub(crate) struct Fact {
    pub(crate) number: u32,
    pub(crate) gone: Option<Run>,
}

pub(crate) const NOTHING: Fact = Fact {
    number: 0,
    gone: None,
};

// What is kept of the object, where there is room for it.
pub(crate) fn fact_of(facts: &FxMap<Object, Fact>, object: Object) -> Fact
    ensures { result ≡ fact_or_nothing (fact_at facts.now object) }
{
    match facts.get(&object) {
        Some(fact) => *fact,
        None => NOTHING,
    }
}

// Keeps this of the object, for which there is room.
pub(crate) fn set_fact(facts: &mut FxMap<Object, Fact>, object: Object, fact: Fact)
    requires { IsSome (fact_at facts.old object) }
    ensures { OneSet facts.old facts.new object fact }
{
    if let Some(kept) = facts.get_mut(&object) {
        *kept = fact;
    }
}

// Adds one to the number of the object, for which there is room.
pub(crate) fn raise(facts: &mut FxMap<Object, Fact>, object: Object)
    requires room { IsSome (fact_at facts.old object) }
    requires below { (fact_or_nothing (fact_at facts.old object)).number < 2 ^ 32 - 1 }
    ensures { let fact = fact_or_nothing (fact_at facts.old object) in OneSet facts.old facts.new object (record fact { number = fact.number + 1 }) }
{
    if let Some(fact) = facts.get_mut(&object) {
        *fact = Fact {
            number: fact.number + 1,
            gone: fact.gone,
        };
    }
}

// Takes one from the number of the object, for which there is room, and says what is left.
pub(crate) fn lower(facts: &mut FxMap<Object, Fact>, object: Object) -> u32
    requires room { IsSome (fact_at facts.old object) }
    requires above { 0 < (fact_or_nothing (fact_at facts.old object)).number }
    ensures set { let fact = fact_or_nothing (fact_at facts.old object) in OneSet facts.old facts.new object (record fact { number = fact.number - 1 }) }
    ensures left { (fact_or_nothing (fact_at facts.old object)).number ≡ result + 1 }
{
    match facts.get_mut(&object) {
        Some(fact) => {
            let left = fact.number - 1;
            *fact = Fact {
                number: left,
                gone: fact.gone,
            };
            left
        }
        None => 0,
    }
}

// Makes room for the object.
pub(crate) fn make_fact(facts: &mut FxMap<Object, Fact>, object: Object) -> Result<(), Memory>
    ensures ok { OnOk result (OneSet facts.old facts.new object (fact_or_nothing (fact_at facts.old object))) }
    ensures err { OnErr result (IsUnchanged facts.old facts.new) }
{
    if !facts.contains_key(&object) {
        facts.insert(object, NOTHING)?;
    }
    Ok(())
}
