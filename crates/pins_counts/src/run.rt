// Runs of objects that are gone: of one kind and session, next to each other.
ghost use Rattle.std.specs.Prelude.{◌≡◌, ℕ, ◌≤◌, ◌<◌, true, false, IsSome};
ghost use Rattle.ss_base.specs.declared.object.Object.{Object as Stored};
ghost use Rattle.ss_base.specs.Ids.{same_object};
ghost use Rattle.pins_counts.specs.Facts.{fact_at, place_of, at_place, gone_in, seen_in, gone_now, IsSound};

use crate::fact::{Fact, Run, fact_of, set_fact};
use fx_hash::FxMap;
use ss_base::{ContainerId, ManifestId, Object};

// The object's number in its session.
pub(crate) fn place_of(object: Object) -> u32
    ensures { result ≡ place_of object }
{
    match object {
        Object::Container(id) => id.ordinal,
        Object::Manifest(id) => id.seq,
    }
}

// The object of the same kind and session with this number.
pub(crate) fn at_place(object: Object, place: u32) -> Object
    ensures { result ≡ at_place object place }
{
    match object {
        Object::Container(id) => Object::Container(ContainerId {
            session: id.session,
            ordinal: place,
        }),
        Object::Manifest(id) => Object::Manifest(ManifestId {
            session: id.session,
            seq: place,
        }),
    }
}

// The first of those just before the object that are known to be gone, or its own number.
pub(crate) fn first_before(facts: &FxMap<Object, Fact>, object: Object) -> u32
    requires { IsSound facts.now }
    ensures gone { (n : ℕ) → result ≤ n → n < place_of object → gone_in (fact_at facts.now (at_place object n)) ≡ true }
    ensures within { result ≤ place_of object }
{
    let place = place_of(object);
    if place == 0 {
        return place;
    }
    let fact = fact_of(facts, at_place(object, place - 1));
    match fact.gone {
        Some(run) if run.first < place => run.first,
        _ => place,
    }
}

// The last of those just after the object that are known to be gone, or its own number.
pub(crate) fn last_after(facts: &FxMap<Object, Fact>, object: Object) -> u32
    requires { IsSound facts.now }
    ensures gone { (n : ℕ) → place_of object < n → n ≤ result → gone_in (fact_at facts.now (at_place object n)) ≡ true }
    ensures within { place_of object ≤ result }
{
    let place = place_of(object);
    if place == u32::MAX {
        return place;
    }
    let fact = fact_of(facts, at_place(object, place + 1));
    match fact.gone {
        Some(run) if run.last > place => run.last,
        _ => place,
    }
}

// Where a walk goes on after the object: those between are known to be gone. It ends at `count`.
pub(crate) fn after_gone(facts: &FxMap<Object, Fact>, object: Object, count: u32) -> u32
    requires sound { IsSound facts.now }
    requires below { place_of object < count }
    ensures gone { (n : ℕ) → place_of object < n → n < result → gone_in (fact_at facts.now (at_place object n)) ≡ true }
    ensures within { (place_of object < result) × (result ≤ count) }
{
    let place = place_of(object);
    let fact = fact_of(facts, object);
    match fact.gone {
        Some(run) if run.last >= count => count,
        Some(run) if run.last > place => run.last + 1,
        _ => place + 1,
    }
}

// Lets the object, where it is gone, know this run, all of which is gone.
pub(crate) fn set_run(facts: &mut FxMap<Object, Fact>, object: Object, run: Run)
    requires sound { IsSound facts.old }
    requires gone { (n : ℕ) → run.first ≤ n → n ≤ run.last → gone_in (fact_at facts.old (at_place object n)) ≡ true }
    requires within { (run.first ≤ place_of object) × (place_of object ≤ run.last) }
    ensures sound { IsSound facts.new }
    ensures seen { (q : Stored) → seen_in (fact_at facts.new q) ≡ seen_in (fact_at facts.old q) }
{
    let fact = fact_of(facts, object);
    if fact.gone.is_some() {
        set_fact(
            facts,
            object,
            Fact {
                gone: Some(run),
                ..fact
            },
        );
    }
}

// Adds the object to those that are gone.
pub(crate) fn set_gone(facts: &mut FxMap<Object, Fact>, object: Object)
    requires sound { IsSound facts.old }
    requires room { IsSome (fact_at facts.old object) }
    ensures sound { IsSound facts.new }
    ensures others { (q : Stored) → same_object q object ≡ false → seen_in (fact_at facts.new q) ≡ seen_in (fact_at facts.old q) }
    ensures here { seen_in (fact_at facts.new object) ≡ gone_now (seen_in (fact_at facts.old object)) }
{
    let run = Run {
        first: first_before(facts, object),
        last: last_after(facts, object),
    };
    let fact = fact_of(facts, object);
    set_fact(
        facts,
        object,
        Fact {
            gone: Some(run),
            ..fact
        },
    );
    set_run(facts, at_place(object, run.first), run);
    set_run(facts, at_place(object, run.last), run);
}
