// What puts leave in a session's containers.
ghost use Rattle.std.specs.Prelude.{ℕ, ◌≡◌, ◌<◌, ◌≤◌, ◌^◌, List, Some};
ghost use Rattle.ss_base.specs.declared.object.Object.TheVariants.{Container};
ghost use Rattle.ss_base.specs.declared.profile.Profile.{Profile};
ghost use Rattle.ss_base.specs.ObjectName.{object_text};
ghost use Rattle.ss_base.specs.Profile.{numbers_of};
ghost use Rattle.segment_plan.specs.Plan.{Located, puts_against, end_against};
ghost use Rattle.outside.specs.Shelf.{Objects, bytes_of};
ghost use Rattle.outside.specs.Views.{ShelfView};
ghost use Rattle.outside.specs.declared.trouble.Trouble.{Trouble};
ghost use Rattle.journal_entry.specs.declared.entry.Entry.{Entry};
ghost use Rattle.depot.specs.Storing.{after_puts, IsStopped};
ghost use Rattle.stored_streams.specs.Streams.{Streams};
ghost use Rattle.stored_streams.specs.Plans.{plans_of, end_of};
ghost use Rattle.whole_objects.specs.Keeps.{GoesOn, KeepsOthers};
ghost use Rattle.whole_objects.specs.Records.{HoldCommits, ArePut};

/// The fresh chunks of a segment are put behind what a session's commits have laid out: where its containers hold just
/// their records, they do so behind the puts; where a put failed, they go on from what they were. Nothing else changes.
/// It runs nothing.
pub fn puts_are_laid_out()
    ensures done { (profile : Profile) (streams : Streams) (session : ℕ) (past : List Entry) (chunks : List (List ℕ)) (located : List Located) (shelf : ShelfView) (objects : Objects)
        → let n = numbers_of profile in let end = end_of session (plans_of n streams past) in
        session < 2 ^ 32
        → (end_against chunks located end n.room).containers ≤ 2 ^ 32
        → shelf.held ≡ Some objects
        → HoldCommits n streams session past objects
        → (now : Objects) × ((after_puts shelf (puts_against chunks located end n.room)).held ≡ Some now)
        × ArePut n streams session past chunks located objects now }
    ensures stopped { (profile : Profile) (streams : Streams) (session : ℕ) (past : List Entry) (chunks : List (List ℕ)) (located : List Located) (shelf after : ShelfView) (objects : Objects) (trouble : Trouble)
        → let n = numbers_of profile in let end = end_of session (plans_of n streams past) in
        session < 2 ^ 32
        → (end_against chunks located end n.room).containers ≤ 2 ^ 32
        → shelf.held ≡ Some objects
        → IsStopped shelf after (puts_against chunks located end n.room) trouble
        → (now : Objects) × (after.held ≡ Some now) × KeepsOthers session objects now
        × ((ordinal : ℕ) → ordinal < end.containers
        → let name = object_text (Container (record { session = session; ordinal = ordinal })) in GoesOn (bytes_of objects name) (bytes_of now name)) }
{}
