// What a job holds of its pass between its calls.
ghost use Rattle.std.specs.Prelude.{◌≡◌};
ghost use Rattle.turn_lock.specs.Passes.{PassView};
ghost use Rattle.shared_calls.specs.Starts.{IsStill};

use crate::SharedCalls;
use std::marker::{Brand, PhantomData};
use store_shared::{Chosen, Pass, Reading, Session};

/// The pass that a job began with. A call of a whole job picks it.
pub trait Started {
    ghost use Rattle.turn_lock.specs.Passes.{PassView};

    ghost pass: { PassView };
}

impl Started for Brand {
    ghost use Rattle.shared_calls.specs.Starts.{no_pass};

    ghost pass = { no_pass };
}

/// The calls of a job whose pass it was.
#[derive(Drop)]
pub struct PassCalls<'c, C: SharedCalls, O: Started> {
    pub calls: &'c C,
    pub of: PhantomData<O>,
    pub ghost turns: { C.turns calls.now ≡ O.pass.turns },
}

/// The pass with nothing begun: as it was, but for what it has seen.
pub struct IdlePass<O: Started> {
    pub pass: Pass,
    pub of: PhantomData<O>,
    pub ghost still: { IsStill O.pass pass },
}

/// The pass in a session without a pending choice.
pub struct OpenPass<O: Started> {
    pub session: Session,
    pub of: PhantomData<O>,
    pub ghost still: { IsStill O.pass session.pass },
}

/// The pass in a session with a pending choice.
pub struct ChosenPass<O: Started> {
    pub chosen: Chosen,
    pub of: PhantomData<O>,
    pub ghost still: { IsStill O.pass chosen.pass },
}

/// The pass in a reading.
pub struct ReadingPass<O: Started> {
    pub reading: Reading,
    pub of: PhantomData<O>,
    pub ghost still: { IsStill O.pass reading.pass },
}

/// An object's name, where the pass of a job is picked: such a call takes no `&str` of its own.
#[derive(Clone, Copy)]
pub struct ObjectName<'n> {
    pub text: &'n str,
}
