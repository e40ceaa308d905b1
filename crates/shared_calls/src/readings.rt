// The calls of a reading, beside others.
use crate::{IdlePass, PassCalls, ReadingPass, SharedCalls, Started};
use history_calls::ReadingCalls;
use ss_base::StreamName;
use std::alloc::Global;
use std::marker::PhantomData;
use store_core::{Looked, NameFault};

impl<'c, C: SharedCalls, O: Started> ReadingCalls for PassCalls<'c, C, O> {
    ghost use Rattle.store_shared.specs.Sight.{AreByOthers};
    ghost use Rattle.store_shared.specs.Tokens.{idle_of, reading_of};

    type Idle = IdlePass<O>;

    type Reading = ReadingPass<O>;

    ghost others = { AreByOthers O.pass };

    ghost standings = { C.standings };

    ghost champions = { C.champions };

    ghost of_idle = { λ calls idle. idle_of idle.pass };

    ghost of_reading = { λ calls token. reading_of token.reading };

    fn look(
        &mut self,
        alloc: Global,
        idle: IdlePass<O>,
        name: StreamName,
    ) -> Result<ReadingPass<O>, (IdlePass<O>, NameFault)> {
        let IdlePass { pass, of: _ } = idle;
        match self.calls.look(alloc, pass, name) {
            Ok(reading) => Ok(ReadingPass {
                reading,
                of: PhantomData,
            }),
            Err((pass, fault)) => Err((
                IdlePass {
                    pass,
                    of: PhantomData,
                },
                fault,
            )),
        }
    }

    fn looked<'t>(&self, reading: &'t ReadingPass<O>) -> &'t Looked {
        reading.reading.looked()
    }

    fn done(&mut self, reading: ReadingPass<O>) -> IdlePass<O> {
        let ReadingPass { reading, of: _ } = reading;
        IdlePass {
            pass: self.calls.done(reading),
            of: PhantomData,
        }
    }
}
