// The calls of a session, beside others.
use crate::{ChosenPass, IdlePass, OpenPass, PassCalls, SharedCalls, Started};
use depot::Written;
use history_calls::SessionCalls;
use ss_base::{Name, Profile, StreamName};
use std::alloc::Global;
use std::marker::PhantomData;
use store_core::{BeginFault, Choice, PointFault, Stored};

impl<'c, C: SharedCalls, O: Started> SessionCalls for PassCalls<'c, C, O> {
    ghost use Rattle.store_shared.specs.Sight.{AreByOthers};
    ghost use Rattle.store_shared.specs.Tokens.{idle_of, open_of, chosen_of};

    type Idle = IdlePass<O>;

    type Open = OpenPass<O>;

    type Chosen = ChosenPass<O>;

    ghost others = { AreByOthers O.pass };

    ghost standings = { C.standings };

    ghost champions = { C.champions };

    ghost of_idle = { λ calls idle. idle_of idle.pass };

    ghost of_open = { λ calls token. open_of token.session };

    ghost of_chosen = { λ calls token. chosen_of token.chosen };

    fn begin(
        &mut self,
        idle: IdlePass<O>,
        name: StreamName,
    ) -> Result<OpenPass<O>, (IdlePass<O>, BeginFault)> {
        let IdlePass { pass, of: _ } = idle;
        match self.calls.begin(pass, name) {
            Ok(session) => Ok(OpenPass {
                session,
                of: PhantomData,
            }),
            Err((pass, fault)) => Err((
                IdlePass {
                    pass,
                    of: PhantomData,
                },
                fault,
            )),
        }
    }

    fn session(&self, token: &OpenPass<O>) -> u32 {
        token.session.number()
    }

    fn profile(&self, token: &OpenPass<O>) -> Profile {
        token.session.profile()
    }

    fn choose(
        &mut self,
        alloc: Global,
        token: OpenPass<O>,
        hooks: Vec<Name>,
    ) -> Result<ChosenPass<O>, (OpenPass<O>, PointFault)> {
        let OpenPass { session, of: _ } = token;
        match self.calls.choose(alloc, session, hooks) {
            Ok(chosen) => Ok(ChosenPass {
                chosen,
                of: PhantomData,
            }),
            Err((session, fault)) => Err((
                OpenPass {
                    session,
                    of: PhantomData,
                },
                fault,
            )),
        }
    }

    fn choice<'t>(&self, chosen: &'t ChosenPass<O>) -> &'t Choice {
        chosen.chosen.choice()
    }

    fn commit(
        &mut self,
        chosen: ChosenPass<O>,
        stored: Stored,
        written: Written,
    ) -> Result<OpenPass<O>, (ChosenPass<O>, PointFault)> {
        let ChosenPass { chosen, of: _ } = chosen;
        match self.calls.commit(chosen, stored, written) {
            Ok(session) => Ok(OpenPass {
                session,
                of: PhantomData,
            }),
            Err((chosen, fault)) => Err((
                ChosenPass {
                    chosen,
                    of: PhantomData,
                },
                fault,
            )),
        }
    }

    fn finish(&mut self, token: OpenPass<O>, containers: u32) -> IdlePass<O> {
        let OpenPass { session, of: _ } = token;
        IdlePass {
            pass: self.calls.finish(session, containers),
            of: PhantomData,
        }
    }

    fn abort(&mut self, token: OpenPass<O>, containers: u32, texts: u32) -> IdlePass<O> {
        let OpenPass { session, of: _ } = token;
        IdlePass {
            pass: self.calls.abort(session, containers, texts),
            of: PhantomData,
        }
    }

    fn abort_chosen(&mut self, chosen: ChosenPass<O>, containers: u32, texts: u32) -> IdlePass<O> {
        let ChosenPass { chosen, of: _ } = chosen;
        IdlePass {
            pass: self.calls.abort_chosen(chosen, containers, texts),
            of: PhantomData,
        }
    }
}
