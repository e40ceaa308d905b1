// Turns: who may change the state, one after another.
ghost use Rattle.std.specs.Prelude.{◌≡◌, ◌+◌, suc, ℕ, [], ◌∷◌, Some, IfOk, ◌<◌};
ghost use Rattle.std.specs.List.{AllByRecursion};
ghost use Rattle.turn_lock.specs.Passes.{numbers_of, IsWhole};
ghost use Rattle.turn_lock.specs.Seen.{IsLater, IsTurnOf};
ghost use Rattle.turn_lock.specs.Rule.{word};
ghost use Rattle.turn_lock.specs.Entered.{seat_pass, IsAtRest, IsEntered, IsWaiting};
ghost use Rattle.turn_lock.specs.Found.{IsFound};
ghost use Rattle.turn_lock.specs.Turn.{pass_in};

use crate::inside::Inside;
use crate::law::{Add, COUNT, Draw, Law, Look, Opening, SERVING, Serve, TICKET};
use crate::pass::Pass;
use crate::view::View;
use atomic_table::{Seat, Table};
use history::Logged;
use ss_base::Memory;
use std::alloc::Global;
use std::marker::Model;
use std::snapshot::Snapshot;
use std::sync::Wait;
use std::thread;

/// A state that threads change in turns. Contracts see which turns they are: passes and notes belong to the turns that gave them.
#[derive(Drop)]
pub struct Turns<T: Logged> {
    pub(crate) table: Table<Option<T>, View, Opening<T>, Law, Global>,
}

impl<T: Logged> Model for Turns<T> {
    ghost use Rattle.std.specs.Prelude.{◌≡◌};
    ghost use Rattle.atomic_table.specs.Seated.{TableId};

    ghost Value = { TableId };

    ghost view = { λ t. t.table.shared.table_id };

    ghost invariant = { λ t. (t.table.shared.table_id.words ≡ 3) × (t.table.shared.table_id.slots ≡ 1) };
}

impl<T: Logged> Turns<T> {
    /// The turns, and the opener, whose number is `first`. After `Memory` the state is dropped.
    pub fn start(alloc: Global, state: T, first: u32) -> Result<(Turns<T>, Pass), Memory>
    where
        T: Drop,
        requires authors { AllByRecursion (λ e. e.author < first) (T.entries state) }
        ensures pass { IfOk result (λ r. r.1 ≡ record { turns = r.0; first = first; base = T.base state; number = first; joined = []; seen = T.entries state; next = Some (suc first) }) }
    {
        let about = Opening {
            first,
            state: Snapshot::of(&state),
        };
        let mut slots = Vec::new(alloc);
        if slots.push(Some(state)).is_err() {
            return Err(Memory);
        }
        match Table::new(alloc, &[0, 0, 0], slots, &about) {
            Ok((table, seat)) => {
                let pass = Pass {
                    number: first,
                    next: Some(u64::from(first) + 1),
                    badge: seat.into_badge(),
                };
                Ok((Turns { table }, pass))
            }
            Err(_) => Err(Memory),
        }
    }

    /// Waits for a turn of the pass, and takes the state.
    pub fn enter<R: Wait>(&self, rt: &R, pass: Pass) -> Inside<T>
        requires turns { pass.turns ≡ self.now }
        ensures pass { pass_in result ≡ record pass { seen = T.entries result.state } }
        ensures base { T.base result.state ≡ pass.base }
        ensures seen { IsLater (numbers_of pass) pass.seen (T.entries result.state) }
        ensures whole { IsWhole pass → T.entries result.state ≡ pass.seen }
    {
        let Pass {
            number,
            next,
            badge,
        } = pass;
        let mut seat = badge.into_seat();
        let state = self.take_turn(rt, &mut seat);
        Inside {
            state,
            number,
            next,
            seat,
        }
    }

    // Draws a ticket, and waits until it is served.
    fn take_turn<R: Wait>(&self, rt: &R, seat: &mut Seat<Option<T>, View>) -> T
        requires table { seat.old.table_id ≡ self.now }
        requires rests { IsAtRest seat.old }
        ensures seat { (seat.new.table_id ≡ seat.old.table_id) × IsEntered seat.new }
        ensures pass { seat_pass seat.new ≡ record (seat_pass seat.old) { seen = T.entries result } }
        ensures found { IsFound T.entries T.base (seat_pass seat.old) result }
    {
        let ticket = self.table.shared.fetch_add::<Draw>(seat, TICKET, 1);
        self.wait_turn(rt, seat, ticket)
    }

    fn wait_turn<R: Wait>(&self, rt: &R, seat: &mut Seat<Option<T>, View>, ticket: u64) -> T
        requires table { seat.old.table_id ≡ self.now }
        requires waits { (t : ℕ) × (ticket ≡ word t) × IsWaiting t seat.old }
        ensures seat { (seat.new.table_id ≡ seat.old.table_id) × IsEntered seat.new }
        ensures pass { seat_pass seat.new ≡ record (seat_pass seat.old) { seen = T.entries result } }
        ensures found { IsFound T.entries T.base (seat_pass seat.old) result }
    {
        for _ in rt.forever() {
            let shared = &self.table.shared;
            if shared.load::<Look>(seat, SERVING) == ticket {
                return shared.exchange(seat, 0, None).unwrap();
            }
            thread::yield_now();
        }
        unreachable!()
    }

    /// Gives the state back. The list is that at entry, or has one entry more, by the pass.
    pub fn leave<R>(&self, rt: &R, inside: Inside<T>) -> Pass
        requires turns { (pass_in inside).turns ≡ self.now }
        requires base { T.base inside.state ≡ (pass_in inside).base }
        requires entries { IsTurnOf (pass_in inside).number (pass_in inside).seen (T.entries inside.state) }
        ensures { result ≡ record (pass_in inside) { seen = T.entries inside.state } }
    {
        let _ = rt;
        let Inside {
            state,
            number,
            next,
            mut seat,
        } = inside;
        let shared = &self.table.shared;
        let back = shared.exchange(&mut seat, 0, Some(state));
        let None = back else { unreachable!() };
        shared.fetch_add::<Add>(&mut seat, COUNT, 1);
        shared.fetch_add::<Serve>(&mut seat, SERVING, 1);
        Pass {
            number,
            next,
            badge: seat.into_badge(),
        }
    }
}
