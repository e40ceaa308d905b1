// A source over bytes in memory.
ghost use Rattle.std.specs.Prelude.{◌≡◌, ◌==◌, ◌≤◌, [], Some, take, drop, vec_len, length, IsTrue, IfOk, OnOk, OnErr, MatchResult};
ghost use Rattle.std.specs.Io.KnownBytes.{Keeps, Consumes, IsAtEnd};
ghost use Rattle.outside.specs.Behind.{nothing_behind};
ghost use Rattle.outside.specs.CallPlan.{planned, GoesByPlan};
ghost use Rattle.outside.specs.Faults.{HasCause};

use crate::call_plan::CallPlan;
use crate::{Source, Trouble};
use std::alloc::Global;
use std::marker::Model;

/// A source over bytes in memory. Its reads are counted from 1, and a read whose number is in `fails` answers
/// `Fault` and takes nothing. It tells its bytes.
#[derive(Drop)]
pub struct MemSource {
    bytes: Vec<u8>,
    at: usize,
    plan: CallPlan,
}

impl Model for MemSource {
    ghost use Rattle.std.specs.Prelude.{drop, ◌≤◌, length};
    ghost use Rattle.outside.specs.MemSource.{SourceState};

    ghost Value = { SourceState };

    ghost view = { λ s. record { left = drop s.at s.bytes.items; plan = s.plan } };

    ghost invariant = { λ s. s.at ≤ length s.bytes.items };
}

impl MemSource {
    /// A source of these bytes whose reads with these numbers fail.
    pub fn new(bytes: Vec<u8>, fails: Vec<u32>) -> MemSource
        ensures left { result.left ≡ bytes.items }
        ensures plan { result.plan ≡ planned fails.items }
    {
        MemSource {
            bytes,
            at: 0,
            plan: CallPlan::new(fails),
        }
    }
}

impl Source for MemSource {
    ghost left = { λ s. Some s.left };

    ghost ended = { λ s. length s.left == 0 };

    ghost faults = { λ s. s.plan.faults };

    ghost behind = { λ s. nothing_behind };

    fn read(&mut self, alloc: Global, max: usize) -> Result<Vec<u8>, Trouble>
        requires { 1 ≤ max }
        ensures most { IfOk result (λ bytes. vec_len bytes ≤ max) }
        ensures bytes { MatchResult result
            (λ bytes. Consumes (Some self.old.left) (Some self.new.left) bytes.items)
            (λ _. Keeps (Some self.old.left) (Some self.new.left)) }
        ensures end { IfOk result (λ bytes. bytes.items ≡ [] → IsTrue (length self.new.left == 0) × IsAtEnd (Some self.new.left)) }
        ensures stays { IsTrue (length self.old.left == 0) → IsTrue (length self.new.left == 0) × IfOk result (λ bytes. bytes.items ≡ []) }
        ensures cause { HasCause self.old.plan.faults self.new.plan.faults result }
        ensures behind { nothing_behind ≡ nothing_behind }

        // As many bytes as there are, and a fault exactly where the plan has one.
        ensures taken { IfOk result (λ bytes. bytes.items ≡ take max self.old.left) }
        ensures rest { OnOk result (self.new.left ≡ drop max self.old.left) }
        ensures same { OnErr result (self.new.left ≡ self.old.left) }
        ensures plan { GoesByPlan self.old.plan self.new.plan result }
    {
        if self.plan.next_fails() {
            return Err(Trouble::Fault);
        }
        let end = self.at + max.min(self.bytes.len() - self.at);
        let taken = self.bytes[self.at..end].to_vec(alloc)?;
        self.at = end;
        Ok(taken)
    }
}
