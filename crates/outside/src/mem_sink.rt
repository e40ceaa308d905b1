// A sink in memory.
ghost use Rattle.std.specs.Prelude.{◌≡◌, ◌<◌, [], ◌++◌, Some, take, length, IfOk, OnOk, OnErr};
ghost use Rattle.std.specs.Io.{WritesAtMost};
ghost use Rattle.std.specs.Io.KnownBytes.{Appends};
ghost use Rattle.outside.specs.Bytes.{AppendsFront};
ghost use Rattle.outside.specs.CallPlan.{planned, GoesByPlan};
ghost use Rattle.outside.specs.Faults.{HasCause};

use crate::call_plan::CallPlan;
use crate::{Sink, Trouble};
use std::alloc::Global;
use std::marker::Model;

/// A sink in memory. Its writes are counted from 1, and a write whose number is in `fails` answers `Fault` and
/// writes nothing. It tells its bytes.
#[derive(Drop)]
pub struct MemSink {
    bytes: Vec<u8>,
    plan: CallPlan,
}

impl Model for MemSink {
    ghost use Rattle.outside.specs.MemSink.{SinkState};

    ghost Value = { SinkState };

    ghost view = { λ s. record { written = s.bytes.items; plan = s.plan } };
}

impl MemSink {
    /// An empty sink whose writes with these numbers fail. Its bytes will be kept on `alloc`.
    pub fn new(alloc: Global, fails: Vec<u32>) -> MemSink
        ensures written { result.written ≡ [] }
        ensures plan { result.plan ≡ planned fails.items }
    {
        MemSink {
            bytes: Vec::new(alloc),
            plan: CallPlan::new(fails),
        }
    }

    /// The bytes written so far.
    pub fn bytes(&self) -> &[u8]
        ensures { result.now ≡ self.now.written }
    {
        &self.bytes
    }
}

impl Sink for MemSink {
    ghost written = { λ s. Some s.written };

    ghost faults = { λ s. s.plan.faults };

    fn write(&mut self, bytes: &[u8]) -> Result<usize, Trouble>
        ensures most { WritesAtMost result bytes.now }
        ensures some { IfOk result (λ n. 0 < length bytes.now → 0 < n) }
        ensures bytes { IfOk result (λ n. Appends (Some self.old.written) (Some self.new.written) (take n bytes.now)) }
        ensures err { OnErr result (AppendsFront (Some self.old.written) (Some self.new.written) bytes.now) }
        ensures cause { HasCause self.old.plan.faults self.new.plan.faults result }

        // The whole piece, and a fault exactly where the plan has one.
        ensures taken { IfOk result (λ n. n ≡ length bytes.now) }
        ensures added { OnOk result (self.new.written ≡ self.old.written ++ bytes.now) }
        ensures same { OnErr result (self.new.written ≡ self.old.written) }
        ensures plan { GoesByPlan self.old.plan self.new.plan result }
    {
        if self.plan.next_fails() {
            return Err(Trouble::Fault);
        }
        self.bytes.extend_from_slice(bytes)?;
        Ok(bytes.len())
    }
}
