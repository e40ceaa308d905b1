// A gate that holds two lanes up until each has seen the other.

use crate::{Gate, PointKind};
use std::sync::atomic::{AtomicBool, Ordering};

// The most turns of a wait.
const TURNS: u32 = 2_000_000_000;

/// A gate with two waits, which show that two lanes run beside each other. Lane 1 at a Commit turns until lane 2
/// has done a job, and lane 2 at a Stat turns until lane 1 has come to a Commit. A wait makes at most
/// 2,000,000,000 turns of one load each, and then lets its lane go on.
#[derive(Drop)]
pub struct HoldGate {
    has_answered: AtomicBool,
    is_committing: AtomicBool,
    commit_waited: AtomicBool,
    stat_waited: AtomicBool,
    ran_out: AtomicBool,
}

impl HoldGate {
    /// A gate at which no lane has come by. It is made without memory.
    pub fn new() -> HoldGate {
        HoldGate {
            has_answered: AtomicBool::new(false),
            is_committing: AtomicBool::new(false),
            commit_waited: AtomicBool::new(false),
            stat_waited: AtomicBool::new(false),
            ran_out: AtomicBool::new(false),
        }
    }

    /// Whether both waits were made and neither ran out of turns.
    pub fn seen(&self) -> bool {
        self.commit_waited.load(Ordering::SeqCst)
            && self.stat_waited.load(Ordering::SeqCst)
            && !self.ran_out.load(Ordering::SeqCst)
    }

    // Turns until the flag is set, and notes that the wait was made.
    fn wait(&self, flag: &AtomicBool, waited: &AtomicBool) {
        if !comes_true(flag) {
            self.ran_out.store(true, Ordering::SeqCst);
        }
        waited.store(true, Ordering::SeqCst);
    }
}

impl Gate for HoldGate {
    fn pass(&self, lane: u32, kind: PointKind) {
        match (lane, kind) {
            (1, PointKind::Commit) => {
                self.is_committing.store(true, Ordering::SeqCst);
                self.wait(&self.has_answered, &self.commit_waited);
            }
            (2, PointKind::Stat) => self.wait(&self.is_committing, &self.stat_waited),
            _ => {}
        }
    }

    fn answered(&self, lane: u32) {
        if lane == 2 {
            self.has_answered.store(true, Ordering::SeqCst);
        }
    }
}

// Whether the flag is set within the turns of a wait.
fn comes_true(flag: &AtomicBool) -> bool {
    for _ in 0..TURNS {
        if flag.load(Ordering::SeqCst) {
            return true;
        }
    }
    false
}
