// Gates hold lanes up as they say.

use crate::{Gate, HoldGate, OpenGate, PointKind};
use std::process::Abort;
use std::thread::join;

#[test]
fn an_open_gate_lets_lanes_go_on(rt: HostRuntime) {
    OpenGate.pass(1, PointKind::Commit);
    OpenGate.answered(2);
    let gate = HoldGate::new();
    gate.pass(2, PointKind::Commit);
    gate.pass(1, PointKind::Stat);
    gate.answered(1);
    assert!(rt; !gate.seen());
}

#[test]
fn two_lanes_wait_for_each_other(rt: HostRuntime) {
    let gate = HoldGate::new();
    join(
        &rt,
        || {
            gate.pass(1, PointKind::Begin);
            gate.pass(1, PointKind::Commit);
        },
        || {
            gate.pass(2, PointKind::Stat);
            gate.answered(2);
        },
    );
    assert!(rt; gate.seen());
}
