// Which gates a lane passes on its way, and how a backup that fails is given up.
ghost use Rattle.std.specs.Prelude.{◌≡◌, IfOk};

use crate::tests::start;
use depot::{BackupFault, Depot};
use history::Point;
use manifest_cache::ManifestCache;
use outside::{Gate, MemShelf, PointKind};
use restore::restore_shared;
use session::backup_shared;
use ss_base::StreamName;
use std::alloc::Global;
use std::cell::Cell;
use std::sync::Wait;
use std::test::Fail;
use store_shared::{Pass, Store};

// What lane 7 passed, as the digits of a number to the base 16. Another lane is the digit 15.
#[derive(Drop)]
struct Passed {
    digits: Cell<u64>,
}

fn digit(kind: PointKind) -> u64 {
    match kind {
        PointKind::Begin => 1,
        PointKind::Choose => 2,
        PointKind::Commit => 3,
        PointKind::Finish => 4,
        PointKind::Abort => 5,
        PointKind::Look => 6,
        PointKind::Done => 7,
        _ => 0,
    }
}

impl Gate for Passed {
    fn pass(&self, lane: u32, kind: PointKind) {
        let digit = if lane == 7 { digit(kind) } else { 15 };
        self.digits
            .set(self.digits.get().wrapping_mul(16).wrapping_add(digit));
    }

    fn answered(&self, _lane: u32) {}
}

// What a backup of three bytes answers, where one call on the files fails, and one on the depot.
fn backed_up<R: Wait>(
    rt: &R,
    alloc: Global,
    store: &Store<8, 8>,
    pass: Pass,
    fails: (u32, u32),
    gate: &Passed,
) -> Result<(Pass, Option<BackupFault>), Fail>
    requires { pass.turns ≡ store.now }
    ensures { IfOk result (λ r. r.0.turns ≡ store.now) }
{
    let mut files = MemShelf::new(alloc, vec![in alloc; fails.0]?);
    files.set("in", b"abc")?;
    let mut objects = MemShelf::new(alloc, vec![in alloc; fails.1]?);
    let mut depot = Depot::over(&mut objects);
    let mut cache = ManifestCache::new(alloc, 64)?;
    let name = StreamName::new(b"x").ok_or("no name")?;
    let (pass, answer) = backup_shared(
        alloc, store, rt, pass, 7, gate, &mut files, "in", name, &mut depot, &mut cache,
    );
    let (pass, _restored) = restore_shared(
        alloc, store, rt, pass, 7, gate, &mut files, name, "out", &mut depot,
    );
    Ok((pass, answer.err()))
}

// The gates of a backup and a restore of one name, what the backup answered, and whether a session was given up.
fn gates<R: Wait>(
    rt: &R,
    alloc: Global,
    fails: (u32, u32),
) -> Result<(u64, Option<BackupFault>, bool), Fail> {
    let gate = Passed {
        digits: Cell::new(0),
    };
    let (store, pass) = start(alloc)?;
    let (pass, fault) = backed_up(rt, alloc, &store, pass, fails, &gate)?;
    let state = store.end(rt, pass);
    let given_up = state
        .entries()
        .iter()
        .any(|entry| matches!(entry.point, Point::Abort { .. }));
    Ok((gate.digits.get(), fault, given_up))
}

#[test]
fn each_turn_has_its_gate(rt: HostRuntime) -> Result<(), Fail> {
    let alloc = rt.alloc();
    let (digits, fault, given_up) = gates(&rt, alloc, (0, 0))?;
    assert!(rt; fault.is_none() && digits == 0x123467 && !given_up);
    Ok(())
}

#[test]
fn a_failed_backup_is_given_up(rt: HostRuntime) -> Result<(), Fail> {
    let alloc = rt.alloc();
    let (digits, fault, given_up) = gates(&rt, alloc, (2, 0))?;
    assert!(rt; fault == Some(BackupFault::InputFault) && digits == 0x156 && given_up);
    let (digits, fault, given_up) = gates(&rt, alloc, (0, 1))?;
    assert!(rt; fault == Some(BackupFault::DepotFault) && digits == 0x1256 && given_up);
    Ok(())
}
