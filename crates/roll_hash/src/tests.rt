ghost use Rattle.std.specs.Prelude.{◌≡◌, ◌<◌, ◌≤◌, length, IfOk};
ghost use Rattle.circular_buffer.specs.Buffer.{keep_last};
ghost use Rattle.roll_hash.specs.Fingerprint.{fingerprint};

use super::*;
use ss_base::Memory;
use std::alloc::Global;
use std::test::Fail;

// 48 bytes that are zero, but for `byte` at `at`.
fn one_byte(at: usize, byte: u8) -> [u8; 48]
    requires { at < 48 }
{
    let mut window = [0; 48];
    window[at] = byte;
    window
}

#[test]
fn fingerprints_of_windows(rt: HostRuntime) {
    assert_eq!(rt; fingerprint(&one_byte(47, 1)), 0);
    assert_eq!(rt; fingerprint(&one_byte(46, 1)), 2_654_435_769);
    assert_eq!(rt; fingerprint(&one_byte(46, 5)), 387_276_959);
    assert_eq!(rt; fingerprint(&one_byte(46, 81)), 260_932_529);
    assert_eq!(rt; fingerprint(&one_byte(45, 81)), 2_761_050_115);
}

// The rolling fingerprint after these bytes. A byte before them is forgotten.
fn rolled(alloc: Global, bytes: &[u8]) -> Result<u32, Memory>
    requires { 48 ≤ length bytes.now }
    ensures { IfOk result (λ value. value ≡ fingerprint (keep_last 48 bytes.now)) }
{
    let mut roll = Roll::new(alloc)?;
    roll.push(255);
    roll.clear();
    for byte in bytes {
        roll.push(*byte);
    }
    Ok(roll.value())
}

#[test]
fn rolls_over_more_bytes(rt: HostRuntime) -> Result<(), Fail> {
    let alloc = rt.alloc();
    let mut bytes = vec![in alloc; 7; 150]?;
    bytes.extend_from_slice(&one_byte(46, 81))?;
    assert!(rt; bytes.len() >= 48);
    assert_eq!(rt; rolled(alloc, bytes.as_slice())?, 260_932_529);
    bytes.push(0)?;
    assert!(rt; bytes.len() >= 48);
    assert_eq!(rt; rolled(alloc, bytes.as_slice())?, 2_761_050_115);
    Ok(())
}
