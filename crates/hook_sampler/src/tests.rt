use super::*;
use ss_base::{Name, Piece};
use std::test::Fail;

// The expected lists were worked out by hand from the first bits of each name, of which only the first four bytes
// differ from zero.
#[test]
fn hooks_in_order_of_first_standing(rt: HostRuntime) -> Result<(), Fail> {
    let alloc = rt.alloc();
    let rows: [(u32, &[u32], &[u32]); 7] = [
        (1, &[], &[]),
        (
            1,
            &[0x3e23_e816, 0xca97_8112, 0x2e7d_2c03, 0x3e23_e816],
            &[0x3e23_e816, 0x2e7d_2c03],
        ),
        (0, &[0xffff_ffff, 1, 0xffff_ffff], &[0xffff_ffff, 1]),
        (2, &[0x5341_e6b2, 0x3e23_e816], &[0x3e23_e816]),
        (3, &[0x2e7d_2c03, 0x1fff_ffff, 0x2000_0000], &[0x1fff_ffff]),
        (31, &[2, 1, 0], &[1, 0]),
        (32, &[1, 0x8000_0000, 0, 0], &[0]),
    ];
    for (bits, pieces, expected) in rows.iter() {
        let mut given = Vec::new(alloc);
        for first in pieces.iter() {
            given.push(Piece {
                name: name(*first),
                len: 1,
            })?;
        }
        assert!(rt; *bits <= 32);
        let mut found = Vec::new(alloc);
        for name in hooks(alloc, &given, *bits)?.iter() {
            let [a, b, c, d, ..] = name.0;
            found.push(u32::from_be_bytes([a, b, c, d]))?;
        }
        assert_eq!(rt; found.as_slice(), *expected, "{bits}");
    }
    Ok(())
}

fn name(first: u32) -> Name {
    let [a, b, c, d] = first.to_be_bytes();
    let mut bytes = [0; 32];
    bytes[0] = a;
    bytes[1] = b;
    bytes[2] = c;
    bytes[3] = d;
    Name(bytes)
}
