// The expected digest was worked out by another program.
ghost use Rattle.std.specs.Prelude.{◌<◌};

use super::*;
use chunk_name::{hex_of, name_of, piece_of};
use ss_base::{ContainerId, Memory, Name, Piece, Place};
use std::alloc::Global;
use std::test::Fail;

const NOTHING: ContainerEnd = ContainerEnd {
    session: 0,
    containers: 0,
    used: 0,
};

// Three chunks of 256 zero bytes and one of `b`.
fn zeros_and_b(alloc: Global) -> Result<Plan, Memory> {
    let mut bytes = [0; 769];
    bytes[768] = b'b';
    let zeros = piece_of(&[0; 256]);
    let pieces = [zeros, zeros, zeros, piece_of(b"b")];
    let fresh = [true, false, false, true];
    plan(alloc, &pieces, &bytes, &fresh, NOTHING, 4_096)
}

#[test]
fn first_backup(rt: HostRuntime) -> Result<(), Fail> {
    let alloc = rt.alloc();
    let laid = zeros_and_b(alloc)?;
    assert!(rt; laid.puts.len() == 1 && laid.places.len() == 2);
    assert_eq!(rt; (laid.places[0].offset, laid.places[1].offset), (52, 344));
    assert_eq!(rt; (laid.end.containers, laid.end.used), (1, 345));
    let put = &laid.puts[0];
    assert!(rt; put.starts && put.bytes.len() == 345);
    assert_eq!(rt;
        hex_of(alloc, &name_of(&put.bytes))?.as_str(),
        "9b12399db8bf673ea56e1a188313590b612c93f23d44f263eaf7f7367060024b"
    );
    let expected = [
        ScanRecord {
            piece: piece_of(&[0; 256]),
            offset: 52,
        },
        ScanRecord {
            piece: piece_of(b"b"),
            offset: 344,
        },
    ];
    let records = scan(alloc, &put.bytes).ok().ok_or("no container")?;
    assert_eq!(rt; records.as_slice(), expected.as_slice());
    assert!(rt; is_bad(alloc, &put.bytes, 344, 308));
    Ok(())
}

// Whether the first `size` bytes are no container, from this place on.
fn is_bad(alloc: Global, bytes: &[u8], size: usize, place: u64) -> bool {
    size <= bytes.len()
        && size < 100_000
        && matches!(scan(alloc, &bytes[..size]), Err(ScanFault::NotContainer(at)) if at == place)
}

// The plan of one chunk of so many bytes, behind one container that has `used` bytes.
fn one_chunk(alloc: Global, used: u32, len: u8, fresh: bool) -> Result<Plan, Memory>
    requires { 0 < len }
{
    let bytes = [7; 255];
    let piece = Piece {
        name: Name([7; 32]),
        len: u32::from(len),
    };
    let end = ContainerEnd {
        session: 5,
        containers: 1,
        used,
    };
    plan(
        alloc,
        &[piece],
        &bytes[..len as usize],
        &[fresh],
        end,
        4_096,
    )
}

#[test]
fn room_of_a_container(rt: HostRuntime) -> Result<(), Fail> {
    let alloc = rt.alloc();
    let rows = [
        (3_960, false, 0, 3_996, 4_096),
        (3_961, true, 1, 52, 152),
        (4_294_967_295, true, 1, 52, 152),
    ];
    for (used, starts, ordinal, offset, size) in rows {
        let laid = one_chunk(alloc, used, 100, true)?;
        assert!(rt; laid.puts.len() == 1 && laid.places.len() == 1);
        assert_eq!(rt; laid.puts[0].starts, starts, "{used}");
        assert_eq!(rt; laid.puts[0].bytes.len(), if starts { 152 } else { 136 });
        let container = ContainerId {
            session: 5,
            ordinal,
        };
        assert_eq!(rt; laid.places[0], Place { container, offset });
        assert_eq!(rt; (laid.end.containers, laid.end.used), (ordinal + 1, size));
    }

    let nothing = one_chunk(alloc, 70, 100, false)?;
    assert!(rt; nothing.puts.is_empty() && nothing.places.is_empty());
    assert_eq!(rt; (nothing.end.containers, nothing.end.used), (1, 70));
    Ok(())
}

// A header, and a record that says `len` and has so many bytes.
fn one_record(alloc: Global, len: u32, size: usize) -> Result<Vec<u8>, Memory> {
    let mut text = vec![in alloc; b'S', b'S', b'C', b'1', 0, 0, 0, 5, 0, 0, 0, 6, 0, 0, 0, 0]?;
    text.extend_from_slice(&len.to_be_bytes())?;
    text.extend_from_slice(&[7; 32])?;
    for _ in 0..size {
        text.push(9)?;
    }
    Ok(text)
}

#[test]
fn bytes_that_are_no_container(rt: HostRuntime) -> Result<(), Fail> {
    let alloc = rt.alloc();
    for (len, size) in [(1, 1), (11_200, 11_200)] {
        let text = one_record(alloc, len, size)?;
        assert!(rt; text.len() < 100_000);
        let records = scan(alloc, &text).ok().ok_or("no container")?;
        assert_eq!(rt; records.len(), 1, "{len}");
        assert_eq!(rt; records[0].offset, 52);
    }
    for (len, size) in [(0, 1), (11_201, 11_201), (2, 1)] {
        let text = one_record(alloc, len, size)?;
        assert!(rt; is_bad(alloc, &text, text.len(), 16), "{len}");
    }

    let text = one_record(alloc, 1, 1)?;
    assert!(rt; is_bad(alloc, &text, 15, 0), "15 bytes");
    assert!(rt; !is_bad(alloc, &text, 16, 0), "no record");
    assert!(rt; is_bad(alloc, &text, 51, 16), "no whole name");
    Ok(())
}

#[test]
fn wrong_headers(rt: HostRuntime) -> Result<(), Fail> {
    let alloc = rt.alloc();
    for (at, byte) in [(0, b'T'), (3, b'2'), (12, 1), (15, 1)] {
        let mut wrong = one_record(alloc, 1, 1)?;
        assert!(rt; at < wrong.len());
        wrong[at] = byte;
        assert!(rt; is_bad(alloc, &wrong, 53, 0), "{at}");
    }
    Ok(())
}
