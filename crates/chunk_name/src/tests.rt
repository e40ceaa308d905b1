use super::*;
use std::test::Fail;

// Vectors of FIPS 180-4 and, for 256 zero bytes, of another program.
#[test]
fn names_in_digits(rt: HostRuntime) -> Result<(), Fail> {
    let alloc = rt.alloc();
    let zeros = [0; 256];
    let rows: [(&[u8], &str); 3] = [
        (
            b"",
            "e3b0c44298fc1c149afbf4c8996fb92427ae41e4649b934ca495991b7852b855",
        ),
        (
            b"abc",
            "ba7816bf8f01cfea414140de5dae2223b00361a396177a9cb410ff61f20015ad",
        ),
        (
            &zeros,
            "5341e6b2646979a70e57653007a1f310169421ec9bdd9f1a5648f75ade005af1",
        ),
    ];
    for (bytes, digits) in rows.iter() {
        let name = name_of(bytes);
        assert_eq!(rt; hex_of(alloc, &name)?.as_str(), *digits);
    }
    let piece = piece_of(&zeros);
    assert_eq!(rt; piece.len, 256);
    assert_eq!(rt; piece.name, name_of(&zeros));
    Ok(())
}
