use super::*;
use std::test::Fail;

#[test]
fn object_names(rt: HostRuntime) -> Result<(), Fail> {
    let alloc = rt.alloc();
    let container = Object::Container(ContainerId {
        session: 0,
        ordinal: 4_294_967_295,
    });
    let manifest = Object::Manifest(ManifestId {
        session: 10,
        seq: 0,
    });
    assert_eq!(rt; object_name(alloc, &container)?.as_str(), "c-0-4294967295");
    assert_eq!(rt; object_name(alloc, &manifest)?.as_str(), "m-10-0");
    assert!(rt; container < manifest);
    Ok(())
}

#[test]
fn stream_names(rt: HostRuntime) -> Result<(), Fail> {
    let longest = [b'z'; 64];
    let accepted: [&[u8]; 3] = [b"a", b"Z.9_-", &longest];
    for text in accepted {
        let name = StreamName::new(text).ok_or("refused")?;
        assert_eq!(rt; name.bytes(), text);
    }
    let too_long = [b'z'; 65];
    let refused: [&[u8]; 5] = [b"", b"a b", b"a/b", b"\x80", &too_long];
    for text in refused {
        assert!(rt; !is_stream_name(text));
        assert!(rt; StreamName::new(text).is_none());
    }
    assert!(rt; StreamName::new(b"a").ok_or("refused")? < StreamName::new(b"a.").ok_or("refused")?);
    Ok(())
}

#[test]
fn numbers_of_the_profiles(rt: HostRuntime) {
    let rows = [
        (Profile::Tiny, 64, 256, 8, 1),
        (Profile::Small, 460, 2_800, 1_024, 4),
        (Profile::Large, 1_840, 11_200, 4_096, 6),
    ];
    for (profile, tmin, tmax, smax, bits) in rows {
        let numbers = profile.numbers();
        assert_eq!(rt; numbers.tmin, tmin);
        assert_eq!(rt; numbers.tmax, tmax);
        assert_eq!(rt; numbers.smax, smax);
        assert_eq!(rt; numbers.bits, bits);
    }
}
