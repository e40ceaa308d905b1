use super::*;
use std::collections::HashMap;
use std::hash::{BuildHasherDefault, Hasher};
use std::test::Fail;

// The expected states are those of a Python program that takes the published step, word by word.
#[test]
fn states_by_the_published_step(rt: HostRuntime) -> Result<(), Fail> {
    let rows: [(&[u64], u64); 6] = [
        (&[], 0),
        (&[1], 0x517c_c1b7_2722_0a95),
        (&[1, 2], 0x6a4b_e67f_f98f_abc8),
        (&[0, 3, 5], 0x3359_f8a5_6215_2317),
        (&[7, 0xffff_ffff], 0xc44f_8440_8374_4978),
        (&[0xffff_ffff_ffff_ffff], 0xae83_3e48_d8dd_f56b),
    ];
    for (words, expected) in rows {
        let mut hasher = FxHasher::default();
        for word in words {
            hasher.write_u64(*word);
        }
        assert_eq!(rt; hasher.finish(), expected);
    }
    Ok(())
}

#[test]
fn each_kind_of_number(rt: HostRuntime) -> Result<(), Fail> {
    let mut hasher = FxHasher::default();
    hasher.write_isize(1);
    hasher.write_u32(3);
    hasher.write_u8(5);
    hasher.write_usize(2);
    assert_eq!(rt; hasher.finish(), 0xd02e_c3fa_de2d_33be);
    Ok(())
}

// The words are the bytes' numbers, eight bytes at a time, the lowest first.
#[test]
fn bytes(rt: HostRuntime) -> Result<(), Fail> {
    let rows: [(&[u8], u64); 5] = [
        (b"", 0),
        (b"foobar", 0xa7b4_f535_fac1_d25e),
        (b"eight by", 0x210c_8ad2_30b8_49c9),
        (b"nine byte", 0x1bbf_15d8_07be_7c9e),
        (b"a hash of many bytes", 0x38cc_4858_ea76_edc2),
    ];
    for (bytes, expected) in rows {
        let mut hasher = FxHasher::default();
        hasher.write(bytes);
        assert_eq!(rt; hasher.finish(), expected);
    }
    Ok(())
}

#[test]
fn a_map(rt: HostRuntime) -> Result<(), Fail> {
    let mut map: FxMap<u32, u32> = HashMap::with_hasher(rt.alloc(), BuildHasherDefault::new());
    for key in 0..100 {
        map.insert(key, 2 * key)?;
    }
    assert_eq!(rt; map.get(&7).copied(), Some(14));
    assert_eq!(rt; map.get(&100).copied(), None);
    Ok(())
}
