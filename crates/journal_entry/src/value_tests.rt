// Lists, and the numbers of entries.
use crate::{Items, Point, are_counts, one_reading, point_weight};
use ss_base::{ContainerId, ManifestId, Name};
use std::test::Fail;

#[test]
fn lists_and_the_law(rt: HostRuntime) -> Result<(), Fail> {
    let alloc = rt.alloc();
    let items = Items::new(Vec::from_array(alloc, [1u8, 2])?);
    assert!(rt; items == Items::new(Vec::from_array(alloc, [1, 2])?));
    assert!(rt; items != Items::new(Vec::from_array(alloc, [2, 1])?));
    assert_eq!(rt; items.into_vec().as_slice(), [1, 2].as_slice());
    one_reading();
    Ok(())
}

#[test]
fn weights(rt: HostRuntime) -> Result<(), Fail> {
    let alloc = rt.alloc();
    let id = ContainerId {
        session: 0,
        ordinal: 0,
    };
    let choose = Point::Choose {
        session: 0,
        hooks: Items::new(Vec::from_array(alloc, [Name([0; 32]), Name([1; 32])])?),
        champions: Items::new(Vec::from_array(alloc, [ManifestId { session: 0, seq: 0 }])?),
    };
    assert_eq!(rt; point_weight(&choose), 2);
    let commit = Point::Commit {
        manifest: ManifestId { session: 0, seq: 0 },
        content: Name([2; 32]),
        text: Name([3; 32]),
        chunks: 1,
        bytes: 1,
        fresh: 1,
        fresh_bytes: 1,
        uses: Items::new(Vec::from_array(alloc, [id; 3])?),
    };
    assert_eq!(rt; point_weight(&commit), 3);
    assert_eq!(rt; point_weight(&Point::Done { reader: 7 }), 0);
    Ok(())
}

// Chunks, bytes, fresh chunks and fresh bytes.
fn counts() -> [([u32; 4], bool); 8] {
    [
        ([1, 1, 0, 0], true),
        ([4096, 45_875_200, 4096, 45_875_200], true),
        ([0, 1, 0, 0], false),
        ([4097, 4097, 0, 0], false),
        ([2, 1, 0, 0], false),
        ([4096, 45_875_201, 0, 0], false),
        ([2, 3, 3, 3], false),
        ([2, 3, 2, 4], false),
    ]
}

#[test]
fn numbers_of_a_commit(rt: HostRuntime) -> Result<(), Fail> {
    for ([chunks, bytes, fresh, fresh_bytes], are) in counts() {
        assert_eq!(rt; are_counts(chunks, bytes, fresh, fresh_bytes), are);
    }
    Ok(())
}
