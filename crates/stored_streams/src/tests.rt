use super::*;
use chunk_name::name_of;
use std::test::Fail;

// The laws run nothing.
#[test]
fn each_law_is_called(_rt: HostRuntime) -> Result<(), Fail> {
    stores_what_was_loaded();
    stays_of_streams();
    is_of_its_sessions_alone();
    new_objects_are_absent();
    stored_can_be_shown();
    stays_whole_beside_new_objects();
    Ok(())
}

// SHA-256 of the byte "b" begins 3e23e816 (FIPS 180-4), so that a stream of this byte is one chunk whose name is a hook
// where a hook has one zero bit.
#[test]
fn a_byte_is_a_hook(rt: HostRuntime) -> Result<(), Fail> {
    let [a, b, c, d, ..] = name_of(b"b").0;
    assert_eq!(rt; u32::from_be_bytes([a, b, c, d]), 0x3e23_e816);
    Ok(())
}
