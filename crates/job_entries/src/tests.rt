use super::*;
use std::marker::Brand;
use std::test::Fail;

// The laws run nothing.
#[test]
fn each_law_is_called(_rt: HostRuntime) -> Result<(), Fail> {
    entries_of_one_caller::<Brand>();
    entries_of_a_call::<Brand>();
    entries_beside_more::<Brand, Brand>();
    entries_of_a_backup::<Brand>();
    segments_of_a_backup::<Brand>();
    segments_of_an_input();
    entries_of_a_restore::<Brand>();
    Ok(())
}
