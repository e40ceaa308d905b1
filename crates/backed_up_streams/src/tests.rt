use super::*;
use std::test::Fail;

// The laws run nothing.
#[test]
fn each_law_is_called(_rt: HostRuntime) -> Result<(), Fail> {
    contents_of_a_backup();
    loads_of_a_backup();
    streams_of_a_backup();
    whole_of_a_backup();
    objects_of_a_backup();
    whole_depots_show_no_damage();
    written_by_a_backup();
    collisions_stay();
    Ok(())
}
