use super::*;
use std::test::Fail;

// The laws run nothing.
#[test]
fn each_law_is_called(_rt: HostRuntime) -> Result<(), Fail> {
    restored_by_a_run();
    fronts_by_a_run();
    objects_of_a_run();
    streams_of_a_run();
    written_by_a_run();
    erased_by_a_run();
    stores_stay_whole();
    live_stays_whole_unkept();
    closed_by_a_run();
    restores_are_answered();
    backups_are_answered();
    deletes_are_answered();
    reclaims_are_answered();
    stats_are_answered();
    runs_are_answered();
    Ok(())
}
