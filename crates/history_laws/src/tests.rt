use super::*;
use std::test::Fail;

// The laws run nothing.
#[test]
fn each_law_is_called(_rt: HostRuntime) -> Result<(), Fail> {
    legal_prefix();
    entries_within_bounds();
    one_retained();
    own_end_is_least();
    what_stands();
    never_live_again();
    never_needed_again();
    never_wanted_again();
    reclaimed_once();
    numbers_tell();
    pending_is_live();
    begun_once();
    ends_fit();
    other_sessions_stay();
    other_readings_stay();
    Ok(())
}
