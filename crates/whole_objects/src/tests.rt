use super::*;
use std::test::Fail;

// The laws run nothing.
#[test]
fn each_law_is_called(_rt: HostRuntime) -> Result<(), Fail> {
    stays_whole_where_wanted_is_kept();
    stays_whole_behind_entries();
    stays_whole_without_reclaimed();
    whole_behind_a_commit();
    puts_are_laid_out();
    Ok(())
}
