//! The calls of a job for one of many callers of a store. A lane's calls take a pass and give it back; a job's tokens
//! hold it in between. So a job that is written over the calls of a caller runs beside others.
#![tactic(auto)]

mod calls;
mod lane;
mod readings;
mod sessions;
mod tokens;

pub use calls::SharedCalls;
pub use lane::Lane;
pub use tokens::{ChosenPass, IdlePass, ObjectName, OpenPass, PassCalls, ReadingPass, Started};
