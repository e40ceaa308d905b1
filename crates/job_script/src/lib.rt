//! The script of a run: its jobs as values, and the grammar that tells them.
#![tactic(auto)]

mod fault;
mod job;
mod laws;
mod lines;
mod parsing;
mod path_text;
mod reading;
mod words;

pub use fault::ScriptFault;
pub use job::{Job, JobKind};
pub use laws::one_answer;
pub use parsing::parse;
pub use path_text::PathText;

#[cfg(test)]
mod tests;
