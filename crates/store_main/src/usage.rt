// What a run's command does with the store.

use store_edge::Use;
use store_run::{Command, command_of};

pub(crate) fn use_of(words: &[String]) -> Use {
    match command_of(words) {
        None | Some(Command::Names(_)) | Some(Command::Segments(_)) => Use::Nothing,
        Some(Command::Journal) => Use::Reads,
        Some(Command::Init(_)) | Some(Command::Job(_)) => Use::Writes,
    }
}
