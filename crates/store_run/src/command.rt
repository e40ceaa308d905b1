// The words of a run.
ghost use Rattle.std.specs.Prelude.{◌≡◌, ◌≢◌, false, IsSome, IfSome, IfNone};
ghost use Rattle.store_run.specs.Command.{profile_word, texts, words_of, IsCommand, begins_with_dash, has_dash, IsUsage};
ghost use Rattle.ss_base.specs.declared.profile.Profile.{Profile};

use job_script::{JobKind, PathText};
use ss_base::{Profile, StreamName};

/// What the words after the program's name ask for.
#[derive(Clone, Copy, Debug, PartialEq, Eq)]
pub enum Command {
    /// `names P`: one line for each chunk of the source.
    Names(Profile),
    /// `segments P`: one line for each segment of the source.
    Segments(Profile),
    /// `init P`: makes a store.
    Init(Profile),
    /// `journal`: one line for each entry of a store's history.
    Journal,
    /// `backup FILE NAME`, `restore NAME FILE`, `delete NAME`, `reclaim`, `stat`: does that job.
    Job(JobKind),
}

/// The command with these words. `None` comes exactly where no command has them, or one of them begins with `-`.
pub fn command_of(words: &[String]) -> Option<Command>
    ensures found { IfSome result (λ command. texts words.now ≡ words_of command) }
    ensures within { IfSome result IsCommand }
    ensures plain { IsSome result → has_dash (texts words.now) ≡ false }
    ensures none { IfNone result (IsUsage words.now) }
{
    if any_begins_with_dash(words) {
        return None;
    }
    match words {
        [verb] => match verb.as_str() {
            "journal" => Some(Command::Journal),
            "reclaim" => Some(Command::Job(JobKind::Reclaim)),
            "stat" => Some(Command::Job(JobKind::Stat)),
            _ => None,
        },
        [verb, word] => match verb.as_str() {
            "names" => Some(Command::Names(profile_of(word.as_str())?)),
            "segments" => Some(Command::Segments(profile_of(word.as_str())?)),
            "init" => Some(Command::Init(profile_of(word.as_str())?)),
            "delete" => Some(Command::Job(JobKind::Delete {
                name: StreamName::new(word.as_bytes())?,
            })),
            _ => None,
        },
        [verb, first, second] => match verb.as_str() {
            "backup" => Some(Command::Job(JobKind::Backup {
                input: PathText::new(first.as_bytes())?,
                name: StreamName::new(second.as_bytes())?,
            })),
            "restore" => Some(Command::Job(JobKind::Restore {
                name: StreamName::new(first.as_bytes())?,
                output: PathText::new(second.as_bytes())?,
            })),
            _ => None,
        },
        _ => None,
    }
}

// Whether one of the words begins with `-`.
fn any_begins_with_dash(words: &[String]) -> bool
    ensures { result ≡ has_dash (texts words.now) }
{
    let mut rest = words;
    while let Some((word, behind)) = rest.split_first() {
        if begins_with_dash(word.as_bytes()) {
            return true;
        }
        rest = behind;
    }
    false
}

fn begins_with_dash(word: &[u8]) -> bool
    ensures { result ≡ begins_with_dash word.now }
{
    match word {
        [b'-', ..] => true,
        _ => false,
    }
}

fn profile_of(word: &str) -> Option<Profile>
    ensures found { IfSome result (λ profile. word.now ≡ profile_word profile) }
    ensures none { IfNone result ((profile : Profile) → word.now ≢ profile_word profile) }
{
    match word {
        "tiny" => Some(Profile::Tiny),
        "small" => Some(Profile::Small),
        "large" => Some(Profile::Large),
        _ => None,
    }
}
