// What a Begin and a Look record of the names that they ask for.
ghost use Rattle.std.specs.Prelude.{◌≡◌, ◌<◌, ◌^◌, length, reverse};
ghost use Rattle.history.specs.Legal.{reply_to_begin, reply_to_look};

use crate::reading_scan::reading_count;
use crate::session_scan::{is_held, retained, session_count};
use crate::{Entry, Seen};
use ss_base::StreamName;

/// What a Begin for the name records after these entries: `None` exactly where the name is held, else the session's
/// number, which is how many sessions began. The entries are fewer than 2^32.
#[tactic(auto, unfolding(crate::specs::Legal::reply_to_begin))]
pub fn reply_to_begin(entries: &[Entry], name: &StreamName) -> Option<u32>
    requires { length entries.now < 2 ^ 32 }
    ensures { result ≡ reply_to_begin name.now (reverse entries.now) }
{
    if is_held(entries, name) {
        None
    } else {
        Some(session_count(entries) as u32)
    }
}

/// What a Look for the name records after these entries: `None` exactly where no stream is retained under it, else the
/// stream's session, and the reader's number, which is how many readings began. The entries are fewer than 2^32.
#[tactic(auto, unfolding(crate::specs::Legal::reply_to_look))]
pub fn reply_to_look(entries: &[Entry], name: &StreamName) -> Option<Seen>
    requires { length entries.now < 2 ^ 32 }
    ensures { result ≡ reply_to_look name.now (reverse entries.now) }
{
    match retained(entries, name) {
        Some(session) => {
            let reader = reading_count(entries) as u32;
            Some(Seen { reader, session })
        }
        None => None,
    }
}
