// How many containers of its own a session used, by scanning the entries.
ghost use Rattle.std.specs.Prelude.{◌≡◌, max, reverse};
ghost use Rattle.history.specs.OwnEnd.{end_of, end_among, end_used, own_end};

use crate::{Entry, Point};
use ss_base::ContainerId;

#[tactic(auto, unfolding(crate::specs::OwnEnd::end_of))]
fn end_of(session: u32, id: ContainerId) -> u64
    ensures { result ≡ end_of session id }
{
    if id.session == session {
        u64::from(id.ordinal) + 1
    } else {
        0
    }
}

fn larger(a: u64, b: u64) -> u64
    ensures { result ≡ max a b }
{
    if a < b { b } else { a }
}

fn end_among(session: u32, uses: &[ContainerId]) -> u64
    ensures { result ≡ end_among session uses.now }
{
    let mut end = 0;
    for id in uses {
        end = larger(end, end_of(session, *id));
    }
    end
}

#[tactic(auto, unfolding(crate::specs::OwnEnd::end_used))]
fn end_used(session: u32, point: &Point) -> u64
    ensures { result ≡ end_used session point.now }
{
    match point {
        Point::Commit { manifest, uses, .. } if manifest.session == session => {
            end_among(session, uses.as_slice())
        }
        _ => 0,
    }
}

/// The least number of containers that is above each own ordinal that the session used, 0 where it used none. Its
/// Finish or Abort names at least so many.
pub fn own_end(entries: &[Entry], session: u32) -> u64
    ensures { result ≡ own_end session (reverse entries.now) }
{
    let mut end = 0;
    for entry in entries {
        end = larger(end, end_used(session, &entry.point));
    }
    end
}
