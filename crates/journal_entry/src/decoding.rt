// Reading an entry. Each kind has a function, which takes the bytes behind that of the kind.
ghost use Rattle.std.specs.Prelude.{ℕ, IfOk, IfSome, IfNone};
ghost use Rattle.journal_entry.specs.declared.entry.Entry.{Entry};
ghost use Rattle.journal_entry.specs.Bounds.{Begins};
ghost use Rattle.journal_entry.specs.Reading.{Gives, begin_at, choose_at, commit_at, finish_at, abort_at, delete_at, look_at, done_at, reclaim_at, stat_at, point_at, entry_at};

use crate::fault::ReadError;
use crate::reading::{
    digest_at, long_list_at, manifest_at, read_fields, reply_at, short_list_at, stream_name_at,
    totals_at, u32_at,
};
use crate::{Entry, Point, are_counts};
use ss_base::Memory;
use std::alloc::Global;

/// The entry that begins the bytes, and the length of its text in bytes. `None` comes exactly where no entry's
/// text begins them.
pub fn decode_entry(alloc: Global, bytes: &[u8]) -> Result<Option<(Entry, usize)>, Memory>
    ensures found { IfOk result (λ answer. IfSome answer (λ found. Begins found.0 found.1 bytes.now)) }
    ensures none { IfOk result (λ answer. IfNone answer ((e : Entry) (n : ℕ) → Begins e n bytes.now → ⊥)) }
{
    match entry_at(alloc, bytes) {
        Ok((entry, rest)) => Ok(Some((entry, bytes.len() - rest.len()))),
        Err(ReadError::NotEntry) => Ok(None),
        Err(ReadError::Memory) => Err(Memory),
    }
}

const MAX_HOOKS: u16 = 4_096;

const MAX_CHAMPIONS: u8 = 255;

const MAX_USES: u16 = 4_096;

const MAX_OBJECTS: u8 = 16;

#[tactic(auto, unfolding(crate::specs::Reading::entry_at))]
fn entry_at(alloc: Global, rest: &[u8]) -> Result<(Entry, &[u8]), ReadError>
    ensures { Gives (λ x. (x.0, x.1.now)) result (entry_at rest.now) }
{
    read_fields!(rest;
        author: u32_at();
        point: point_at(alloc);
    );
    Ok((Entry { author, point }, rest))
}

#[tactic(auto, unfolding(crate::specs::Reading::point_at, crate::specs::Reading::byte_at, crate::specs::Reading::fields_at))]
fn point_at(alloc: Global, bytes: &[u8]) -> Result<(Point, &[u8]), ReadError>
    ensures { Gives (λ x. (x.0, x.1.now)) result (point_at bytes.now) }
{
    match bytes {
        [1, rest @ ..] => begin_at(rest),
        [2, rest @ ..] => choose_at(alloc, rest),
        [3, rest @ ..] => commit_at(alloc, rest),
        [4, rest @ ..] => finish_at(rest),
        [5, rest @ ..] => abort_at(rest),
        [6, rest @ ..] => delete_at(rest),
        [7, rest @ ..] => look_at(rest),
        [8, rest @ ..] => done_at(rest),
        [9, rest @ ..] => reclaim_at(alloc, rest),
        [10, rest @ ..] => stat_at(rest),
        _ => Err(ReadError::NotEntry),
    }
}

#[tactic(auto, unfolding(crate::specs::Reading::begin_at))]
fn begin_at(rest: &[u8]) -> Result<(Point, &[u8]), ReadError>
    ensures { Gives (λ x. (x.0, x.1.now)) result (begin_at rest.now) }
{
    read_fields!(rest;
        name: stream_name_at();
        session: reply_at();
    );
    Ok((Point::Begin { name, session }, rest))
}

#[tactic(auto, unfolding(crate::specs::Reading::choose_at))]
fn choose_at(alloc: Global, rest: &[u8]) -> Result<(Point, &[u8]), ReadError>
    ensures { Gives (λ x. (x.0, x.1.now)) result (choose_at rest.now) }
{
    read_fields!(rest;
        session: u32_at();
        hooks: long_list_at(alloc, MAX_HOOKS);
        champions: short_list_at(alloc, MAX_CHAMPIONS);
    );
    let point = Point::Choose {
        session,
        hooks,
        champions,
    };
    Ok((point, rest))
}

#[tactic(auto, unfolding(crate::specs::Reading::commit_at))]
fn commit_at(alloc: Global, rest: &[u8]) -> Result<(Point, &[u8]), ReadError>
    ensures { Gives (λ x. (x.0, x.1.now)) result (commit_at rest.now) }
{
    read_fields!(rest;
        manifest: manifest_at();
        content: digest_at();
        text: digest_at();
        chunks: u32_at();
        bytes: u32_at();
        fresh: u32_at();
        fresh_bytes: u32_at();
        uses: long_list_at(alloc, MAX_USES);
    );
    if !are_counts(chunks, bytes, fresh, fresh_bytes) {
        return Err(ReadError::NotEntry);
    }
    let point = Point::Commit {
        manifest,
        content,
        text,
        chunks,
        bytes,
        fresh,
        fresh_bytes,
        uses,
    };
    Ok((point, rest))
}

#[tactic(auto, unfolding(crate::specs::Reading::finish_at))]
fn finish_at(rest: &[u8]) -> Result<(Point, &[u8]), ReadError>
    ensures { Gives (λ x. (x.0, x.1.now)) result (finish_at rest.now) }
{
    read_fields!(rest;
        session: u32_at();
        containers: u32_at();
    );
    let point = Point::Finish {
        session,
        containers,
    };
    Ok((point, rest))
}

#[tactic(auto, unfolding(crate::specs::Reading::abort_at))]
fn abort_at(rest: &[u8]) -> Result<(Point, &[u8]), ReadError>
    ensures { Gives (λ x. (x.0, x.1.now)) result (abort_at rest.now) }
{
    read_fields!(rest;
        session: u32_at();
        containers: u32_at();
        texts: u32_at();
    );
    let point = Point::Abort {
        session,
        containers,
        texts,
    };
    Ok((point, rest))
}

#[tactic(auto, unfolding(crate::specs::Reading::delete_at))]
fn delete_at(rest: &[u8]) -> Result<(Point, &[u8]), ReadError>
    ensures { Gives (λ x. (x.0, x.1.now)) result (delete_at rest.now) }
{
    read_fields!(rest;
        name: stream_name_at();
        session: reply_at();
    );
    Ok((Point::Delete { name, session }, rest))
}

#[tactic(auto, unfolding(crate::specs::Reading::look_at))]
fn look_at(rest: &[u8]) -> Result<(Point, &[u8]), ReadError>
    ensures { Gives (λ x. (x.0, x.1.now)) result (look_at rest.now) }
{
    read_fields!(rest;
        name: stream_name_at();
        seen: reply_at();
    );
    Ok((Point::Look { name, seen }, rest))
}

#[tactic(auto, unfolding(crate::specs::Reading::done_at))]
fn done_at(rest: &[u8]) -> Result<(Point, &[u8]), ReadError>
    ensures { Gives (λ x. (x.0, x.1.now)) result (done_at rest.now) }
{
    read_fields!(rest;
        reader: u32_at();
    );
    Ok((Point::Done { reader }, rest))
}

#[tactic(auto, unfolding(crate::specs::Reading::reclaim_at))]
fn reclaim_at(alloc: Global, rest: &[u8]) -> Result<(Point, &[u8]), ReadError>
    ensures { Gives (λ x. (x.0, x.1.now)) result (reclaim_at rest.now) }
{
    read_fields!(rest;
        objects: short_list_at(alloc, MAX_OBJECTS);
    );
    Ok((Point::Reclaim { objects }, rest))
}

#[tactic(auto, unfolding(crate::specs::Reading::stat_at))]
fn stat_at(rest: &[u8]) -> Result<(Point, &[u8]), ReadError>
    ensures { Gives (λ x. (x.0, x.1.now)) result (stat_at rest.now) }
{
    read_fields!(rest;
        totals: totals_at();
    );
    Ok((Point::Stat { totals }, rest))
}
