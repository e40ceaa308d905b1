// Reading the fields of an entry: each function takes one from the front and gives the bytes after it.
ghost use Rattle.std.specs.Prelude.{◌≡◌, length, IfOk};
ghost use Rattle.std.specs.Int.{w16, w32, w64};
ghost use Rattle.journal_entry.specs.Reading.{Gives, byte_at, number_at, bytes_at, items_at, list_at, reply_at, digest_at, stream_name_at, manifest_at, container_at, object_at, seen_at, totals_at};

use crate::fault::ReadError;
use crate::item::Item;
use crate::items::Items;
use crate::{Seen, Totals};
use ss_base::{ContainerId, ManifestId, Name, Object, StreamName};
use std::alloc::Global;

// Reads fields one after another, a line for each: its name, and the function that reads it. A `match` stands
// for `?`, which has no proof where the value holds a stream's name beside a slice.
macro_rules! read_fields {
    ($rest:ident; $($field:ident: $read:ident($($arg:expr),*);)+) => {
        $(
            let ($field, $rest) = match $read($($arg,)* $rest) {
                Ok(field) => field,
                Err(e) => return Err(e),
            };
        )+
    };
}

pub(crate) use read_fields;

#[tactic(auto, unfolding(crate::specs::Reading::byte_at))]
pub(crate) fn byte_at(bytes: &[u8]) -> Result<(u8, &[u8]), ReadError>
    ensures { Gives (λ x. (x.0, x.1.now)) result (byte_at bytes.now) }
{
    match bytes {
        [] => Err(ReadError::NotEntry),
        [byte, rest @ ..] => Ok((*byte, rest)),
    }
}

#[tactic(auto, unfolding(crate::specs::Reading::number_at))]
pub(crate) fn u16_at(bytes: &[u8]) -> Result<(u16, &[u8]), ReadError>
    ensures { Gives (λ x. (x.0, x.1.now)) result (number_at w16 bytes.now) }
{
    if bytes.len() < 2 {
        return Err(ReadError::NotEntry);
    }
    let (front, rest) = bytes.split_at(2);
    Ok((u16::from_be_bytes([front[0], front[1]]), rest))
}

#[tactic(auto, unfolding(crate::specs::Reading::number_at))]
pub(crate) fn u32_at(bytes: &[u8]) -> Result<(u32, &[u8]), ReadError>
    ensures { Gives (λ x. (x.0, x.1.now)) result (number_at w32 bytes.now) }
{
    if bytes.len() < 4 {
        return Err(ReadError::NotEntry);
    }
    let (front, rest) = bytes.split_at(4);
    let number = u32::from_be_bytes([front[0], front[1], front[2], front[3]]);
    Ok((number, rest))
}

#[tactic(auto, unfolding(crate::specs::Reading::number_at))]
pub(crate) fn u64_at(bytes: &[u8]) -> Result<(u64, &[u8]), ReadError>
    ensures { Gives (λ x. (x.0, x.1.now)) result (number_at w64 bytes.now) }
{
    if bytes.len() < 8 {
        return Err(ReadError::NotEntry);
    }
    let (front, rest) = bytes.split_at(8);
    let number = u64::from_be_bytes([
        front[0], front[1], front[2], front[3], front[4], front[5], front[6], front[7],
    ]);
    Ok((number, rest))
}

#[tactic(auto, unfolding(crate::specs::Reading::bytes_at))]
pub(crate) fn bytes_at(len: usize, bytes: &[u8]) -> Result<(&[u8], &[u8]), ReadError>
    ensures read { Gives (λ x. (x.0.now, x.1.now)) result (bytes_at len bytes.now) }
    ensures len { IfOk result (λ x. length x.0.now ≡ len) }
{
    if bytes.len() < len {
        return Err(ReadError::NotEntry);
    }
    Ok(bytes.split_at(len))
}

#[tactic(auto, unfolding(crate::specs::Reading::digest_at))]
pub(crate) fn digest_at(bytes: &[u8]) -> Result<(Name, &[u8]), ReadError>
    ensures { Gives (λ x. (x.0, x.1.now)) result (digest_at bytes.now) }
{
    let (front, rest) = bytes_at(32, bytes)?;
    let mut digest = [0; 32];
    digest.copy_from_slice(front);
    Ok((Name(digest), rest))
}

#[tactic(auto, unfolding(crate::specs::Reading::stream_name_at))]
pub(crate) fn stream_name_at(bytes: &[u8]) -> Result<(StreamName, &[u8]), ReadError>
    ensures { Gives (λ x. (x.0, x.1.now)) result (stream_name_at bytes.now) }
{
    let (len, rest) = byte_at(bytes)?;
    let (text, rest) = bytes_at(len as usize, rest)?;
    match StreamName::new(text) {
        Some(name) => Ok((name, rest)),
        None => Err(ReadError::NotEntry),
    }
}

#[tactic(auto, unfolding(crate::specs::Reading::manifest_at))]
pub(crate) fn manifest_at(rest: &[u8]) -> Result<(ManifestId, &[u8]), ReadError>
    ensures { Gives (λ x. (x.0, x.1.now)) result (manifest_at rest.now) }
{
    read_fields!(rest;
        session: u32_at();
        seq: u32_at();
    );
    Ok((ManifestId { session, seq }, rest))
}

#[tactic(auto, unfolding(crate::specs::Reading::container_at))]
pub(crate) fn container_at(rest: &[u8]) -> Result<(ContainerId, &[u8]), ReadError>
    ensures { Gives (λ x. (x.0, x.1.now)) result (container_at rest.now) }
{
    read_fields!(rest;
        session: u32_at();
        ordinal: u32_at();
    );
    Ok((ContainerId { session, ordinal }, rest))
}

#[tactic(auto, unfolding(crate::specs::Reading::object_at))]
pub(crate) fn object_at(bytes: &[u8]) -> Result<(Object, &[u8]), ReadError>
    ensures { Gives (λ x. (x.0, x.1.now)) result (object_at bytes.now) }
{
    match bytes {
        [1, rest @ ..] => {
            let (id, rest) = container_at(rest)?;
            Ok((Object::Container(id), rest))
        }
        [2, rest @ ..] => {
            let (id, rest) = manifest_at(rest)?;
            Ok((Object::Manifest(id), rest))
        }
        _ => Err(ReadError::NotEntry),
    }
}

#[tactic(auto, unfolding(crate::specs::Reading::seen_at))]
pub(crate) fn seen_at(rest: &[u8]) -> Result<(Seen, &[u8]), ReadError>
    ensures { Gives (λ x. (x.0, x.1.now)) result (seen_at rest.now) }
{
    read_fields!(rest;
        reader: u32_at();
        session: u32_at();
    );
    Ok((Seen { reader, session }, rest))
}

#[tactic(auto, unfolding(crate::specs::Reading::totals_at))]
pub(crate) fn totals_at(rest: &[u8]) -> Result<(Totals, &[u8]), ReadError>
    ensures { Gives (λ x. (x.0, x.1.now)) result (totals_at rest.now) }
{
    read_fields!(rest;
        streams: u64_at();
        bytes: u64_at();
        fresh: u64_at();
        containers: u64_at();
        reclaimed: u64_at();
        entries: u64_at();
    );
    let totals = Totals {
        streams,
        bytes,
        fresh,
        containers,
        reclaimed,
        entries,
    };
    Ok((totals, rest))
}

/// 0, or 1 and the value.
#[tactic(auto, unfolding(crate::specs::Reading::reply_at))]
pub(crate) fn reply_at<T: Item>(bytes: &[u8]) -> Result<(Option<T>, &[u8]), ReadError>
    ensures { Gives (λ x. (x.0, x.1.now)) result (reply_at T.item_at bytes.now) }
{
    match bytes {
        [0, after @ ..] => Ok((None, after)),
        [1, after @ ..] => {
            let (value, rest) = T::read(after)?;
            Ok((Some(value), rest))
        }
        _ => Err(ReadError::NotEntry),
    }
}

fn items_at<T: Item>(
    alloc: Global,
    count: usize,
    bytes: &[u8],
) -> Result<(Items<T>, &[u8]), ReadError>
    ensures { Gives (λ x. (x.0, x.1.now)) result (items_at T.item_at count bytes.now) }
{
    let mut items = Vec::with_capacity(alloc, count)?;
    let mut rest = bytes;
    for _ in 0..count {
        let (item, after) = T::read(rest)?;
        items.push(item)?;
        rest = after;
    }
    Ok((Items::new(items), rest))
}

/// A list whose length has two bytes.
#[tactic(auto, unfolding(crate::specs::Reading::list_at))]
pub(crate) fn long_list_at<T: Item>(
    alloc: Global,
    most: u16,
    bytes: &[u8],
) -> Result<(Items<T>, &[u8]), ReadError>
    ensures { Gives (λ x. (x.0, x.1.now)) result (list_at (number_at w16) most T.item_at bytes.now) }
{
    let (count, rest) = u16_at(bytes)?;
    if count > most {
        return Err(ReadError::NotEntry);
    }
    items_at(alloc, count as usize, rest)
}

/// A list whose length has one byte.
#[tactic(auto, unfolding(crate::specs::Reading::list_at))]
pub(crate) fn short_list_at<T: Item>(
    alloc: Global,
    most: u8,
    bytes: &[u8],
) -> Result<(Items<T>, &[u8]), ReadError>
    ensures { Gives (λ x. (x.0, x.1.now)) result (list_at byte_at most T.item_at bytes.now) }
{
    let (count, rest) = byte_at(bytes)?;
    if count > most {
        return Err(ReadError::NotEntry);
    }
    items_at(alloc, count as usize, rest)
}
