// Writing the fields of an entry: each function puts one at the end.
ghost use Rattle.std.specs.Prelude.{◌≡◌, ◌<◌, ◌^◌, ◌++◌, ◌∷◌, [], length, IfSome, OnOk};
ghost use Rattle.std.specs.List.{flat_map, AllByRecursion};
ghost use Rattle.std.specs.Int.{w16, w32, w64};
ghost use Rattle.journal_entry.specs.EntryText.{number_text, byte_text, digest_text, stream_name_text, manifest_text, container_text, object_text, reply_text, list_text, seen_text, totals_text};
ghost use Rattle.journal_entry.specs.Bounds.{IsDigest, FitsManifest, FitsContainer, FitsObject, FitsSeen, FitTotals};
ghost use Rattle.ss_base.specs.StreamName.{IsStreamName};

use crate::item::Item;
use crate::items::Items;
use crate::{Seen, Totals};
use ss_base::{ContainerId, ManifestId, Name, Object, StreamName};
use std::alloc::AllocError;

// Writes fields one after another, a line for each: where it stands, and the function that writes it.
macro_rules! put_fields {
    ($out:ident; $($field:expr => $put:ident;)+) => {{
        $($put($out, $field)?;)+
        Ok(())
    }};
}

pub(crate) use put_fields;

pub(crate) fn put_byte(out: &mut Vec<u8>, byte: u8) -> Result<(), AllocError>
    ensures { OnOk result (out.new.items ≡ out.old.items ++ byte ∷ []) }
{
    out.push(byte)?;
    Ok(())
}

#[tactic(auto, unfolding(crate::specs::EntryText::number_text))]
fn put_u16(out: &mut Vec<u8>, n: u16) -> Result<(), AllocError>
    ensures { OnOk result (out.new.items ≡ out.old.items ++ number_text w16 n) }
{
    out.extend_from_slice(&n.to_be_bytes())
}

#[tactic(auto, unfolding(crate::specs::EntryText::number_text))]
pub(crate) fn put_u32(out: &mut Vec<u8>, n: &u32) -> Result<(), AllocError>
    ensures text { OnOk result (out.new.items ≡ out.old.items ++ number_text w32 n.now) }
    ensures fits { OnOk result (n.now < 2 ^ 32) }
{
    out.extend_from_slice(&n.to_be_bytes())
}

#[tactic(auto, unfolding(crate::specs::EntryText::number_text))]
fn put_u64(out: &mut Vec<u8>, n: &u64) -> Result<(), AllocError>
    ensures text { OnOk result (out.new.items ≡ out.old.items ++ number_text w64 n.now) }
    ensures fits { OnOk result (n.now < 2 ^ 64) }
{
    out.extend_from_slice(&n.to_be_bytes())
}

pub(crate) fn put_digest(out: &mut Vec<u8>, digest: &Name) -> Result<(), AllocError>
    ensures text { OnOk result (out.new.items ≡ out.old.items ++ digest_text digest.now) }
    ensures fits { OnOk result (IsDigest digest.now) }
{
    out.extend_from_slice(&digest.0)
}

pub(crate) fn put_stream_name(out: &mut Vec<u8>, name: &StreamName) -> Result<(), AllocError>
    ensures text { OnOk result (out.new.items ≡ out.old.items ++ stream_name_text name.now) }
    ensures fits { OnOk result (IsStreamName name.now) }
{
    let bytes = name.bytes();
    out.push(bytes.len() as u8)?;
    out.extend_from_slice(bytes)
}

pub(crate) fn put_manifest(out: &mut Vec<u8>, id: &ManifestId) -> Result<(), AllocError>
    ensures text { OnOk result (out.new.items ≡ out.old.items ++ manifest_text id.now) }
    ensures fits { OnOk result (FitsManifest id.now) }
{
    put_fields!(out;
        &id.session => put_u32;
        &id.seq => put_u32;
    )
}

pub(crate) fn put_container(out: &mut Vec<u8>, id: &ContainerId) -> Result<(), AllocError>
    ensures text { OnOk result (out.new.items ≡ out.old.items ++ container_text id.now) }
    ensures fits { OnOk result (FitsContainer id.now) }
{
    put_fields!(out;
        &id.session => put_u32;
        &id.ordinal => put_u32;
    )
}

pub(crate) fn put_object(out: &mut Vec<u8>, object: &Object) -> Result<(), AllocError>
    ensures text { OnOk result (out.new.items ≡ out.old.items ++ object_text object.now) }
    ensures fits { OnOk result (FitsObject object.now) }
{
    match object {
        Object::Container(id) => put_fields!(out;
            1 => put_byte;
            id => put_container;
        ),
        Object::Manifest(id) => put_fields!(out;
            2 => put_byte;
            id => put_manifest;
        ),
    }
}

pub(crate) fn put_seen(out: &mut Vec<u8>, seen: &Seen) -> Result<(), AllocError>
    ensures text { OnOk result (out.new.items ≡ out.old.items ++ seen_text seen.now) }
    ensures fits { OnOk result (FitsSeen seen.now) }
{
    put_fields!(out;
        &seen.reader => put_u32;
        &seen.session => put_u32;
    )
}

pub(crate) fn put_totals(out: &mut Vec<u8>, totals: &Totals) -> Result<(), AllocError>
    ensures text { OnOk result (out.new.items ≡ out.old.items ++ totals_text totals.now) }
    ensures fits { OnOk result (FitTotals totals.now) }
{
    put_fields!(out;
        &totals.streams => put_u64;
        &totals.bytes => put_u64;
        &totals.fresh => put_u64;
        &totals.containers => put_u64;
        &totals.reclaimed => put_u64;
        &totals.entries => put_u64;
    )
}

/// 0, or 1 and the value.
pub(crate) fn put_reply<T: Item>(out: &mut Vec<u8>, reply: &Option<T>) -> Result<(), AllocError>
    ensures text { OnOk result (out.new.items ≡ out.old.items ++ reply_text T.item_text reply.now) }
    ensures fits { OnOk result (IfSome reply.now T.fits) }
{
    match reply {
        None => put_byte(out, 0),
        Some(value) => {
            put_byte(out, 1)?;
            value.put(out)
        }
    }
}

fn put_items<T: Item>(out: &mut Vec<u8>, items: &[T]) -> Result<(), AllocError>
    ensures text { OnOk result (out.new.items ≡ out.old.items ++ flat_map T.item_text items.now) }
    ensures fits { OnOk result (AllByRecursion T.fits items.now) }
{
    for item in items {
        item.put(out)?;
    }
    Ok(())
}

/// A list whose length has two bytes.
pub(crate) fn put_long_list<T: Item>(out: &mut Vec<u8>, items: &Items<T>) -> Result<(), AllocError>
    requires { length items.now < 2 ^ 16 }
    ensures text { OnOk result (out.new.items ≡ out.old.items ++ list_text (number_text w16) T.item_text items.now) }
    ensures fits { OnOk result (AllByRecursion T.fits items.now) }
{
    let items = items.as_slice();
    put_u16(out, items.len() as u16)?;
    put_items(out, items)
}

/// A list whose length has one byte.
pub(crate) fn put_short_list<T: Item>(out: &mut Vec<u8>, items: &Items<T>) -> Result<(), AllocError>
    requires { length items.now < 2 ^ 8 }
    ensures text { OnOk result (out.new.items ≡ out.old.items ++ list_text byte_text T.item_text items.now) }
    ensures fits { OnOk result (AllByRecursion T.fits items.now) }
{
    let items = items.as_slice();
    put_byte(out, items.len() as u8)?;
    put_items(out, items)
}
