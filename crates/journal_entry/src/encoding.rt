// Writing an entry. Kinds with several fields have a function, which writes the byte of the kind too.
ghost use Rattle.std.specs.Prelude.{◌≡◌, ◌<◌, ◌++◌, ◌∷◌, OnOk, IfOk, IfSome};
ghost use Rattle.ss_base.specs.StreamName.{IsStreamName};
ghost use Rattle.journal_entry.specs.declared.entry.Point.TheVariants.{Choose, Finish, Abort, Done, Reclaim, Stat};
ghost use Rattle.journal_entry.specs.EntryText.{stream_name_text, reply_text, point_text, entry_text};
ghost use Rattle.journal_entry.specs.Bounds.{PointFits, IsEntry, PointIsWithinBounds, IsWithinBounds};

use crate::item::Item;
use crate::writing::{
    put_byte, put_digest, put_fields, put_long_list, put_manifest, put_reply, put_short_list,
    put_stream_name, put_totals, put_u32,
};
use crate::{Entry, Items, Point, Totals};
use ss_base::{ManifestId, Memory, Name, Object, StreamName};
use std::alloc::{AllocError, Global};

// Enough for the fields of any entry but a list of hooks, champions or uses, in bytes.
const FIXED: usize = 160;

/// The entry's text. An entry within the bounds has one, which [`crate::decode_entry`] reads again.
pub fn encode_entry(alloc: Global, entry: &Entry) -> Result<Vec<u8>, Memory>
    requires { IsWithinBounds entry.now }
    ensures text { IfOk result (λ text. text.items ≡ entry_text entry.now) }
    ensures entry { IfOk result (λ _. IsEntry entry.now) }
{
    let mut text = Vec::with_capacity(alloc, FIXED + len_of_lists(&entry.point))?;
    put_u32(&mut text, &entry.author)?;
    put_point(&mut text, &entry.point)?;
    Ok(text)
}

fn len_of_lists(point: &Point) -> usize
    requires { PointIsWithinBounds point.now }
    ensures { result < 1_000_000 }
{
    match point {
        Point::Choose {
            hooks,
            champions,
            ..
        } => 32 * hooks.as_slice().len() + 8 * champions.as_slice().len(),
        Point::Commit { uses, .. } => 8 * uses.as_slice().len(),
        _ => 0,
    }
}

fn put_point(out: &mut Vec<u8>, point: &Point) -> Result<(), AllocError>
    requires { PointIsWithinBounds point.now }
    ensures text { OnOk result (out.new.items ≡ out.old.items ++ point_text point.now) }
    ensures fits { OnOk result (PointFits point.now) }
{
    match point {
        Point::Begin { name, session } => put_named(out, 1, name, session),
        Point::Choose {
            session,
            hooks,
            champions,
        } => put_choose(out, session, hooks, champions),
        Point::Commit {
            manifest,
            content,
            text,
            chunks,
            bytes,
            fresh,
            fresh_bytes,
            uses,
        } => put_fields!(out;
            3 => put_byte;
            manifest => put_manifest;
            content => put_digest;
            text => put_digest;
            chunks => put_u32;
            bytes => put_u32;
            fresh => put_u32;
            fresh_bytes => put_u32;
            uses => put_long_list;
        ),
        Point::Finish {
            session,
            containers,
        } => put_finish(out, session, containers),
        Point::Abort {
            session,
            containers,
            texts,
        } => put_abort(out, session, containers, texts),
        Point::Delete { name, session } => put_named(out, 6, name, session),
        Point::Look { name, seen } => put_named(out, 7, name, seen),
        Point::Done { reader } => put_done(out, reader),
        Point::Reclaim { objects } => put_reclaim(out, objects),
        Point::Stat { totals } => put_stat(out, totals),
    }
}

// A stream's name and a reply, after the byte of their kind.
fn put_named<T: Item>(
    out: &mut Vec<u8>,
    kind: u8,
    name: &StreamName,
    reply: &Option<T>,
) -> Result<(), AllocError>
    ensures text { OnOk result (out.new.items ≡ out.old.items ++ kind ∷ (stream_name_text name.now ++ reply_text T.item_text reply.now)) }
    ensures name { OnOk result (IsStreamName name.now) }
    ensures reply { OnOk result (IfSome reply.now T.fits) }
{
    put_fields!(out;
        kind => put_byte;
        name => put_stream_name;
        reply => put_reply;
    )
}

fn put_choose(
    out: &mut Vec<u8>,
    session: &u32,
    hooks: &Items<Name>,
    champions: &Items<ManifestId>,
) -> Result<(), AllocError>
    requires { PointIsWithinBounds (Choose session.now hooks.now champions.now) }
    ensures text { OnOk result (out.new.items ≡ out.old.items ++ point_text (Choose session.now hooks.now champions.now)) }
    ensures fits { OnOk result (PointFits (Choose session.now hooks.now champions.now)) }
{
    put_fields!(out;
        2 => put_byte;
        session => put_u32;
        hooks => put_long_list;
        champions => put_short_list;
    )
}

fn put_finish(out: &mut Vec<u8>, session: &u32, containers: &u32) -> Result<(), AllocError>
    ensures text { OnOk result (out.new.items ≡ out.old.items ++ point_text (Finish session.now containers.now)) }
    ensures fits { OnOk result (PointFits (Finish session.now containers.now)) }
{
    put_fields!(out;
        4 => put_byte;
        session => put_u32;
        containers => put_u32;
    )
}

fn put_abort(
    out: &mut Vec<u8>,
    session: &u32,
    containers: &u32,
    texts: &u32,
) -> Result<(), AllocError>
    ensures text { OnOk result (out.new.items ≡ out.old.items ++ point_text (Abort session.now containers.now texts.now)) }
    ensures fits { OnOk result (PointFits (Abort session.now containers.now texts.now)) }
{
    put_fields!(out;
        5 => put_byte;
        session => put_u32;
        containers => put_u32;
        texts => put_u32;
    )
}

fn put_done(out: &mut Vec<u8>, reader: &u32) -> Result<(), AllocError>
    ensures text { OnOk result (out.new.items ≡ out.old.items ++ point_text (Done reader.now)) }
    ensures fits { OnOk result (PointFits (Done reader.now)) }
{
    put_fields!(out;
        8 => put_byte;
        reader => put_u32;
    )
}

fn put_reclaim(out: &mut Vec<u8>, objects: &Items<Object>) -> Result<(), AllocError>
    requires { PointIsWithinBounds (Reclaim objects.now) }
    ensures text { OnOk result (out.new.items ≡ out.old.items ++ point_text (Reclaim objects.now)) }
    ensures fits { OnOk result (PointFits (Reclaim objects.now)) }
{
    put_fields!(out;
        9 => put_byte;
        objects => put_short_list;
    )
}

fn put_stat(out: &mut Vec<u8>, totals: &Totals) -> Result<(), AllocError>
    ensures text { OnOk result (out.new.items ≡ out.old.items ++ point_text (Stat totals.now)) }
    ensures fits { OnOk result (PointFits (Stat totals.now)) }
{
    put_fields!(out;
        10 => put_byte;
        totals => put_totals;
    )
}
