// Stored objects and the names under which they are stored.
ghost use Rattle.std.specs.Prelude.{◌≡◌, IfOk, string_bytes};
ghost use Rattle.ss_base.specs.ObjectName.{object_text};

use crate::{ContainerId, ManifestId, Memory};
use std::alloc::Global;

/// A stored object. Each container comes before each manifest.
#[derive(Clone, Copy, Debug, PartialEq, Eq, PartialOrd, Ord, Hash)]
pub enum Object {
    Container(ContainerId),
    Manifest(ManifestId),
}

/// The object's name: `c-SESSION-ORDINAL` for a container, `m-SESSION-SEQ` for a manifest, in decimal.
pub fn object_name(alloc: Global, object: &Object) -> Result<String, Memory>
    ensures { IfOk result (λ name. string_bytes name ≡ object_text object.now) }
{
    let text = match object {
        Object::Container(id) => format!(in alloc; "c-{}-{}", id.session, id.ordinal)?,
        Object::Manifest(id) => format!(in alloc; "m-{}-{}", id.session, id.seq)?,
    };
    Ok(text)
}
