// What the lists and the replies of an entry hold.
ghost use Rattle.std.specs.Prelude.{◌≡◌, ◌<◌, ◌^◌, ◌++◌, OnOk};
ghost use Rattle.std.specs.Int.{w32};
ghost use Rattle.journal_entry.specs.EntryText.{number_text, digest_text, manifest_text, container_text, object_text, seen_text};
ghost use Rattle.journal_entry.specs.Reading.{Gives, number_at, digest_at, manifest_at, container_at, object_at, seen_at};
ghost use Rattle.journal_entry.specs.Bounds.{IsDigest, FitsManifest, FitsContainer, FitsObject, FitsSeen};

use crate::Seen;
use crate::fault::ReadError;
use crate::reading::{container_at, digest_at, manifest_at, object_at, seen_at, u32_at};
use crate::writing::{put_container, put_digest, put_manifest, put_object, put_seen, put_u32};
use ss_base::{ContainerId, ManifestId, Name, Object};
use std::alloc::AllocError;

/// A value that is read and written by itself.
pub(crate) trait Item: Drop {
    ghost use Rattle.std.specs.Prelude.{List, ℕ};
    ghost use Rattle.journal_entry.specs.Reading.{Reader};

    ghost item_text: { Self → List ℕ };

    ghost item_at: { Reader Self };

    ghost fits: { Self → Type 0 };

    fn read(bytes: &[u8]) -> Result<(Self, &[u8]), ReadError>
        ensures { Gives (λ x. (x.0, x.1.now)) result (item_at bytes.now) };

    fn put(&self, out: &mut Vec<u8>) -> Result<(), AllocError>
        ensures text { OnOk result (out.new.items ≡ out.old.items ++ item_text self.now) }
        ensures fits { OnOk result (fits self.now) };
}

impl Item for Name {
    ghost item_text = { digest_text };

    ghost item_at = { digest_at };

    ghost fits = { IsDigest };

    fn read(bytes: &[u8]) -> Result<(Self, &[u8]), ReadError> {
        digest_at(bytes)
    }

    fn put(&self, out: &mut Vec<u8>) -> Result<(), AllocError> {
        put_digest(out, self)
    }
}

impl Item for ManifestId {
    ghost item_text = { manifest_text };

    ghost item_at = { manifest_at };

    ghost fits = { FitsManifest };

    fn read(bytes: &[u8]) -> Result<(Self, &[u8]), ReadError> {
        manifest_at(bytes)
    }

    fn put(&self, out: &mut Vec<u8>) -> Result<(), AllocError> {
        put_manifest(out, self)
    }
}

impl Item for ContainerId {
    ghost item_text = { container_text };

    ghost item_at = { container_at };

    ghost fits = { FitsContainer };

    fn read(bytes: &[u8]) -> Result<(Self, &[u8]), ReadError> {
        container_at(bytes)
    }

    fn put(&self, out: &mut Vec<u8>) -> Result<(), AllocError> {
        put_container(out, self)
    }
}

impl Item for Object {
    ghost item_text = { object_text };

    ghost item_at = { object_at };

    ghost fits = { FitsObject };

    fn read(bytes: &[u8]) -> Result<(Self, &[u8]), ReadError> {
        object_at(bytes)
    }

    fn put(&self, out: &mut Vec<u8>) -> Result<(), AllocError> {
        put_object(out, self)
    }
}

impl Item for u32 {
    ghost item_text = { number_text w32 };

    ghost item_at = { number_at w32 };

    ghost fits = { λ n. n < 2 ^ 32 };

    fn read(bytes: &[u8]) -> Result<(Self, &[u8]), ReadError> {
        u32_at(bytes)
    }

    fn put(&self, out: &mut Vec<u8>) -> Result<(), AllocError> {
        put_u32(out, self)
    }
}

impl Item for Seen {
    ghost item_text = { seen_text };

    ghost item_at = { seen_at };

    ghost fits = { FitsSeen };

    fn read(bytes: &[u8]) -> Result<(Self, &[u8]), ReadError> {
        seen_at(bytes)
    }

    fn put(&self, out: &mut Vec<u8>) -> Result<(), AllocError> {
        put_seen(out, self)
    }
}
