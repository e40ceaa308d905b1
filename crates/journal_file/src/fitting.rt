// What the types of an entry keep: each field fits its place in the journal. Nothing is computed.
ghost use Rattle.std.specs.Prelude.{◌<◌, ◌^◌, IfSome, All};
ghost use Rattle.std.specs.List.{AllByRecursion};
ghost use Rattle.ss_base.specs.StreamName.{IsStreamName};
ghost use Rattle.journal_entry.specs.Bounds.{IsDigest, FitsManifest, FitsContainer, FitsObject, FitsSeen, FitTotals, PointFits, IsEntry, IsWithinBounds};

use journal_entry::{Entry, Items, Point, Seen, Totals};
use ss_base::{ContainerId, ManifestId, Name, Object, StreamName};

/// Each of the entries can be read from its text.
pub(crate) fn entries_fit(entries: &[Entry])
    requires { All IsWithinBounds entries.now }
    ensures { AllByRecursion IsEntry entries.now }
{
    for entry in entries {
        entry_fits(entry);
    }
}

fn entry_fits(entry: &Entry)
    requires { IsWithinBounds entry.now }
    ensures { IsEntry entry.now }
{
    entry.author.fits();
    point_fits(&entry.point);
}

// Each of the fields fits.
macro_rules! fit {
    ($($field:ident),+) => {{
        $($field.fits();)+
    }};
}

fn point_fits(point: &Point)
    ensures { PointFits point.now }
{
    match point {
        Point::Begin { name, session } | Point::Delete { name, session } => fit!(name, session),
        Point::Choose {
            session,
            hooks,
            champions,
        } => fit!(session, hooks, champions),
        Point::Commit {
            manifest,
            content,
            text,
            chunks,
            bytes,
            fresh,
            fresh_bytes,
            uses,
        } => {
            fit!(manifest, content, text, uses);
            fit!(chunks, bytes, fresh, fresh_bytes);
        }
        Point::Finish {
            session,
            containers,
        } => fit!(session, containers),
        Point::Abort {
            session,
            containers,
            texts,
        } => fit!(session, containers, texts),
        Point::Look { name, seen } => fit!(name, seen),
        Point::Done { reader } => reader.fits(),
        Point::Reclaim { objects } => objects.fits(),
        Point::Stat { totals } => totals.fits(),
    }
}

// A field of an entry.
trait Fits {
    ghost its_place: { Self → Type 0 };

    fn fits(&self)
        ensures { its_place self.now };
}

impl<T: Fits> Fits for Option<T> {
    ghost its_place = { λ value. IfSome value T.its_place };

    fn fits(&self) {
        if let Some(value) = self {
            value.fits();
        }
    }
}

impl<T: Fits> Fits for Items<T> {
    ghost its_place = { AllByRecursion T.its_place };

    fn fits(&self) {
        for item in self.as_slice() {
            item.fits();
        }
    }
}

impl Fits for u32 {
    ghost its_place = { λ n. n < 2 ^ 32 };

    fn fits(&self) {
        let _number = *self;
    }
}

impl Fits for u64 {
    ghost its_place = { λ n. n < 2 ^ 64 };

    fn fits(&self) {
        let _number = *self;
    }
}

impl Fits for StreamName {
    ghost its_place = { IsStreamName };

    fn fits(&self) {
        let _bytes = self.bytes();
    }
}

impl Fits for Name {
    ghost its_place = { IsDigest };

    fn fits(&self) {
        let _bytes = self.0.as_slice();
    }
}

impl Fits for ManifestId {
    ghost its_place = { FitsManifest };

    fn fits(&self) {
        self.session.fits();
        self.seq.fits();
    }
}

impl Fits for ContainerId {
    ghost its_place = { FitsContainer };

    fn fits(&self) {
        self.session.fits();
        self.ordinal.fits();
    }
}

impl Fits for Object {
    ghost its_place = { FitsObject };

    fn fits(&self) {
        match self {
            Object::Container(id) => id.fits(),
            Object::Manifest(id) => id.fits(),
        }
    }
}

impl Fits for Seen {
    ghost its_place = { FitsSeen };

    fn fits(&self) {
        self.reader.fits();
        self.session.fits();
    }
}

impl Fits for Totals {
    ghost its_place = { FitTotals };

    fn fits(&self) {
        self.streams.fits();
        self.bytes.fits();
        self.fresh.fits();
        self.containers.fits();
        self.reclaimed.fits();
        self.entries.fits();
    }
}
