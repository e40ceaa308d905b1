// The two kinds of object.
ghost use Rattle.std.specs.Prelude.{◌≡◌};
ghost use Rattle.pins_counts.specs.Counts.{object_of, count_of};

use ss_base::{ContainerId, Ended, ManifestId, Object};

#[derive(Clone, Copy)]
pub(crate) enum Kind {
    Containers,
    Manifests,
}

impl Kind {
    // The object of this kind with this number in the session.
    pub(crate) fn object(self, session: u32, number: u32) -> Object
        ensures { result ≡ object_of self session number }
    {
        match self {
            Kind::Containers => Object::Container(ContainerId {
                session,
                ordinal: number,
            }),
            Kind::Manifests => Object::Manifest(ManifestId {
                session,
                seq: number,
            }),
        }
    }

    // How many objects of this kind a closed session has.
    pub(crate) fn count(self, ended: Ended) -> u32
        ensures { result ≡ count_of self ended }
    {
        match self {
            Kind::Containers => ended.containers,
            Kind::Manifests => ended.texts,
        }
    }
}
