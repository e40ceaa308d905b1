// Names as the keys of a map.
use crate::last_bytes::LastBytes;
use ss_base::Name;
use std::collections::HashMap;
use std::hash::{BuildHasherDefault, Hash, Hasher};

// A name, of which only the last eight bytes are hashed, in one write: the name's own hash makes one for each byte.
#[derive(Clone, Copy, PartialEq, Eq)]
pub(crate) struct NameKey(pub(crate) Name);

// A map by names.
pub(crate) type NameMap<V> = HashMap<NameKey, V, BuildHasherDefault<LastBytes>>;

impl Hash for NameKey {
    ghost use Rattle.sparse_index.specs.NameKey.{hashed, hashed_alike};

    ghost hash_input = { hashed };

    ghost respects_eq = { hashed_alike };

    fn hash<H: Hasher>(&self, state: &mut H) {
        state.write(&self.0.0[24..]);
    }
}
