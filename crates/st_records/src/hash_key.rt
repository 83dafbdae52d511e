//! What the hash of names depends on beside the names.

use std::fmt;
use std::hash::{BuildHasher, DefaultHasher, RandomState};
use std::random::RandomSource;

/// The key under which a state hashes its names. It changes how long a search takes, never what is found.
///
/// Who knows the key can choose names that collide, and then each search goes over all of them. So a program that reads
/// files of others takes a key from the system, once when it starts.
#[derive(Clone, Copy)]
pub struct HashKey {
    start: DefaultHasher,
}

impl HashKey {
    /// The same key in each run.
    pub fn fixed() -> HashKey {
        HashKey {
            start: DefaultHasher::new(),
        }
    }

    /// A key that the writer of a file can't know, or the fixed one where the system gives none.
    pub fn from_system(rt: &impl RandomSource) -> HashKey {
        match RandomState::new(rt) {
            Ok(keys) => HashKey {
                start: keys.build_hasher(),
            },
            Err(_) => HashKey::fixed(),
        }
    }
}

impl BuildHasher for HashKey {
    type Hasher = DefaultHasher;

    ghost build_hasher = { λ key. key.start };

    fn build_hasher(&self) -> DefaultHasher {
        self.start
    }
}

/// Nothing of the key is shown.
impl fmt::Debug for HashKey {
    fn fmt<W: fmt::Write>(&self, f: &mut fmt::Formatter<W>) -> fmt::Result {
        f.write_str("HashKey")
    }
}
