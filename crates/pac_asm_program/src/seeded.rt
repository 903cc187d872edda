//! How names are hashed.

ghost use Rattle.std.specs.Prelude.{◌≡◌};
ghost use Rattle.std.specs.Hash.DefaultHasher.{initial, write, finish};
ghost use Rattle.sha1.specs.Sha1.{sha1};

use arrayvec::ArrayVec;
use sha1::Sha1;
use std::hash::{BuildHasher, DefaultHasher, Hasher};
use std::marker::Model;

/// The bytes that a hasher takes at once: as many as most names have.
const TOGETHER: usize = 64;

/// The kit's hasher, which takes the bytes of a name together: a name hands them over one by one. Clauses see it as one that has taken
/// each at once.
#[derive(Drop)]
pub(crate) struct Gathering {
    hasher: DefaultHasher,
    bytes: ArrayVec<u8, TOGETHER>,
}

impl Model for Gathering {
    ghost use Rattle.std.specs.Hash.DefaultHasher.{write};
    ghost use Rattle.std.specs.declared.hash.DefaultHasher.{DefaultHasher};

    ghost Value = { DefaultHasher };

    ghost view = { λ gathering. write gathering.hasher gathering.bytes.items };
}

impl Hasher for Gathering {
    ghost write = { write };

    ghost finish = { finish };

    /// The hash of what was taken.
    #[inline]
    fn finish(&self) -> u64 {
        let mut whole = self.hasher;
        whole.write(&self.bytes);
        whole.finish()
    }

    /// Takes bytes, and hands over those before them where there is no more room.
    #[inline]
    #[tactic(auto, using(crate::proofs::Hashed::both_written, crate::proofs::Hashed::nothing_written))]
    fn write(&mut self, bytes: &[u8]) {
        if self.bytes.try_extend_from_slice(bytes).is_err() {
            self.hand_over(bytes);
        }
    }
}

impl Gathering {
    /// Hands over the bytes that were gathered, and these after them.
    #[tactic(auto, using(crate::proofs::Hashed::both_written, crate::proofs::Hashed::nothing_written))]
    fn hand_over(&mut self, bytes: &[u8])
        ensures { self.new ≡ write self.old bytes.now }
    {
        self.hasher.write(&self.bytes);
        self.hasher.write(bytes);
        self.bytes.clear();
    }
}

/// A start for hashes that hangs on a whole source. The kit's own are the same for every source, so names can be chosen once and for all
/// whose hashes are the same, and a look-up compares each with all before it. Whoever chooses names here changes the source with them, and
/// so the hashes of all of them.
#[derive(Clone, Copy)]
pub(crate) struct Seeded {
    start: DefaultHasher,
}

impl Seeded {
    /// That of a source: a hasher that has taken the source's SHA-1.
    pub(crate) fn of(source: &[u8]) -> Seeded
        ensures { result.start ≡ write initial (sha1 source.now) }
    {
        let mut start = DefaultHasher::new();
        start.write(&Sha1::digest(source));
        Seeded { start }
    }
}

impl BuildHasher for Seeded {
    type Hasher = Gathering;

    ghost build_hasher = { λ seeded. seeded.start };

    /// The hasher of the next name.
    #[inline]
    #[tactic(auto, using(crate::proofs::Hashed::nothing_written))]
    fn build_hasher(&self) -> Gathering {
        Gathering {
            hasher: self.start,
            bytes: ArrayVec::new(),
        }
    }
}
