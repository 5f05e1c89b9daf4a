//! The stores of a play.

ghost use Rattle.std.specs.Prelude.{◌≡◌};

use crate::stable::disks::{FusedFiles, OnDisks, blank};
use smi_rows::{Key, MemoryStable, SavedRow, Stable, StoreFault};
use std::alloc::{AllocError, Global};

/// A store that a play begins with.
pub(crate) trait Played: Stable + Sized {
    /// Returns a store with no rows.
    fn empty(alloc: Global) -> Result<Self, AllocError>;
}

impl Played for MemoryStable {
    fn empty(alloc: Global) -> Result<MemoryStable, AllocError> {
        Ok(MemoryStable::new(alloc))
    }
}

/// A store that has to be given up by a call, and is given up when it is dropped.
pub(crate) struct Closing<S: OnDisks> {
    store: S,
}

impl<S: OnDisks> Drop for Closing<S> {
    fn drop(self) {
        let Closing { store } = self;
        drop(store.close());
    }
}

impl<S: OnDisks> Stable for Closing<S> {
    ghost rows = { λ c. S.rows c.store };

    ghost may_find = { λ c. S.may_find c.store };

    ghost is_honest = { λ c. S.is_honest c.store };

    ghost is_open = { λ c. S.is_open c.store };

    ghost failures = { λ c. S.failures c.store };

    ghost doubts = { λ c. S.doubts c.store };

    ghost saves = { λ c. S.saves c.store };

    ghost rests = { λ c. S.rests c.store };

    fn save(&mut self, key: Key, bytes: &[u8]) -> Result<(), StoreFault> {
        self.store.save(key, bytes)
    }

    fn load(&mut self) -> Result<Vec<SavedRow>, StoreFault> {
        self.store.load()
    }
}

impl<S: OnDisks<Disks = FusedFiles>> Played for Closing<S> {
    fn empty(alloc: Global) -> Result<Closing<S>, AllocError> {
        match S::open(alloc, blank(alloc)) {
            Ok(store) => Ok(Closing { store }),
            Err(_) => Err(AllocError),
        }
    }
}
