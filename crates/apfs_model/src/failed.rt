// What a call answers that met no memory, a failing source or a failing sink.
ghost use Rattle.std.specs.Prelude.{◌≡◌};
ghost use Rattle.apfs_model.specs.declared.failed.NoMemory as declared;

use std::alloc::{AllocError, AllocFailed};

/// There was no memory.
#[derive(Clone, Copy, Debug, PartialEq, Eq)]
pub struct NoMemory;

impl From<AllocError> for NoMemory {
    ghost from_gives = { λ _ (e : declared.NoMemory). e ≡ record {} };

    fn from(_: AllocError) -> Self {
        NoMemory
    }
}

impl<T: Drop> From<AllocFailed<T>> for NoMemory {
    ghost from_gives = { λ _ (e : declared.NoMemory). e ≡ record {} };

    fn from(_: AllocFailed<T>) -> Self {
        NoMemory
    }
}

/// A source failed.
#[derive(Clone, Copy, Debug, PartialEq, Eq)]
pub struct ReadFailed;

/// A sink failed.
#[derive(Clone, Copy, Debug, PartialEq, Eq)]
pub struct WriteFailed;
