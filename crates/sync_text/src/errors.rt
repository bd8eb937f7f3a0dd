ghost use Rattle.std.specs.Prelude.{◌≡◌};

use std::alloc::{AllocError, AllocFailed};
use std::fmt;
use thiserror::Error;

/// Out of memory.
///
/// It is the one answer that comes freely: no clause ties it to a refused allocation.
#[derive(Clone, Copy, Debug, PartialEq, Eq, Error)]
#[error("out of memory")]
pub struct NoMemory;

impl From<AllocError> for NoMemory {
    ghost from_gives = { λ _ made. made ≡ record {} };

    /// A refused allocation is out of memory.
    fn from(_: AllocError) -> NoMemory {
        NoMemory
    }
}

impl<T: Drop> From<AllocFailed<T>> for NoMemory {
    ghost from_gives = { λ _ made. made ≡ record {} };

    /// A refused growth is out of memory. What it hands back is dropped.
    fn from(_: AllocFailed<T>) -> NoMemory {
        NoMemory
    }
}

/// Why a call that may refuse what it is given gave no answer: it refused that, or memory was short.
///
/// This project's own.
#[derive(Clone, Copy, Debug, PartialEq, Eq, Error)]
#[error_bound(E: fmt::Display)]
pub enum NoAnswer<E> {
    /// Out of memory. It says nothing of what was given.
    #[error("out of memory")]
    NoMemory,
    /// What was given is refused, for this reason.
    #[error("{0}")]
    Refused(E),
}

impl<E> From<NoMemory> for NoAnswer<E> {
    ghost use Rattle.sync_text.specs.declared.errors.NoAnswer.TheVariants as no_answer;

    ghost from_gives = { λ _ made. made ≡ no_answer.NoMemory };

    fn from(_: NoMemory) -> NoAnswer<E> {
        NoAnswer::NoMemory
    }
}
