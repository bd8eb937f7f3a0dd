//! A gate that each chunk of links goes through.

/// What a chunk of links calls before it is worked. It has no meaning, and serves a test that
/// chunks run at once. This project's own.
pub trait Gate {
    /// A chunk begins, by its number from 0.
    fn enter(&self, chunk: u32);
}

/// A gate that lets every chunk through. This project's own.
#[derive(Clone, Copy, Debug, PartialEq, Eq)]
pub struct FreeGate;

impl Gate for FreeGate {
    fn enter(&self, _chunk: u32) {}
}
