//! Bytes that stand in a text itself.

ghost use Rattle.std.specs.Prelude.{◌≡◌, ◌++◌, [], false, IsTrue};

use std::marker::Model;

/// How many bytes a text keeps in itself at most.
pub(crate) const MOST_IN_PLACE: usize = 16;

/// At most so few bytes.
#[derive(Debug, Drop)]
pub(crate) struct Short {
    octets: [u8; MOST_IN_PLACE],
    len: usize,
}

impl Model for Short {
    ghost use Rattle.std.specs.Prelude.{ℕ, ◌≤◌, List, take};
    ghost use Rattle.sync_text.specs.declared.short.TheConstants.{MOST_IN_PLACE};

    ghost Value = { List ℕ };

    ghost view = { λ short. take short.len short.octets };

    ghost invariant = { λ short. short.len ≤ MOST_IN_PLACE };
}

impl Short {
    /// No bytes.
    pub(crate) fn new() -> Short
        ensures { result ≡ [] }
    {
        Short {
            octets: [0; MOST_IN_PLACE],
            len: 0,
        }
    }

    /// All the bytes.
    pub(crate) fn bytes(&self) -> &[u8]
        ensures { result.now ≡ self.now }
    {
        &self.octets[..self.len]
    }

    /// Puts the bytes at the end where there is room for them. Whether there is.
    pub(crate) fn put(&mut self, bytes: &[u8]) -> bool
        ensures put { IsTrue result → self.new ≡ self.old ++ bytes.now }
        ensures full { result ≡ false → self.new ≡ self.old }
    {
        if MOST_IN_PLACE - self.len < bytes.len() {
            return false;
        }
        let end = self.len + bytes.len();
        self.octets[self.len..end].copy_from_slice(bytes);
        self.len = end;
        true
    }
}
