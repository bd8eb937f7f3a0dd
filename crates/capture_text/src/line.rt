//! A line that is put together in place.

ghost use Rattle.std.specs.Prelude.{◌≡◌, ◌≤◌, ◌+◌, ◌*◌, [], ◌++◌, length};
ghost use Rattle.hex.specs.Hex.{IsBytes, encode_lower};

use esmc_frame::FRAME;
use std::marker::Model;

/// The most octets of a line, with its line feed: the digits of a frame. A row has fewer.
pub(crate) const LONGEST: usize = 2 * FRAME + 1;

/// A line that is being put together. Contracts see the list of its bytes.
#[derive(Drop)]
pub(crate) struct Line {
    octets: [u8; LONGEST],
    len: usize,
}

impl Model for Line {
    ghost use Rattle.std.specs.Prelude.{ℕ, ◌≤◌, List, take};
    ghost use Rattle.capture_text.specs.declared.line.TheConstants.{LONGEST};

    ghost Value = { List ℕ };

    ghost view = { λ line. take line.len line.octets };

    ghost invariant = { λ line. line.len ≤ LONGEST };
}

impl Line {
    pub(crate) fn new() -> Line
        ensures { result ≡ [] }
    {
        Line {
            octets: [0; LONGEST],
            len: 0,
        }
    }

    /// What was put so far.
    pub(crate) fn bytes(&self) -> &[u8]
        ensures { result.now ≡ self.now }
    {
        &self.octets[..self.len]
    }

    /// Puts a part at the end.
    pub(crate) fn put(&mut self, part: &[u8])
        requires { length self.old + length part.now ≤ LONGEST }
        ensures put { self.new ≡ self.old ++ part.now }
        ensures len { length self.new ≡ length self.old + length part.now }
    {
        let end = self.len + part.len();
        self.octets[self.len..end].copy_from_slice(part);
        self.len = end;
    }

    /// Puts octets as lower case digits at the end.
    pub(crate) fn put_digits<const N: usize>(&mut self, octets: &[u8; N])
        requires { length self.old + 2 * N ≤ LONGEST }
        ensures put { self.new ≡ self.old ++ encode_lower octets.now }
        ensures len { length self.new ≡ length self.old + 2 * N }
        ensures size { length octets.now ≡ N }
        ensures octets { IsBytes octets.now }
    {
        self.put_all_digits(octets.as_slice());
    }

    fn put_all_digits(&mut self, octets: &[u8])
        requires { length self.old + 2 * length octets.now ≤ LONGEST }
        ensures put { self.new ≡ self.old ++ encode_lower octets.now }
        ensures len { length self.new ≡ length self.old + 2 * length octets.now }
        ensures octets { IsBytes octets.now }
    {
        let end = self.len + 2 * octets.len();
        hex::encode_to_slice(octets, &mut self.octets[self.len..end]).unwrap();
        self.len = end;
    }
}
