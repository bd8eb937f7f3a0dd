ghost use Rattle.std.specs.Prelude.{◌≡◌, ◌<◌, ℕ, List, length, Bool, IsTrue, Option, IfOk, OnOk, OnErr};
ghost use Rattle.std.specs.Io.{ReadsAtMost, WritesAtMost};
ghost use Rattle.std.specs.Io.KnownBytes.{ReadConsumes, WriteAppends};
ghost use Rattle.sync_edge.specs.Contents.{Contents, HasName, Starts, IsSpent, KeepsFolder};
ghost use Rattle.sync_edge.specs.Faults.{HasCause, one_more};

use crate::errors::Failed;

/// Where the program reads files.
///
/// Before the first `start`, and after one that failed, nothing is left to read.
/// This project's own.
pub trait Folder {
    /// The bytes under each name, where the folder tells them. No call changes them.
    ghost contents: { Self → Option Contents };

    /// The bytes left of the started file, told at least where the contents are.
    ghost left: { Self → Option (List ℕ) };

    /// No call fails from now on, but for a `start` with a name that isn't there.
    ghost steady: { Self → Bool };

    /// How often a call has failed, up to 2^64 - 1. A call that doesn't fail leaves it as it was.
    ghost faults: { Self → ℕ };

    /// How often a start was tried, up to 2^64 - 1, whether it failed or not.
    ghost tries: { Self → ℕ };

    /// Begins the file at its first byte. A name that isn't there is a fault.
    fn start(&mut self, name: &str) -> Result<(), Failed>
        ensures keeps { KeepsFolder contents steady faults self.old self.new }
        ensures starts { OnOk result (Starts (contents self.old) name.now (left self.new)) }
        ensures spent { OnErr result (IsSpent (contents self.old) (left self.new)) }
        ensures cause { HasCause (faults self.old) (faults self.new) result }
        ensures tried { tries self.new ≡ one_more (tries self.old) }
        ensures sure { IsTrue (steady self.old) → HasName (contents self.old) name.now → OnErr result ⊥ };

    /// Reads the next bytes into the buffer, and gives how many.
    ///
    /// It gives 0 for a buffer with room only at the end of the file.
    fn read(&mut self, buf: &mut [u8]) -> Result<usize, Failed>
        ensures keeps { KeepsFolder contents steady faults self.old self.new }
        ensures within { ReadsAtMost result buf.new }
        ensures bytes { ReadConsumes (left self.old) (left self.new) result buf.new }
        ensures cause { HasCause (faults self.old) (faults self.new) result }
        ensures tried { tries self.new ≡ tries self.old }
        ensures sure { IsTrue (steady self.old) → OnErr result ⊥ };
}

/// Where the program writes.
/// This project's own.
pub trait Sink {
    /// The bytes written so far, where the sink tells them.
    ghost written: { Self → Option (List ℕ) };

    /// How often a call has failed, up to 2^64 - 1. A call that doesn't fail leaves it as it was.
    ghost faults: { Self → ℕ };

    /// Writes a front of the bytes, and gives how many it took: at least one, if there is one.
    ///
    /// A write that fails takes none. For no bytes it gives 0, and nothing changes.
    fn write(&mut self, bytes: &[u8]) -> Result<usize, Failed>
        ensures within { WritesAtMost result bytes.now }
        ensures some { 0 < length bytes.now → IfOk result (λ count. 0 < count) }
        ensures bytes { WriteAppends (written self.old) (written self.new) result bytes.now }
        ensures none { length bytes.now ≡ 0 → (result ≡ Ok 0) × (self.new ≡ self.old) }
        ensures cause { HasCause (faults self.old) (faults self.new) result };
}
