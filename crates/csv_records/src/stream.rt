// The records of a text, one after another.

ghost use Rattle.std.specs.Prelude.{◌≡◌, ◌≤◌, ◌+◌, [], ◌∷◌, length, true, false, Ok, OnOk, OnErr};
ghost use Rattle.csv.specs.Reading.{error_kind, stops_reader};
ghost use Rattle.csv_records.specs.Records.{records_of};

use crate::record::Record;
use csv::{Error, Reader, ReaderBuilder};
use std::alloc::Global;
use std::marker::Model;
use sync_text::NoMemory;

/// The records of some bytes, taken one after another. Contracts see the record that was taken last,
/// and those that are left.
///
/// It holds one record at a time. Fields are parted by commas and may be quoted, spaces are part of
/// a field, records may differ in length, the first record is one like the others, and a byte order
/// mark at the start is passed over. No text is refused; an error is `NoMemory`.
/// After RFC 4180, as the crate `csv` reads it.
pub struct Records<'a> {
    reader: Reader<&'a [u8]>,
    taken: Record,
    ended: bool,
}

// Written out, so that a way out of a function drops the whole in one step and not field by field.
impl<'a> Drop for Records<'a> {
    fn drop(self) {
        let Records {
            reader,
            taken,
            ended: _,
        } = self;
        drop(reader);
        drop(taken);
    }
}

impl<'a> Model for Records<'a> {
    ghost use Rattle.std.specs.Prelude.{◌≡◌, ℕ, false, List, Some};
    ghost use Rattle.std.proofs.Common.{Bor};
    ghost use Rattle.csv.specs.Reading.{has_failed};
    ghost use Rattle.csv_records.specs.Stream.{Stream, left_of};
    ghost use Rattle.csv_records.specs.private.Stream.{IsReading};

    ghost Value = { Stream };

    ghost view = { λ s. record { taken = s.taken; left = left_of (λ (bytes : Bor (List ℕ)). Some bytes.now) s.reader s.ended; spent = has_failed s.reader } };

    ghost invariant = { λ s. s.ended ≡ false → has_failed s.reader ≡ false → IsReading (λ (bytes : Bor (List ℕ)). Some bytes.now) s.reader };
}

impl<'a> Records<'a> {
    /// The records of these bytes, none of which is taken yet. It takes no memory.
    pub fn of(alloc: Global, bytes: &'a [u8]) -> Records<'a>
        ensures left { result.left ≡ records_of bytes.now }
        ensures few { length result.left ≤ length bytes.now + 1 }
        ensures spent { result.spent ≡ false }
    {
        Records {
            reader: ReaderBuilder::new()
                .has_headers(false)
                .flexible(true)
                .from_reader(alloc, bytes),
            taken: Record::new(alloc),
            ended: false,
        }
    }

    /// Takes the next record, and says whether there was one.
    ///
    /// When out of memory, it is spent.
    pub fn advance(&mut self) -> Result<bool, NoMemory>
        requires { self.old.spent ≡ false }
        ensures found { result ≡ Ok true → self.old.left ≡ self.new.taken ∷ self.new.left }
        ensures none { result ≡ Ok false → self.old.left ≡ [] }
        ensures ended { result ≡ Ok false → self.new.left ≡ [] }
        ensures goes_on { OnOk result (self.new.spent ≡ false) }
        ensures spent { OnErr result (self.new.spent ≡ true) }
    {
        if self.ended {
            return Ok(false);
        }
        match self.reader.read_byte_record(&mut self.taken.fields) {
            Ok(true) => Ok(true),
            Ok(false) => {
                self.ended = true;
                Ok(false)
            }
            Err(error) => Err(no_memory_left(error)),
        }
    }

    /// The record that was taken last; one without fields before the first.
    pub fn taken(&self) -> &Record
        ensures { result.now ≡ self.now.taken }
    {
        &self.taken
    }
}

/// Out of memory, as the one reason that is left for a reader to stop: the bytes are in memory.
///
/// An error of the records themselves stops no reader.
fn no_memory_left(error: Error) -> NoMemory
    requires { stops_reader (error_kind error) ≡ true }
{
    let _ = error;
    NoMemory
}
