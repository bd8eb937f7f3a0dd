// One record and its fields.

ghost use Rattle.std.specs.Prelude.{◌≡◌, ◌==◌, [], List, length, option_map, slice_get};
ghost use Rattle.csv_records.specs.Fields.{pair_of, four_of, five_of};

use csv::ByteRecord;
use std::alloc::Global;
use std::marker::Model;

/// A record: its fields in order, each of them bytes.
///
/// After RFC 4180, record.
#[derive(Debug, Drop)]
pub struct Record {
    pub(crate) fields: ByteRecord,
}

impl Model for Record {
    ghost use Rattle.std.specs.Prelude.{ℕ, List};
    ghost use Rattle.csv.specs.Records.{fields_of};

    ghost Value = { List (List ℕ) };

    ghost view = { λ r. fields_of r.fields };
}

impl Record {
    /// A record without fields.
    pub(crate) fn new(alloc: Global) -> Record
        ensures { result ≡ [] }
    {
        Record {
            fields: ByteRecord::new(alloc),
        }
    }

    /// How many fields the record has.
    pub fn len(&self) -> usize
        ensures { result ≡ length self.now }
    {
        self.fields.len()
    }

    /// Whether the record has no field, which no record of a text is.
    pub fn is_empty(&self) -> bool
        ensures { result ≡ (length self.now == 0) }
    {
        self.fields.is_empty()
    }

    /// The field at a place, counted from 0.
    ///
    /// `None` where the record has no such field.
    #[tactic(auto, using(crate::proofs::FieldFacts::field_at_is))]
    pub fn get(&self, place: usize) -> Option<&[u8]>
        ensures { option_map (λ field. field.now) result ≡ slice_get self.now place }
    {
        self.fields.get(place)
    }

    /// Both fields of a record of two.
    ///
    /// `None` where the record has fewer fields or more.
    #[tactic(auto, using(crate::proofs::FieldFacts::pair_facts))]
    pub fn pair(&self) -> Option<(&[u8], &[u8])>
        ensures { option_map (λ pair. (pair.0.now, pair.1.now)) result ≡ pair_of self.now }
    {
        let first = self.get(0)?;
        let second = self.get(1)?;
        if self.len() == 2 {
            Some((first, second))
        } else {
            None
        }
    }

    /// All fields of a record of four.
    ///
    /// `None` where the record has fewer fields or more.
    #[tactic(auto, using(crate::proofs::FieldFacts::four_facts))]
    pub fn four(&self) -> Option<(&[u8], &[u8], &[u8], &[u8])>
        ensures { option_map (λ four. (four.0.now, four.1.now, four.2.now, four.3.now)) result
            ≡ four_of self.now }
    {
        let first = self.get(0)?;
        let second = self.get(1)?;
        let third = self.get(2)?;
        let fourth = self.get(3)?;
        if self.len() == 4 {
            Some((first, second, third, fourth))
        } else {
            None
        }
    }

    /// All fields of a record of five.
    ///
    /// `None` where the record has fewer fields or more.
    #[tactic(auto, using(crate::proofs::FieldFacts::five_facts))]
    pub fn five(&self) -> Option<(&[u8], &[u8], &[u8], &[u8], &[u8])>
        ensures { option_map (λ five. (five.0.now, five.1.now, five.2.now, five.3.now, five.4.now)) result
            ≡ five_of self.now }
    {
        let first = self.get(0)?;
        let second = self.get(1)?;
        let third = self.get(2)?;
        let fourth = self.get(3)?;
        let fifth = self.get(4)?;
        if self.len() == 5 {
            Some((first, second, third, fourth, fifth))
        } else {
            None
        }
    }
}
