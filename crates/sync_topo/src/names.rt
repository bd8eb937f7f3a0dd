ghost use Rattle.std.specs.Prelude.{◌≡◌, [], ◌∷◌, ◌++◌, false, not, OnOk, is_some, IfSome, Some, slice_get, length, ◌<◌};
ghost use Rattle.std.specs.List.{list_all};
ghost use Rattle.sync_topo.specs.Names.{is_name, is_name_byte, is_named, place_of};

use indexmap::IndexSet;
use std::alloc::Global;
use std::marker::Model;
use sync_text::NoMemory;

/// The most bytes of a name of an element, link, source or bundle. This project's own.
pub const MOST_NAME_BYTES: usize = 32;

/// Names, each at its place in the order in which they came. Contracts see their list.
///
/// A name is looked up without going through the others. This project's own.
pub struct Names {
    alloc: Global,
    set: IndexSet<Vec<u8>>,
}

// Written out, so that a way out of a function drops the whole in one step and not field by field.
impl Drop for Names {
    fn drop(self) {
        let Names { alloc: _, set } = self;
        drop(set);
    }
}

impl Model for Names {
    ghost use Rattle.std.specs.Prelude.{ℕ, List, map};

    ghost Value = { List (List ℕ) };

    ghost view = { λ names. map (λ name. name.items) names.set.keys };
}

impl Names {
    /// No names. It takes no memory.
    pub fn new(alloc: Global) -> Names
        ensures { result ≡ [] }
    {
        Names {
            alloc,
            set: IndexSet::new(alloc),
        }
    }

    /// Room for so many names more.
    pub(crate) fn reserve(&mut self, more: usize) -> Result<(), NoMemory>
        ensures { self.new ≡ self.old }
    {
        self.set.reserve(more)?;
        Ok(())
    }

    /// The place of a name, counted from 0.
    ///
    /// `None` where no name is this one.
    pub fn place_of(&self, name: &[u8]) -> Option<usize>
        ensures place { result ≡ place_of self.now name.now }
        ensures found { is_some result ≡ is_named self.now name.now }
        ensures named { IfSome result (λ place. slice_get self.now place ≡ Some name.now) }
        ensures within { IfSome result (λ place. place < length self.now) }
    {
        self.set.get_index_of(name)
    }

    /// One of the names is this one.
    pub fn has(&self, name: &[u8]) -> bool
        ensures { result ≡ is_named self.now name.now }
    {
        self.set.contains(name)
    }

    /// Puts a new name at the end.
    pub fn add(&mut self, name: &[u8]) -> Result<(), NoMemory>
        requires { is_named self.old name.now ≡ false }
        ensures { OnOk result (self.new ≡ self.old ++ name.now ∷ []) }
    {
        let Ok(name) = Vec::from_slice(self.alloc, name) else {
            return Err(NoMemory);
        };
        let Ok(_) = self.set.insert_full(name) else {
            return Err(NoMemory);
        };
        Ok(())
    }
}

/// The byte may stand in a name: a letter of the alphabet, a digit, `_` or `-`.
fn is_name_byte(byte: u8) -> bool
    ensures { result ≡ is_name_byte byte }
{
    matches!(byte, b'A'..=b'Z' | b'a'..=b'z' | b'0'..=b'9' | b'_' | b'-')
}

/// The bytes keep the rule for names: 1 to [`MOST_NAME_BYTES`] of A to Z, a to z, 0 to 9, `_` and `-`.
///
/// This project's own.
pub fn is_name(name: &[u8]) -> bool
    ensures { result ≡ is_name name.now }
{
    1 <= name.len() && name.len() <= MOST_NAME_BYTES && all_name_bytes(name)
}

/// Each of the bytes may stand in a name.
fn all_name_bytes(name: &[u8]) -> bool
    ensures { result ≡ list_all is_name_byte name.now }
{
    name.iter().all(|byte| is_name_byte(*byte))
}
