ghost use Rattle.std.specs.Prelude.{◌≡◌, [], ◌∷◌, ◌++◌, IfOk, OnOk, OnErr};
ghost use Rattle.std.specs.Fmt.{decimal};

use crate::errors::NoMemory;
use crate::short::Short;
use itoa::Buffer;
use std::alloc::Global;
use std::marker::Model;

/// Where the bytes of a text stand.
#[derive(Debug, Drop)]
enum Bytes {
    InPlace(Short),
    Apart(Vec<u8>),
}

/// Bytes that grow at their end. Contracts see the list of the bytes.
///
/// A text keeps its allocator, and up to 16 bytes in itself: most names of a plan are no longer, and take
/// no memory. It need not be UTF-8.
#[derive(Debug)]
pub struct Text {
    alloc: Global,
    kept: Bytes,
}

// Written out, so that a way out of a function drops the whole in one step and not field by field.
impl Drop for Text {
    fn drop(self) {
        let Text { alloc: _, kept } = self;
        drop(kept);
    }
}

impl Model for Text {
    ghost use Rattle.std.specs.Prelude.{ℕ, List};
    ghost use Rattle.sync_text.specs.Kept.{bytes_of};

    ghost Value = { List ℕ };

    ghost view = { λ text. bytes_of text.kept };
}

impl Text {
    /// The empty text. It takes no memory.
    pub fn new(alloc: Global) -> Text
        ensures { result ≡ [] }
    {
        Text {
            alloc,
            kept: Bytes::InPlace(Short::new()),
        }
    }

    /// A text of its own with these bytes. Up to 16 take no memory.
    pub fn from_bytes(alloc: Global, bytes: &[u8]) -> Result<Text, NoMemory>
        ensures { IfOk result (λ text. text ≡ bytes.now) }
    {
        let mut text = Text::new(alloc);
        text.put(bytes)?;
        Ok(text)
    }

    /// Puts the bytes at the end.
    ///
    /// A refused put leaves the text as it was.
    pub fn put(&mut self, bytes: &[u8]) -> Result<(), NoMemory>
        ensures ok { OnOk result (self.new ≡ self.old ++ bytes.now) }
        ensures err { OnErr result (self.new ≡ self.old) }
    {
        match &mut self.kept {
            Bytes::Apart(kept) => {
                kept.extend_from_slice(bytes)?;
                Ok(())
            }
            Bytes::InPlace(kept) => {
                if !kept.put(bytes) {
                    let apart = moved_apart(self.alloc, kept.bytes(), bytes)?;
                    self.kept = Bytes::Apart(apart);
                }
                Ok(())
            }
        }
    }

    /// Puts a number at the end, in decimal digits without a leading zero.
    ///
    /// A refused put leaves the text as it was. This project's own form of numbers.
    pub fn put_number(&mut self, number: u64) -> Result<(), NoMemory>
        ensures ok { OnOk result (self.new ≡ self.old ++ decimal number) }
        ensures err { OnErr result (self.new ≡ self.old) }
    {
        let mut digits = Buffer::new();
        self.put(digits.format(number).as_bytes())
    }

    /// All the bytes.
    pub fn bytes(&self) -> &[u8]
        ensures { result.now ≡ self.now }
    {
        match &self.kept {
            Bytes::InPlace(kept) => kept.bytes(),
            Bytes::Apart(kept) => kept.as_slice(),
        }
    }
}

/// The bytes of a text, and behind them those for which it has no place, in memory of their own.
fn moved_apart(alloc: Global, kept: &[u8], bytes: &[u8]) -> Result<Vec<u8>, NoMemory>
    ensures { IfOk result (λ apart. apart.items ≡ kept.now ++ bytes.now) }
{
    let mut apart = Vec::from_slice(alloc, kept)?;
    apart.extend_from_slice(bytes)?;
    Ok(apart)
}

impl From<Vec<u8>> for Text {
    ghost from_gives = { λ bytes text. text ≡ bytes.items };

    /// The text of these bytes. It takes no memory.
    fn from(bytes: Vec<u8>) -> Text {
        let alloc = *bytes.allocator();
        let mut short = Short::new();
        let kept = if short.put(bytes.as_slice()) {
            Bytes::InPlace(short)
        } else {
            Bytes::Apart(bytes)
        };
        Text { alloc, kept }
    }
}

/// Items that grow at their end. Contracts see the list of the items.
///
/// A list of rows keeps its allocator.
#[derive(Debug, Drop)]
pub struct Rows<T> {
    kept: Vec<T>,
}

impl<T> Model for Rows<T> {
    ghost use Rattle.std.specs.Prelude.{List};

    ghost Value = { List T };

    ghost view = { λ rows. rows.kept.items };
}

impl<T> Rows<T> {
    /// No rows. It takes no memory.
    pub fn new(alloc: Global) -> Rows<T>
        ensures { result ≡ [] }
    {
        Rows {
            kept: Vec::new(alloc),
        }
    }

    /// No rows, with room for so many. It takes memory for them.
    pub fn with_capacity(alloc: Global, count: usize) -> Result<Rows<T>, NoMemory>
        ensures { IfOk result (λ rows. rows ≡ []) }
    {
        let kept = Vec::with_capacity(alloc, count)?;
        Ok(Rows { kept })
    }

    /// All the items, in the order in which they were pushed.
    pub fn as_slice(&self) -> &[T]
        ensures { result.now ≡ self.now }
    {
        self.kept.as_slice()
    }

    /// The items themselves, in the order in which they were pushed. It takes no memory.
    pub fn into_vec(self) -> Vec<T>
        ensures { result.items ≡ self }
    {
        self.kept
    }
}

impl<T: Drop> Rows<T> {
    /// Puts the item at the end.
    ///
    /// A refused push drops the item and leaves the rows as they were.
    pub fn push(&mut self, item: T) -> Result<(), NoMemory>
        ensures ok { OnOk result (self.new ≡ self.old ++ item ∷ []) }
        ensures err { OnErr result (self.new ≡ self.old) }
    {
        self.kept.push(item)?;
        Ok(())
    }
}

impl<T: Copy> Rows<T> {
    /// Takes all the items out. It keeps its room.
    pub fn clear(&mut self)
        ensures { self.new ≡ [] }
    {
        self.kept.clear();
    }

    /// The same items once more. It takes memory for them.
    pub fn try_clone(&self, alloc: Global) -> Result<Rows<T>, NoMemory>
        ensures { IfOk result (λ rows. rows ≡ self.now) }
    {
        let kept = Vec::from_slice(alloc, self.kept.as_slice())?;
        Ok(Rows { kept })
    }
}
