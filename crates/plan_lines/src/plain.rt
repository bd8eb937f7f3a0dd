// The rows of a plain text, line by line and with no document between. What isn't plain isn't
// refused here: it is left to the document.

ghost use Rattle.std.specs.Prelude.{◌≡◌, ◌==◌, ◌<◌, ◌∷◌, ◌++◌, ℕ, [], suc, true, length, slice_index, codes, IfOk, OnOk, IsTrue, Some};
ghost use Rattle.toml.specs.Data.{no_items};
ghost use Rattle.toml.specs.Tables.{Document, no_nodes, close};
ghost use Rattle.toml.specs.Parse.{val, expression, line, items, parse_document};
ghost use Rattle.toml.specs.View.{view};
ghost use Rattle.plan_lines.specs.private.Lines.{key_of, given_in, Follows, Takes, TakesValue, Closes, Puts, PutsHead, Gives, MakeRows, ReadsEntry, ReadsItems};
ghost use Rattle.plan_lines.specs.Plain.{ArePlainRows};

use crate::entry::{Entry, EntryKind, SectionRows};
use crate::glance::looks_plain;
use crate::tokens::{Stop, after_element, key_equals, line_end, plain_value};
use plan_rows::{HeadValues, Version, fits_option, fits_version, keep, option_in, version_in};
use std::alloc::Global;
use sync_topo::PlanRows;
use toml::Value;
use toml_parser::text::{first, skip, skip_blank};

/// What the lines so far say.
pub(crate) struct LinesRead {
    /// What the head has. Where it has the entries of a section, an empty array stands for them.
    pub(crate) head: HeadValues,
    /// The rows of the entries that are read.
    pub(crate) rows: SectionRows,
    /// The entry that is read, and none in the head.
    pub(crate) current: Option<Entry>,
}

// Written out, so that a way out of a function drops the whole in one step.
impl Drop for LinesRead {
    fn drop(self) {
        let LinesRead {
            head,
            rows,
            current,
        } = self;
        drop(head);
        drop(rows);
        drop(current);
    }
}

/// The section of a header, and what stands after it.
fn header_of(s: &str) -> Result<(EntryKind, &str), Stop>
    ensures read { IfOk result (λ p. s.now ≡ codes "[[" ++ (key_of p.0 ++ (codes "]]" ++ p.1.now))) }
{
    if let Some(rest) = s.strip_prefix("[[element]]") {
        return Ok((EntryKind::Element, rest));
    }
    if let Some(rest) = s.strip_prefix("[[link]]") {
        return Ok((EntryKind::Link, rest));
    }
    match s.strip_prefix("[[source]]") {
        Some(rest) => Ok((EntryKind::Source, rest)),
        None => Err(Stop::NotPlain),
    }
}

/// The section of a key of the head.
fn kind_of_key(key: &str) -> Result<EntryKind, Stop>
    ensures { IfOk result (λ kind. key.now ≡ key_of kind) }
{
    match key {
        "element" => Ok(EntryKind::Element),
        "link" => Ok(EntryKind::Link),
        "source" => Ok(EntryKind::Source),
        _ => Err(Stop::NotPlain),
    }
}

/// An entry of a section that is written as an inline table.
fn inline_entry(alloc: Global, kind: EntryKind, s: &str) -> Result<(Entry, &str), Stop>
    ensures read { IfOk result (λ p. ReadsEntry kind (val 79 s.now) p.0 p.1.now) }
    ensures shorter { IfOk result (λ p. length p.1.now < length s.now) }
{
    if first(s) != b'{' {
        return Err(Stop::NotPlain);
    }
    let mut entry = Entry::new(kind);
    let mut rest = skip(s, 1);
    'members: loop {
        let start = skip_blank(rest, true);
        if first(start) == b'}' {
            return Ok((entry, skip(start, 1)));
        }
        let (key, at_value) = key_equals(start)?;
        let (value, after) = plain_value(alloc, at_value)?;
        if !entry.put(key, value) {
            return Err(Stop::NotPlain);
        }
        rest = after_element(after, b'}')?;
    }
}

/// Puts the rows of the rest of an array of inline tables at the end, and gives what stands after
/// the array.
fn add_items<'a>(
    rows: &mut SectionRows,
    alloc: Global,
    kind: EntryKind,
    s: &'a str,
) -> Result<&'a str, Stop>
    ensures read { IfOk result (λ rest. ReadsItems kind (items (val 79) (suc (length s.now)) no_items s.now) rest.now rows.old rows.new) }
    ensures shorter { IfOk result (λ rest. length rest.now < length s.now) }
{
    let mut rest = s;
    'items: loop {
        let start = skip_blank(rest, true);
        if first(start) == b']' {
            return Ok(skip(start, 1));
        }
        let (entry, after) = inline_entry(alloc, kind, start)?;
        entry.add_to(alloc, rows)?;
        rest = after_element(after, b']')?;
    }
}

/// Puts the value at a key of the head that takes one, and tells whether the key is such and had none.
fn put_in_head(head: &mut HeadValues, key: &str, value: Value) -> bool
    ensures { IsTrue result → PutsHead key.now (view value) head.old head.new }
{
    match key {
        "version" => keep(&mut head.version, value),
        "option" => keep(&mut head.option, value),
        _ => false,
    }
}

/// Notes that the head has the entries of a section.
fn give(head: &mut HeadValues, alloc: Global, kind: EntryKind)
    ensures { Gives kind head.old head.new }
{
    let noted = Some(Value::Array(Vec::new(alloc)));
    match kind {
        EntryKind::Element => head.elements = noted,
        EntryKind::Link => head.links = noted,
        EntryKind::Source => head.sources = noted,
    }
}

/// The rows that a head and the rows of its sections make.
fn rows_by(head: HeadValues, rows: SectionRows) -> Result<PlanRows, Stop>
    ensures { IfOk result (λ all. MakeRows head rows all) }
{
    if !fits_version(&head.version) || !fits_option(&head.option) {
        return Err(Stop::NotPlain);
    }
    if rows.bundled && version_in(&head.version) == Version::One {
        return Err(Stop::NotPlain);
    }
    Ok(PlanRows {
        option: option_in(&head.option),
        elements: rows.elements,
        links: rows.links,
        sources: rows.sources,
    })
}

impl LinesRead {
    /// No lines.
    fn new(alloc: Global) -> LinesRead
        ensures { Follows result (no_nodes, []) }
    {
        LinesRead {
            head: HeadValues::new(),
            rows: SectionRows::new(alloc),
            current: None,
        }
    }

    /// Reads the line at the front, and gives what stands after its expression.
    fn line<'a>(&mut self, alloc: Global, s: &'a str) -> Result<&'a str, Stop>
        ensures read { IfOk result (λ rest. (doc : Document) → Follows self.old doc → Takes (line s.now) doc rest.now self.new) }
        ensures shorter { IfOk result (λ rest. length rest.now < length s.now) }
    {
        let rest = self.expression(alloc, s)?;
        let end = line_end(rest)?;
        Ok(end)
    }

    /// Reads an expression.
    fn expression<'a>(&mut self, alloc: Global, s: &'a str) -> Result<&'a str, Stop>
        ensures read { IfOk result (λ rest. (doc : Document) → Follows self.old doc → Takes (expression s.now) doc rest.now self.new) }
        ensures shorter { IfOk result (λ rest. length rest.now < length s.now) }
    {
        if first(s) == b'[' {
            return self.header(alloc, s);
        }
        let (key, at_value) = key_equals(s)?;
        let rest = self.pair(alloc, key, at_value)?;
        Ok(rest)
    }

    /// Reads a header: what was open is closed, and an entry opens.
    fn header<'a>(&mut self, alloc: Global, s: &'a str) -> Result<&'a str, Stop>
        ensures read { IfOk result (λ rest. (doc : Document) → Follows self.old doc → Takes (expression s.now) doc rest.now self.new) }
        ensures shorter { IfOk result (λ rest. length rest.now < length s.now) }
    {
        let (kind, rest) = header_of(s)?;
        if self.is_given(kind) {
            return Err(Stop::NotPlain);
        }
        self.close(alloc)?;
        self.current = Some(Entry::new(kind));
        Ok(rest)
    }

    /// The head has the entries of this section.
    fn is_given(&self, kind: EntryKind) -> bool
        ensures { result ≡ given_in kind self.now.head }
    {
        match kind {
            EntryKind::Element => self.head.elements.is_some(),
            EntryKind::Link => self.head.links.is_some(),
            EntryKind::Source => self.head.sources.is_some(),
        }
    }

    /// Puts the row of the entry that is open, if one is.
    fn close(&mut self, alloc: Global) -> Result<(), Stop>
        ensures { OnOk result (Closes self.old self.new) }
    {
        match self.current.take() {
            Some(entry) => entry.add_to(alloc, &mut self.rows),
            None => Ok(()),
        }
    }

    /// Reads the value at a key.
    fn pair<'a>(&mut self, alloc: Global, key: &str, s: &'a str) -> Result<&'a str, Stop>
        ensures read { IfOk result (λ rest. (doc : Document) → Follows self.old doc → TakesValue (val 80 s.now) key.now doc rest.now self.new) }
        ensures shorter { IfOk result (λ rest. length rest.now < length s.now) }
    {
        if first(s) == b'[' {
            return self.entries(alloc, key, s);
        }
        let (value, rest) = plain_value(alloc, s)?;
        self.put(key, value)?;
        Ok(rest)
    }

    /// Puts the value at a key, of the head or of the entry that is open.
    fn put(&mut self, key: &str, value: Value) -> Result<(), Stop>
        ensures { OnOk result (Puts key.now (view value) self.old self.new) }
    {
        let is_new = match &mut self.current {
            Some(entry) => entry.put(key, value),
            None => put_in_head(&mut self.head, key, value),
        };
        if is_new { Ok(()) } else { Err(Stop::NotPlain) }
    }

    /// Reads the array of a section in the head.
    fn entries<'a>(&mut self, alloc: Global, key: &str, s: &'a str) -> Result<&'a str, Stop>
        requires { slice_index s.now 0 ≡ 91 }
        ensures read { IfOk result (λ rest. (doc : Document) → Follows self.old doc → TakesValue (val 80 s.now) key.now doc rest.now self.new) }
        ensures shorter { IfOk result (λ rest. length rest.now < length s.now) }
    {
        let kind = kind_of_key(key)?;
        if self.current.is_some() || self.is_given(kind) {
            return Err(Stop::NotPlain);
        }
        give(&mut self.head, alloc, kind);
        let rest = add_items(&mut self.rows, alloc, kind, skip(s, 1))?;
        Ok(rest)
    }

    /// The rows of a text that is over.
    fn finish(mut self, alloc: Global) -> Result<PlanRows, Stop>
        ensures { IfOk result (λ rows. (doc : Document) → Follows self doc → ArePlainRows (Some (close doc.0)) rows) }
    {
        self.close(alloc)?;
        let LinesRead {
            head,
            rows,
            current: _,
        } = self;
        rows_by(head, rows)
    }
}

/// The text begins with the first byte of a byte order mark.
fn may_begin_with_mark(text: &str) -> bool
    ensures { result ≡ (slice_index text.now 0 == 0xEF) }
{
    first(text) == 0xEF
}

/// The rows of a text whose lines are all plain.
///
/// Plain are headers `[[element]]`, `[[link]]` and `[[source]]`, bare keys with strings and integers, each once
/// in its table, and in the head arrays of inline tables of such keys, where no rule for tables is broken;
/// comments, empty lines and white space as TOML has them. `NotPlain` says nothing of the text.
/// This project's own.
pub fn plain_rows(alloc: Global, text: &str) -> Result<PlanRows, Stop>
    ensures { IfOk result (ArePlainRows (parse_document text.now)) }
{
    if may_begin_with_mark(text) || !looks_plain(text) {
        return Err(Stop::NotPlain);
    }
    let mut read = LinesRead::new(alloc);
    let mut rest = text;
    'lines: loop {
        let start = skip_blank(rest, true);
        if start.is_empty() {
            return read.finish(alloc);
        }
        rest = read.line(alloc, start)?;
    }
}
