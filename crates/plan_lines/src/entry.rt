// An entry of any section while it is read, and the rows of the entries that are read.

ghost use Rattle.std.specs.Prelude.{◌≡◌, [], false, OnOk};
ghost use Rattle.plan_lines.specs.declared.entry.Entry.TheVariants.{Element, Link, Source};
ghost use Rattle.toml.specs.View.{view};
ghost use Rattle.plan_rows.specs.Slots.{put, is_new, no_slots};
ghost use Rattle.plan_lines.specs.private.Lines.{keys_in, kind_of, entry_slots, Adds};

use crate::tokens::Stop;
use plan_rows::{ElementValues, LinkValues, SourceValues, element_by, link_by, source_by};
use std::alloc::Global;
use sync_text::Rows;
use sync_topo::{ElementRow, LinkRow, Place, Section, SourceRow};
use toml::Value;

/// The sections that have entries.
#[derive(Clone, Copy)]
pub(crate) enum EntryKind {
    Element,
    Link,
    Source,
}

/// What an entry has so far.
pub(crate) enum Entry {
    Element(ElementValues),
    Link(LinkValues),
    Source(SourceValues),
}

// Written out, so that a way out of a function drops an entry in one step.
impl Drop for Entry {
    fn drop(self) {
        match self {
            Entry::Element(values) => drop(values),
            Entry::Link(values) => drop(values),
            Entry::Source(values) => drop(values),
        }
    }
}

impl Entry {
    /// An entry that has nothing yet.
    pub(crate) fn new(kind: EntryKind) -> Entry
        ensures kind { kind_of result ≡ kind }
        ensures slots { entry_slots result ≡ no_slots (keys_in kind) }
    {
        match kind {
            EntryKind::Element => Entry::Element(ElementValues::new()),
            EntryKind::Link => Entry::Link(LinkValues::new()),
            EntryKind::Source => Entry::Source(SourceValues::new()),
        }
    }

    /// Puts the value at a key into its slot. It tells whether the key is one of the section that had none.
    pub(crate) fn put(&mut self, key: &str, value: Value) -> bool
        ensures kind { kind_of self.new ≡ kind_of self.old }
        ensures put { entry_slots self.new
            ≡ put (keys_in (kind_of self.old)) (entry_slots self.old) key.now (view value) }
        ensures new { result ≡ is_new (keys_in (kind_of self.old)) (entry_slots self.old).values key.now }
    {
        match self {
            Entry::Element(values) => values.put(key, value),
            Entry::Link(values) => values.put(key, value),
            Entry::Source(values) => values.put(key, value),
        }
    }

    /// Puts the row of the entry at the end, where it breaks no rule.
    pub(crate) fn add_to(self, alloc: Global, rows: &mut SectionRows) -> Result<(), Stop>
        ensures { OnOk result (Adds self rows.old rows.new) }
    {
        match self {
            Entry::Element(values) => rows.add_element(alloc, values),
            Entry::Link(values) => rows.add_link(alloc, values),
            Entry::Source(values) => rows.add_source(alloc, values),
        }
    }
}

/// The rows of the entries that are read, each by the keys of the second version.
#[derive(Drop)]
pub(crate) struct SectionRows {
    pub(crate) elements: Rows<ElementRow>,
    pub(crate) links: Rows<LinkRow>,
    pub(crate) sources: Rows<SourceRow>,
    /// A link has a bundle, so that it is none in the first version.
    pub(crate) bundled: bool,
}

/// A place for what may break a rule: where an entry breaks one, its document says at which place.
fn any_place(section: Section) -> Place
    ensures { result ≡ record { section = section; row = 0 } }
{
    Place { section, row: 0 }
}

impl SectionRows {
    /// No rows.
    pub(crate) fn new(alloc: Global) -> SectionRows
        ensures elements { result.elements ≡ [] }
        ensures links { result.links ≡ [] }
        ensures sources { result.sources ≡ [] }
        ensures bundled { result.bundled ≡ false }
    {
        SectionRows {
            elements: Rows::new(alloc),
            links: Rows::new(alloc),
            sources: Rows::new(alloc),
            bundled: false,
        }
    }

    /// Puts the row of an element at the end.
    fn add_element(&mut self, alloc: Global, values: ElementValues) -> Result<(), Stop>
        ensures { OnOk result (Adds (Element values) self.old self.new) }
    {
        match element_by(alloc, any_place(Section::Elements), values) {
            Ok(row) => Ok(self.elements.push(row)?),
            Err(_) => Err(Stop::NotPlain),
        }
    }

    /// Puts the row of a link at the end.
    fn add_link(&mut self, alloc: Global, values: LinkValues) -> Result<(), Stop>
        ensures { OnOk result (Adds (Link values) self.old self.new) }
    {
        self.bundled = self.bundled || values.bundle.is_some();
        match link_by(alloc, any_place(Section::Links), values) {
            Ok(row) => Ok(self.links.push(row)?),
            Err(_) => Err(Stop::NotPlain),
        }
    }

    /// Puts the row of a source at the end.
    fn add_source(&mut self, alloc: Global, values: SourceValues) -> Result<(), Stop>
        ensures { OnOk result (Adds (Source values) self.old self.new) }
    {
        match source_by(alloc, any_place(Section::Sources), values) {
            Ok(row) => Ok(self.sources.push(row)?),
            Err(_) => Err(Stop::NotPlain),
        }
    }
}
