// What a table of the document has at each key of its section. Each value is moved into the slot of
// its key; of each section there are slots of their own, in the order of the keys.

ghost use Rattle.std.specs.Prelude.{◌≡◌, Some, is_none};
ghost use Rattle.std.specs.Option.{option_or};
ghost use Rattle.toml.specs.View.{view, table_view};
ghost use Rattle.sync_topo.specs.declared.place.Section.TheVariants.{Head, Elements, Links, Sources};
ghost use Rattle.plan_rows.specs.declared.version.Version.TheVariants.{Two};
ghost use Rattle.plan_rows.specs.Format.{keys_of};
ghost use Rattle.plan_rows.specs.Slots.{put, is_new, no_slots, seen};
ghost use Rattle.plan_rows.specs.private.Slots.{slots_of};
ghost use Rattle.plan_rows.specs.Values.{head_slots, element_slots, link_slots, source_slots};
ghost use Rattle.plan_rows.specs.private.Values.{without_bundle, of_version};

use crate::version::Version;
use toml::{Table, Value};

/// Keeps the value, unless the slot has one. It tells whether it had none.
#[inline]
pub fn keep(slot: &mut Option<Value>, value: Value) -> bool
    ensures kept { seen slot.new ≡ option_or (seen slot.old) (Some (view value)) }
    ensures new { result ≡ is_none (seen slot.old) }
{
    if slot.is_some() {
        return false;
    }
    *slot = Some(value);
    true
}

/// What the head of a document has.
#[derive(Drop)]
pub struct HeadValues {
    pub version: Option<Value>,
    pub option: Option<Value>,
    pub elements: Option<Value>,
    pub links: Option<Value>,
    pub sources: Option<Value>,
    /// It has another key.
    pub other: bool,
}

impl HeadValues {
    /// Nothing yet.
    pub fn new() -> HeadValues
        ensures { head_slots result ≡ no_slots (keys_of Two Head) }
    {
        HeadValues {
            version: None,
            option: None,
            elements: None,
            links: None,
            sources: None,
            other: false,
        }
    }

    /// What this document has.
    #[tactic(auto, using(crate::proofs::ValueFacts::head_taken))]
    pub(crate) fn of_table(document: Table) -> HeadValues
        ensures { head_slots result ≡ slots_of (keys_of Two Head) (table_view document) }
    {
        let mut values = HeadValues::new();
        for (key, value) in document {
            values.put(key.as_str(), value);
        }
        values
    }

    /// Puts the value at a key into its slot. It tells whether the key is one of the section that had none.
    pub fn put(&mut self, key: &str, value: Value) -> bool
        ensures put { head_slots self.new
            ≡ put (keys_of Two Head) (head_slots self.old) key.now (view value) }
        ensures new { result ≡ is_new (keys_of Two Head) (head_slots self.old).values key.now }
    {
        match key {
            "version" => keep(&mut self.version, value),
            "option" => keep(&mut self.option, value),
            "element" => keep(&mut self.elements, value),
            "link" => keep(&mut self.links, value),
            "source" => keep(&mut self.sources, value),
            _ => {
                self.other = true;
                false
            }
        }
    }
}

/// What the table of an element has.
#[derive(Drop)]
pub struct ElementValues {
    pub name: Option<Value>,
    pub own: Option<Value>,
    pub floor: Option<Value>,
    pub holdoff: Option<Value>,
    pub wtr: Option<Value>,
    /// It has another key.
    pub other: bool,
}

impl ElementValues {
    /// Nothing yet.
    pub fn new() -> ElementValues
        ensures { element_slots result ≡ no_slots (keys_of Two Elements) }
    {
        ElementValues {
            name: None,
            own: None,
            floor: None,
            holdoff: None,
            wtr: None,
            other: false,
        }
    }

    /// What this table has.
    #[tactic(auto, using(crate::proofs::ValueFacts::element_taken))]
    pub(crate) fn of_table(fields: Table) -> ElementValues
        ensures { element_slots result ≡ slots_of (keys_of Two Elements) (table_view fields) }
    {
        let mut values = ElementValues::new();
        for (key, value) in fields {
            values.put(key.as_str(), value);
        }
        values
    }

    /// Puts the value at a key into its slot. It tells whether the key is one of the section that had none.
    pub fn put(&mut self, key: &str, value: Value) -> bool
        ensures put { element_slots self.new
            ≡ put (keys_of Two Elements) (element_slots self.old) key.now (view value) }
        ensures new { result ≡ is_new (keys_of Two Elements) (element_slots self.old).values key.now }
    {
        match key {
            "name" => keep(&mut self.name, value),
            "own" => keep(&mut self.own, value),
            "floor" => keep(&mut self.floor, value),
            "holdoff" => keep(&mut self.holdoff, value),
            "wtr" => keep(&mut self.wtr, value),
            _ => {
                self.other = true;
                false
            }
        }
    }
}

/// What the table of a link has.
#[derive(Drop)]
pub struct LinkValues {
    pub name: Option<Value>,
    pub a: Option<Value>,
    pub b: Option<Value>,
    pub priority_a: Option<Value>,
    pub priority_b: Option<Value>,
    pub delay_a: Option<Value>,
    pub delay_b: Option<Value>,
    pub bundle: Option<Value>,
    /// It has another key.
    pub other: bool,
}

impl LinkValues {
    /// Nothing yet.
    pub fn new() -> LinkValues
        ensures { link_slots result ≡ no_slots (keys_of Two Links) }
    {
        LinkValues {
            name: None,
            a: None,
            b: None,
            priority_a: None,
            priority_b: None,
            delay_a: None,
            delay_b: None,
            bundle: None,
            other: false,
        }
    }

    /// What this table has, with the keys of the second version.
    #[tactic(auto, using(crate::proofs::ValueFacts::link_taken))]
    pub(crate) fn of_table(fields: Table) -> LinkValues
        ensures { link_slots result ≡ slots_of (keys_of Two Links) (table_view fields) }
    {
        let mut values = LinkValues::new();
        for (key, value) in fields {
            values.put(key.as_str(), value);
        }
        values
    }

    /// Puts the value at a key into its slot. It tells whether the key is one of the section that had none.
    pub fn put(&mut self, key: &str, value: Value) -> bool
        ensures put { link_slots self.new
            ≡ put (keys_of Two Links) (link_slots self.old) key.now (view value) }
        ensures new { result ≡ is_new (keys_of Two Links) (link_slots self.old).values key.now }
    {
        match key {
            "name" => keep(&mut self.name, value),
            "a" => keep(&mut self.a, value),
            "b" => keep(&mut self.b, value),
            "priority_a" => keep(&mut self.priority_a, value),
            "priority_b" => keep(&mut self.priority_b, value),
            "delay_a" => keep(&mut self.delay_a, value),
            "delay_b" => keep(&mut self.delay_b, value),
            "bundle" => keep(&mut self.bundle, value),
            _ => {
                self.other = true;
                false
            }
        }
    }

    /// What it has by the keys of a version: in the first, `bundle` is an unknown one.
    pub(crate) fn of_version(self, version: Version) -> LinkValues
        ensures { link_slots result ≡ of_version version (link_slots self) }
    {
        match version {
            Version::One => self.without_bundle(),
            Version::Two => self,
        }
    }

    /// The same, where `bundle` is an unknown key.
    fn without_bundle(mut self) -> LinkValues
        ensures { link_slots result ≡ without_bundle (link_slots self) }
    {
        self.other = self.other || self.bundle.is_some();
        self.bundle = None;
        self
    }
}

/// What the table of a source has.
#[derive(Drop)]
pub struct SourceValues {
    pub name: Option<Value>,
    pub at: Option<Value>,
    pub level: Option<Value>,
    pub priority: Option<Value>,
    /// It has another key.
    pub other: bool,
}

impl SourceValues {
    /// Nothing yet.
    pub fn new() -> SourceValues
        ensures { source_slots result ≡ no_slots (keys_of Two Sources) }
    {
        SourceValues {
            name: None,
            at: None,
            level: None,
            priority: None,
            other: false,
        }
    }

    /// What this table has.
    #[tactic(auto, using(crate::proofs::ValueFacts::source_taken))]
    pub(crate) fn of_table(fields: Table) -> SourceValues
        ensures { source_slots result ≡ slots_of (keys_of Two Sources) (table_view fields) }
    {
        let mut values = SourceValues::new();
        for (key, value) in fields {
            values.put(key.as_str(), value);
        }
        values
    }

    /// Puts the value at a key into its slot. It tells whether the key is one of the section that had none.
    pub fn put(&mut self, key: &str, value: Value) -> bool
        ensures put { source_slots self.new
            ≡ put (keys_of Two Sources) (source_slots self.old) key.now (view value) }
        ensures new { result ≡ is_new (keys_of Two Sources) (source_slots self.old).values key.now }
    {
        match key {
            "name" => keep(&mut self.name, value),
            "at" => keep(&mut self.at, value),
            "level" => keep(&mut self.level, value),
            "priority" => keep(&mut self.priority, value),
            _ => {
                self.other = true;
                false
            }
        }
    }
}
