//! The links of a plan, row by row.

ghost use Rattle.std.specs.Prelude.{◌≡◌, ◌≢◌, [], ◌∷◌, ◌++◌, ◌<◌, ◌≤◌, ◌&&◌, ◌||◌, not, false, length, map, is_none, IsTrue, IfSome, IfOk, OnOk};
ghost use Rattle.sync_topo.specs.Limits.{link_limit, least_delay, greatest_delay, greatest_priority};
ghost use Rattle.sync_topo.specs.RowValues.{number_or, link_from};
ghost use Rattle.sync_topo.specs.Bundles.{join_same};
ghost use Rattle.sync_topo.specs.Rules.{is_outside, is_bad_bundle, has_room, link_rules};
ghost use Rattle.sync_topo.specs.private.Ends.{end_rules, link_with};
ghost use Rattle.sync_topo.specs.private.Steps.{Follows, rows_from, link_rules_after};
ghost use Rattle.sync_topo.specs.Names.{is_name, is_named, link_names};
ghost use Rattle.sync_topo.specs.WellFormed.{JoinsTwo};

use crate::error::PlanErr;
use crate::input::LineId;
use crate::link::Link;
use crate::names::is_name;
use crate::parts::{PlanTables, row_after};
use crate::place::Section;
use crate::rows::LinkRow;
use crate::values::{number_within, priority_within};
use sync_ql::limits::{GREATEST_DELAY, LEAST_DELAY};
use sync_text::{NoAnswer, NoMemory, Rows};

/// The delay of a line that names none, in milliseconds.
const DEFAULT_DELAY: u32 = 1;

impl PlanTables {
    ghost use Rattle.sync_topo.specs.Indexed.{topology};
    ghost use Rattle.sync_topo.specs.private.Indexed.{IsIndexed, MayLink};

    /// Puts the links of all rows, in order, into parts that hold no links and sources yet.
    ///
    /// After a refusal the parts are spent.
    pub(crate) fn add_links(&mut self, rows: Rows<LinkRow>) -> Result<(), NoAnswer<PlanErr>>
        requires indexed { IsIndexed self.old }
        requires no_links { self.old.links.items ≡ [] }
        requires no_sources { self.old.sources.items ≡ [] }
        requires within { length rows ≤ link_limit }
        ensures rules { Follows
            (rows_from (link_rules_after self.old.option self.old.elements.items) [] rows) result }
        ensures indexed { OnOk result (IsIndexed self.new) }
        ensures links { OnOk result
            (self.new.links.items ≡ map (link_from self.old.elements.items) rows) }
        ensures option { OnOk result (self.new.option ≡ self.old.option) }
        ensures elements { OnOk result (self.new.elements.items ≡ self.old.elements.items) }
        ensures sources { OnOk result (self.new.sources.items ≡ []) }
    {
        for row in rows.into_vec() {
            let link = self.link_of(row)?;
            self.add_link(link)?;
        }
        Ok(())
    }

    /// The link of a row, which may come next.
    fn link_of(&self, row: LinkRow) -> Result<Link, NoAnswer<PlanErr>>
        requires indexed { IsIndexed self.now }
        requires no_sources { self.now.sources.items ≡ [] }
        ensures rules { Follows (link_rules (topology self.now) row) result }
        ensures link { IfOk result (λ link. link ≡ link_from self.now.elements.items row) }
        ensures may_link { IfOk result (MayLink (topology self.now)) }
    {
        let place = row_after(Section::Links, self.links.len());
        let ends = match self.ends_of(&row) {
            Ok(ends) => ends,
            Err(error) => {
                drop(row);
                return Err(error);
            }
        };
        let link = ends.link(row);
        if !self.may_bundle(&link) {
            drop(link);
            return Err(NoAnswer::Refused(PlanErr::Bundle(place)));
        }
        if !self.has_room_for(&link) {
            drop(link);
            return Err(NoAnswer::Refused(PlanErr::Limit(place)));
        }
        Ok(link)
    }

    /// The ends of a row's link, where the row keeps the rules for its name, its ends and its numbers.
    fn ends_of(&self, row: &LinkRow) -> Result<LinkEnds, NoAnswer<PlanErr>>
        requires indexed { IsIndexed self.now }
        ensures rules { Follows (end_rules (link_rules (topology self.now) row.now)) result }
        ensures link { IfOk result (λ ends. link_with ends row.now
            ≡ link_from self.now.elements.items row.now) }
        ensures named { OnOk result (IsTrue (is_name row.now.name)) }
        ensures fresh { OnOk result
            (is_named (link_names self.now.links.items) row.now.name ≡ false) }
        ensures joins { IfOk result
            (λ ends. JoinsTwo (length self.now.elements.items) (link_with ends row.now)) }
    {
        let place = row_after(Section::Links, self.links.len());
        if !is_name(row.name.bytes()) {
            return Err(NoAnswer::Refused(PlanErr::Name(place)));
        }
        if self.link_names.has(row.name.bytes()) {
            return Err(NoAnswer::Refused(PlanErr::Twice(place)));
        }
        let Some(a) = self.element_named(&row.a) else {
            return Err(NoAnswer::Refused(PlanErr::NoElement(place)));
        };
        let Some(b) = self.element_named(&row.b) else {
            return Err(NoAnswer::Refused(PlanErr::NoElement(place)));
        };
        if row.a.bytes() == row.b.bytes() {
            return Err(NoAnswer::Refused(PlanErr::SelfLink(place)));
        }
        match numbers_of(row) {
            Some(numbers) => Ok(LinkEnds { a, b, numbers }),
            None => Err(NoAnswer::Refused(PlanErr::Range(place))),
        }
    }

    /// The link names no bundle; or the bundle's name keeps the rule for names, and its earlier links
    /// join the same two elements.
    fn may_bundle(&self, link: &Link) -> bool
        requires { IsIndexed self.now }
        ensures { result ≡ not (is_bad_bundle self.now.links.items link.now) }
    {
        let Some(name) = &link.bundle else {
            return true;
        };
        if !is_name(name.bytes()) {
            return false;
        }
        // The earlier links of a bundle join the same two elements, so its first link tells.
        match self.bundles.first(name.bytes()) {
            Some(first) => join_same(&self.links[first as usize], link),
            None => true,
        }
    }

    /// Neither end of the link gets more inputs than an element may have.
    fn has_room_for(&self, link: &Link) -> bool
        requires indexed { IsIndexed self.now }
        requires no_sources { self.now.sources.items ≡ [] }
        requires a_within { link.now.a < length self.now.elements.items }
        requires b_within { link.now.b < length self.now.elements.items }
        requires apart { link.now.a ≢ link.now.b }
        ensures { let longer = record (topology self.now)
            { links = self.now.links.items ++ link.now ∷ [] } in
            result ≡ (has_room longer link.now.a && has_room longer link.now.b) }
    {
        self.has_room(link.a, link.priority_a) && self.has_room(link.b, link.priority_b)
    }

    /// Puts a link at the end.
    fn add_link(&mut self, link: Link) -> Result<(), NoMemory>
        requires indexed { IsIndexed self.old }
        requires no_sources { self.old.sources.items ≡ [] }
        requires may_link { MayLink (topology self.old) link }
        requires room { length self.old.links.items < link_limit }
        ensures indexed { OnOk result (IsIndexed self.new) }
        ensures option { OnOk result (self.new.option ≡ self.old.option) }
        ensures elements { OnOk result (self.new.elements.items ≡ self.old.elements.items) }
        ensures links { OnOk result (self.new.links.items ≡ self.old.links.items ++ link ∷ []) }
        ensures sources { OnOk result (self.new.sources.items ≡ []) }
    {
        let line = 2 * self.links.len() as u32;
        self.link_names.add(link.name.bytes())?;
        self.bundles.add(&link.bundle)?;
        self.wiring
            .add_line(LineId(line), link.a, link.b, link.priority_b)?;
        self.wiring
            .add_line(LineId(line + 1), link.b, link.a, link.priority_a)?;
        let Ok(()) = self.links.push(link) else {
            return Err(NoMemory);
        };
        Ok(())
    }
}

/// The two links join the same two elements, whichever end is a.
fn join_same(one: &Link, other: &Link) -> bool
    ensures { result ≡ join_same one.now other.now }
{
    (one.a == other.a && one.b == other.b) || (one.a == other.b && one.b == other.a)
}

/// The priorities and the delays of a link.
#[derive(Clone, Copy)]
struct LinkNumbers {
    priority_a: u8,
    priority_b: u8,
    delay_a: u32,
    delay_b: u32,
}

/// The two elements that a link joins, and its numbers.
#[derive(Clone, Copy)]
struct LinkEnds {
    a: u32,
    b: u32,
    numbers: LinkNumbers,
}

impl LinkEnds {
    /// The link of a row that has these ends.
    fn link(self, row: LinkRow) -> Link
        ensures { result ≡ link_with self row }
    {
        let numbers = self.numbers;
        Link {
            name: row.name,
            a: self.a,
            b: self.b,
            priority_a: numbers.priority_a,
            priority_b: numbers.priority_b,
            delay_a: numbers.delay_a,
            delay_b: numbers.delay_b,
            bundle: row.bundle,
        }
    }
}

/// The numbers of a link row; `None` where one is outside its limits.
fn numbers_of(row: &LinkRow) -> Option<LinkNumbers>
    ensures none { is_none result ≡ (is_outside 0 greatest_priority row.now.priority_a
        || is_outside 0 greatest_priority row.now.priority_b
        || is_outside least_delay greatest_delay row.now.delay_a
        || is_outside least_delay greatest_delay row.now.delay_b) }
    ensures numbers { IfSome result (λ numbers. numbers ≡ record {
      priority_a = number_or 0 row.now.priority_a;
      priority_b = number_or 0 row.now.priority_b;
      delay_a = number_or 1 row.now.delay_a;
      delay_b = number_or 1 row.now.delay_b;
    }) }
    ensures priority_a_fits { IfSome result (λ numbers. numbers.priority_a ≤ greatest_priority) }
    ensures priority_b_fits { IfSome result (λ numbers. numbers.priority_b ≤ greatest_priority) }
    ensures least_delay_a { IfSome result (λ numbers. least_delay ≤ numbers.delay_a) }
    ensures greatest_delay_a { IfSome result (λ numbers. numbers.delay_a ≤ greatest_delay) }
    ensures least_delay_b { IfSome result (λ numbers. least_delay ≤ numbers.delay_b) }
    ensures greatest_delay_b { IfSome result (λ numbers. numbers.delay_b ≤ greatest_delay) }
{
    let priority_a = priority_within(row.priority_a, 0)?;
    let priority_b = priority_within(row.priority_b, 0)?;
    let delay_a = number_within(row.delay_a, DEFAULT_DELAY, LEAST_DELAY, GREATEST_DELAY)?;
    let delay_b = number_within(row.delay_b, DEFAULT_DELAY, LEAST_DELAY, GREATEST_DELAY)?;
    Some(LinkNumbers {
        priority_a,
        priority_b,
        delay_a,
        delay_b,
    })
}
