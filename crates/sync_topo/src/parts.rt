//! What a plan keeps, and how it is made.

ghost use Rattle.std.specs.Prelude.{◌≡◌, [], ◌∷◌, ◌++◌, ◌<◌, ◌≤◌, ◌+◌, ◌^◌, ℕ, length, slice_get, Some, None, OnOk, IfOk, IfSome, is_some, nat_lt, nat_le, if◌then◌else◌};
ghost use Rattle.sync_topo.specs.Limits.{element_limit, link_limit, source_limit, input_limit};
ghost use Rattle.sync_topo.specs.Lines.{inputs_of};
ghost use Rattle.sync_topo.specs.Names.{is_named, element_names};
ghost use Rattle.sync_topo.specs.PlanRows.{size_limits, limits_of, rules_of, first_broken};
ghost use Rattle.sync_topo.specs.Sizes.{most_elements, most_links, most_sources};
ghost use Rattle.sync_topo.specs.RowValues.{element_of_name, plan_from};
ghost use Rattle.sync_topo.specs.private.Steps.{Follows};

mod elements;
mod links;
mod sources;

use crate::bundles::Bundles;
use crate::element::Element;
use crate::error::PlanErr;
use crate::link::Link;
use crate::names::Names;
use crate::place::{Place, Section};
use crate::rows::PlanRows;
use crate::sizes::Size;
use crate::source::Source;
use crate::wiring::Wiring;
use std::alloc::Global;
use sync_ql::NetOption;
use sync_ql::limits::MOST_INPUTS;
use sync_text::{NoAnswer, NoMemory, Text};

/// What a plan keeps: what it holds, and indexes that are found from that.
#[derive(Drop)]
pub(crate) struct PlanTables {
    pub(crate) option: NetOption,
    pub(crate) elements: Vec<Element>,
    pub(crate) links: Vec<Link>,
    pub(crate) sources: Vec<Source>,
    pub(crate) element_names: Names,
    pub(crate) link_names: Names,
    pub(crate) source_names: Names,
    pub(crate) bundles: Bundles,
    pub(crate) wiring: Wiring,
}

impl PlanTables {
    ghost use Rattle.sync_topo.specs.Indexed.{topology};
    ghost use Rattle.sync_topo.specs.private.Indexed.{IsIndexed};

    /// No elements, no links and no sources, with room for those of the rows.
    fn with_room(alloc: Global, rows: &PlanRows) -> Result<PlanTables, NoMemory>
        ensures indexed { IfOk result IsIndexed }
        ensures option { IfOk result (λ parts. parts.option ≡ rows.now.option) }
        ensures no_elements { IfOk result (λ parts. parts.elements.items ≡ []) }
        ensures no_links { IfOk result (λ parts. parts.links.items ≡ []) }
        ensures no_sources { IfOk result (λ parts. parts.sources.items ≡ []) }
    {
        let mut parts = PlanTables {
            option: rows.option,
            elements: Vec::new(alloc),
            links: Vec::new(alloc),
            sources: Vec::new(alloc),
            element_names: Names::new(alloc),
            link_names: Names::new(alloc),
            source_names: Names::new(alloc),
            bundles: Bundles::new(alloc),
            wiring: Wiring::new(alloc),
        };
        match parts.make_room(rows) {
            Ok(()) => Ok(parts),
            Err(error) => {
                drop(parts);
                Err(error)
            }
        }
    }

    /// Room for what the rows say.
    fn make_room(&mut self, rows: &PlanRows) -> Result<(), NoMemory>
        ensures option { self.new.option ≡ self.old.option }
        ensures elements { self.new.elements.items ≡ self.old.elements.items }
        ensures links { self.new.links.items ≡ self.old.links.items }
        ensures sources { self.new.sources.items ≡ self.old.sources.items }
        ensures element_names { self.new.element_names ≡ self.old.element_names }
        ensures link_names { self.new.link_names ≡ self.old.link_names }
        ensures source_names { self.new.source_names ≡ self.old.source_names }
        ensures bundle_names { self.new.bundles.names ≡ self.old.bundles.names }
        ensures bundle_firsts { self.new.bundles.firsts.items ≡ self.old.bundles.firsts.items }
        ensures bundle_numbers { self.new.bundles.numbers.items ≡ self.old.bundles.numbers.items }
        ensures wiring { self.new.wiring ≡ self.old.wiring }
    {
        let elements = rows.elements.as_slice().len();
        let links = rows.links.as_slice().len();
        let sources = rows.sources.as_slice().len();
        self.elements.reserve_exact(elements)?;
        self.links.reserve_exact(links)?;
        self.sources.reserve_exact(sources)?;
        self.element_names.reserve(elements)?;
        self.link_names.reserve(links)?;
        self.source_names.reserve(sources)?;
        self.bundles.reserve(links)
    }

    /// What the rows give, or the refusal of the first rule that they break.
    pub(crate) fn of_rows(alloc: Global, rows: PlanRows) -> Result<PlanTables, NoAnswer<PlanErr>>
        ensures rules { Follows (rules_of rows) result }
        ensures indexed { IfOk result IsIndexed }
        ensures plan { IfOk result (λ parts. topology parts ≡ plan_from rows) }
    {
        check_size(Size::Large, &rows)?;
        let mut parts = PlanTables::with_room(alloc, &rows)?;
        match parts.add_rows(alloc, rows) {
            Ok(()) => Ok(parts),
            Err(error) => {
                drop(parts);
                Err(error)
            }
        }
    }

    /// Puts the rows of the three sections, in order, into parts that hold none yet.
    ///
    /// After a refusal the parts are spent.
    fn add_rows(&mut self, alloc: Global, rows: PlanRows) -> Result<(), NoAnswer<PlanErr>>
        requires indexed { IsIndexed self.old }
        requires option { self.old.option ≡ rows.option }
        requires no_elements { self.old.elements.items ≡ [] }
        requires no_links { self.old.links.items ≡ [] }
        requires no_sources { self.old.sources.items ≡ [] }
        requires limits { first_broken (limits_of rows) ≡ None }
        requires few_elements { length rows.elements ≤ element_limit }
        requires few_links { length rows.links ≤ link_limit }
        requires few_sources { length rows.sources ≤ source_limit }
        ensures rules { Follows (rules_of rows) result }
        ensures indexed { OnOk result (IsIndexed self.new) }
        ensures plan { OnOk result (topology self.new ≡ plan_from rows) }
    {
        self.add_elements(alloc, rows.elements)?;
        self.add_links(rows.links)?;
        self.add_sources(rows.sources)
    }

    /// The number of the element of a name.
    fn element_named(&self, name: &Text) -> Option<u32>
        requires { IsIndexed self.now }
        ensures found { is_some result
            ≡ is_named (element_names self.now.elements.items) name.now }
        ensures number { IfSome result
            (λ e. e ≡ element_of_name self.now.elements.items name.now) }
        ensures named { IfSome result
            (λ e. slice_get (element_names self.now.elements.items) e ≡ Some name.now) }
        ensures within { IfSome result (λ e. e < length self.now.elements.items) }
    {
        let place = self.element_names.place_of(name.bytes())?;
        Some(place as u32)
    }

    /// The element may have one more input, if the priority makes it one.
    fn has_room(&self, element: u32, priority: u8) -> bool
        requires indexed { IsIndexed self.now }
        requires within { element < length self.now.elements.items }
        ensures { let more = if nat_lt 0 priority then 1 else 0 in
            result ≡ nat_le (length (inputs_of (topology self.now) element) + more) input_limit }
    {
        priority == 0 || self.wiring.inputs[element as usize].len() < MOST_INPUTS
    }
}

/// No section has more rows than a plan of the size may have.
pub(crate) fn check_size(size: Size, rows: &PlanRows) -> Result<(), NoAnswer<PlanErr>>
    ensures rules { Follows (size_limits size rows.now) result }
    ensures few_elements { OnOk result (length rows.now.elements ≤ most_elements size) }
    ensures few_links { OnOk result (length rows.now.links ≤ most_links size) }
    ensures few_sources { OnOk result (length rows.now.sources ≤ most_sources size) }
{
    let elements = size.most_elements();
    if elements < rows.elements.as_slice().len() {
        return Err(NoAnswer::Refused(PlanErr::Limit(row_after(Section::Elements, elements))));
    }
    let links = size.most_links();
    if links < rows.links.as_slice().len() {
        return Err(NoAnswer::Refused(PlanErr::Limit(row_after(Section::Links, links))));
    }
    let sources = size.most_sources();
    if sources < rows.sources.as_slice().len() {
        return Err(NoAnswer::Refused(PlanErr::Limit(row_after(Section::Sources, sources))));
    }
    Ok(())
}

/// The row of a section after so many.
fn row_after(section: Section, before: usize) -> Place
    requires { before < 2 ^ 32 }
    ensures { result ≡ record { section = section; row = before + 1 } }
{
    Place {
        section,
        row: before as u64 + 1,
    }
}
