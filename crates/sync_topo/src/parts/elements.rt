//! The elements of a plan, row by row.

ghost use Rattle.std.specs.Prelude.{◌≡◌, [], ◌∷◌, ◌++◌, ◌<◌, ◌≤◌, ◌*◌, ◌||◌, length, map, is_none, IfSome, IfOk, OnOk, option_and_then, unwrap_or};
ghost use Rattle.sync_topo.specs.Limits.{element_limit, least_holdoff, greatest_holdoff, greatest_wtr};
ghost use Rattle.sync_topo.specs.RowValues.{number_or, clock_level, default_own, element_from};
ghost use Rattle.sync_topo.specs.Rules.{is_outside, is_no_clock_level, element_rules};
ghost use Rattle.sync_topo.specs.private.Ends.{element_with};
ghost use Rattle.sync_topo.specs.private.Steps.{Follows, rows_from, element_rules_after};
ghost use Rattle.sync_topo.specs.WellFormed.{IsClockLevel};

use crate::element::Element;
use crate::error::PlanErr;
use crate::names::is_name;
use crate::parts::{PlanTables, row_after};
use crate::place::Section;
use crate::rows::ElementRow;
use crate::values::{default_own, level_given, number_within};
use std::alloc::Global;
use sync_ql::limits::{GREATEST_HOLDOFF, GREATEST_WTR_MINUTES, LEAST_HOLDOFF, MINUTE};
use sync_ql::{Level, NetOption};
use sync_text::{NoAnswer, NoMemory, Rows};

/// The hold-off time of an element that names none, in milliseconds.
const DEFAULT_HOLDOFF: u32 = 300;

/// The wait-to-restore time of an element that names none, in minutes.
const DEFAULT_WTR_MINUTES: u32 = 5;

impl PlanTables {
    ghost use Rattle.sync_topo.specs.Indexed.{topology};
    ghost use Rattle.sync_topo.specs.private.Indexed.{IsIndexed, MayJoin};

    /// Puts the elements of all rows, in order, into parts that hold nothing yet.
    ///
    /// After a refusal the parts are spent.
    pub(crate) fn add_elements(
        &mut self,
        alloc: Global,
        rows: Rows<ElementRow>,
    ) -> Result<(), NoAnswer<PlanErr>>
        requires indexed { IsIndexed self.old }
        requires no_elements { self.old.elements.items ≡ [] }
        requires within { length rows ≤ element_limit }
        ensures rules { Follows (rows_from (element_rules_after self.old.option) [] rows) result }
        ensures indexed { OnOk result (IsIndexed self.new) }
        ensures elements { OnOk result
            (self.new.elements.items ≡ map (element_from self.old.option) rows) }
        ensures option { OnOk result (self.new.option ≡ self.old.option) }
        ensures links { OnOk result (self.new.links.items ≡ self.old.links.items) }
        ensures sources { OnOk result (self.new.sources.items ≡ self.old.sources.items) }
    {
        for row in rows.into_vec() {
            let element = self.element_of(row)?;
            self.add_element(alloc, element)?;
        }
        Ok(())
    }

    /// The element of a row, which may come next.
    fn element_of(&self, row: ElementRow) -> Result<Element, NoAnswer<PlanErr>>
        requires { IsIndexed self.now }
        ensures rules { Follows (element_rules (topology self.now) row) result }
        ensures element { IfOk result (λ element. element ≡ element_from self.now.option row) }
        ensures may_join { IfOk result (MayJoin (topology self.now)) }
    {
        match self.values_of(&row) {
            Ok(values) => Ok(values.element(row)),
            Err(error) => {
                drop(row);
                Err(error)
            }
        }
    }

    /// The values of a row's element, where the row breaks no rule.
    fn values_of(&self, row: &ElementRow) -> Result<ElementValues, NoAnswer<PlanErr>>
        requires { IsIndexed self.now }
        ensures rules { Follows (element_rules (topology self.now) row.now) result }
        ensures element { IfOk result (λ values. element_with values row.now
            ≡ element_from self.now.option row.now) }
        ensures may_join { IfOk result
            (λ values. MayJoin (topology self.now) (element_with values row.now)) }
    {
        let place = row_after(Section::Elements, self.elements.len());
        if !is_name(row.name.bytes()) {
            return Err(NoAnswer::Refused(PlanErr::Name(place)));
        }
        if self.element_names.has(row.name.bytes()) {
            return Err(NoAnswer::Refused(PlanErr::Twice(place)));
        }
        let Some((holdoff, wtr)) = times_of(row) else {
            return Err(NoAnswer::Refused(PlanErr::Range(place)));
        };
        match levels_of(self.option, row) {
            Some((own, floor)) => Ok(ElementValues {
                own,
                floor,
                holdoff,
                wtr,
            }),
            None => Err(NoAnswer::Refused(PlanErr::LevelName(place))),
        }
    }

    /// Puts an element at the end.
    fn add_element(&mut self, alloc: Global, element: Element) -> Result<(), NoMemory>
        requires indexed { IsIndexed self.old }
        requires may_join { MayJoin (topology self.old) element }
        requires room { length self.old.elements.items < element_limit }
        ensures indexed { OnOk result (IsIndexed self.new) }
        ensures elements { OnOk result
            (self.new.elements.items ≡ self.old.elements.items ++ element ∷ []) }
        ensures option { OnOk result (self.new.option ≡ self.old.option) }
        ensures links { OnOk result (self.new.links.items ≡ self.old.links.items) }
        ensures sources { OnOk result (self.new.sources.items ≡ self.old.sources.items) }
    {
        self.element_names.add(element.name.bytes())?;
        self.wiring.add_element(alloc)?;
        let Ok(()) = self.elements.push(element) else {
            return Err(NoMemory);
        };
        Ok(())
    }
}

/// What a row says of its element beside its name: its levels, and its times in milliseconds.
#[derive(Clone, Copy)]
struct ElementValues {
    own: Level,
    floor: Option<Level>,
    holdoff: u32,
    wtr: u32,
}

impl ElementValues {
    /// The element of a row that has these values.
    fn element(self, row: ElementRow) -> Element
        ensures { result ≡ element_with self row }
    {
        Element {
            name: row.name,
            own: self.own,
            floor: self.floor,
            holdoff: self.holdoff,
            wtr: self.wtr,
        }
    }
}

/// The hold-off time and the wait-to-restore time of an element row, in milliseconds.
///
/// `None` where one is outside its limits.
fn times_of(row: &ElementRow) -> Option<(u32, u32)>
    ensures none { is_none result ≡ (is_outside least_holdoff greatest_holdoff row.now.holdoff
        || is_outside 0 greatest_wtr row.now.wtr) }
    ensures holdoff { IfSome result (λ times. times.0 ≡ number_or 300 row.now.holdoff) }
    ensures least_holdoff { IfSome result (λ times. least_holdoff ≤ times.0) }
    ensures greatest_holdoff { IfSome result (λ times. times.0 ≤ greatest_holdoff) }
    ensures wtr { IfSome result (λ times. times.1 ≡ 60000 * number_or 5 row.now.wtr) }
    ensures greatest_wtr { IfSome result (λ times. number_or 5 row.now.wtr ≤ greatest_wtr) }
{
    let holdoff = number_within(
        row.holdoff,
        DEFAULT_HOLDOFF,
        LEAST_HOLDOFF,
        GREATEST_HOLDOFF,
    )?;
    let minutes = number_within(row.wtr, DEFAULT_WTR_MINUTES, 0, GREATEST_WTR_MINUTES)?;
    Some((holdoff, MINUTE * minutes))
}

/// The level of the own clock, and the floor, of an element row.
///
/// `None` where the row names a level that none may have.
fn levels_of(option: NetOption, row: &ElementRow) -> Option<(Level, Option<Level>)>
    ensures none { is_none result
        ≡ (is_no_clock_level option row.now.own || is_no_clock_level option row.now.floor) }
    ensures own { IfSome result (λ levels. levels.0
        ≡ unwrap_or (option_and_then (clock_level option) row.now.own) (default_own option)) }
    ensures own_clock_level { IfSome result (λ levels. IsClockLevel option levels.0) }
    ensures floor { IfSome result
        (λ levels. levels.1 ≡ option_and_then (clock_level option) row.now.floor) }
    ensures floor_clock_level { IfSome result (λ levels. IfSome levels.1 (IsClockLevel option)) }
{
    let own = level_given(option, &row.own);
    if row.own.is_some() && own.is_none() {
        return None;
    }
    let floor = level_given(option, &row.floor);
    if row.floor.is_some() && floor.is_none() {
        return None;
    }
    match own {
        Some(own) => Some((own, floor)),
        None => Some((default_own(option), floor)),
    }
}
