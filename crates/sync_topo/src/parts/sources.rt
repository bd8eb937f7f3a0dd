//! The sources of a plan, row by row.

ghost use Rattle.std.specs.Prelude.{◌≡◌, [], ◌∷◌, ◌++◌, ◌<◌, ◌≤◌, false, length, map, IsTrue, IfOk, OnOk};
ghost use Rattle.sync_topo.specs.Names.{is_name, is_named, link_names, source_names};
ghost use Rattle.sync_topo.specs.Limits.{source_limit};
ghost use Rattle.sync_topo.specs.RowValues.{source_from};
ghost use Rattle.sync_topo.specs.Rules.{has_room, source_rules};
ghost use Rattle.sync_topo.specs.WellFormed.{IsSourceOf};
ghost use Rattle.sync_topo.specs.private.Ends.{end_rules, source_with};
ghost use Rattle.sync_topo.specs.private.Steps.{Follows, rows_from, source_rules_after};

use crate::error::PlanErr;
use crate::names::is_name;
use crate::parts::{PlanTables, row_after};
use crate::place::Section;
use crate::rows::SourceRow;
use crate::source::Source;
use crate::values::priority_within;
use sync_ql::{Level, level_of_name};
use sync_text::{NoAnswer, NoMemory, Rows};

impl PlanTables {
    ghost use Rattle.sync_topo.specs.Indexed.{topology};
    ghost use Rattle.sync_topo.specs.private.Indexed.{IsIndexed, MayFeed};

    /// Puts the sources of all rows, in order, into parts that hold no sources yet.
    ///
    /// After a refusal the parts are spent.
    pub(crate) fn add_sources(&mut self, rows: Rows<SourceRow>) -> Result<(), NoAnswer<PlanErr>>
        requires indexed { IsIndexed self.old }
        requires no_sources { self.old.sources.items ≡ [] }
        requires within { length rows ≤ source_limit }
        ensures rules { Follows (rows_from (source_rules_after self.old.option
            self.old.elements.items self.old.links.items) [] rows) result }
        ensures indexed { OnOk result (IsIndexed self.new) }
        ensures sources { OnOk result (self.new.sources.items
            ≡ map (source_from self.old.option self.old.elements.items) rows) }
        ensures option { OnOk result (self.new.option ≡ self.old.option) }
        ensures elements { OnOk result (self.new.elements.items ≡ self.old.elements.items) }
        ensures links { OnOk result (self.new.links.items ≡ self.old.links.items) }
    {
        for row in rows.into_vec() {
            let source = self.source_of(row)?;
            self.add_source(source)?;
        }
        Ok(())
    }

    /// The source of a row, which may come next.
    fn source_of(&self, row: SourceRow) -> Result<Source, NoAnswer<PlanErr>>
        requires { IsIndexed self.now }
        ensures rules { Follows (source_rules (topology self.now) row) result }
        ensures source { IfOk result
            (λ source. source ≡ source_from self.now.option self.now.elements.items row) }
        ensures may_feed { IfOk result (MayFeed (topology self.now)) }
    {
        let place = row_after(Section::Sources, self.sources.len());
        let end = match self.end_of(&row) {
            Ok(end) => end,
            Err(error) => {
                drop(row);
                return Err(error);
            }
        };
        let source = end.source(row);
        if !self.has_room_at(&source) {
            drop(source);
            return Err(NoAnswer::Refused(PlanErr::Limit(place)));
        }
        Ok(source)
    }

    /// The end of a row's source, where the row keeps the rules for its name, its end and its values.
    fn end_of(&self, row: &SourceRow) -> Result<SourceEnd, NoAnswer<PlanErr>>
        requires { IsIndexed self.now }
        ensures rules { Follows (end_rules (source_rules (topology self.now) row.now)) result }
        ensures source { IfOk result (λ end. source_with end row.now
            ≡ source_from self.now.option self.now.elements.items row.now) }
        ensures named { OnOk result (IsTrue (is_name row.now.name)) }
        ensures no_link { OnOk result
            (is_named (link_names self.now.links.items) row.now.name ≡ false) }
        ensures fresh { OnOk result
            (is_named (source_names self.now.sources.items) row.now.name ≡ false) }
        ensures fits { IfOk result (λ end. IsSourceOf self.now.option
            (length self.now.elements.items) (source_with end row.now)) }
    {
        let place = row_after(Section::Sources, self.sources.len());
        let name = row.name.bytes();
        if !is_name(name) {
            return Err(NoAnswer::Refused(PlanErr::Name(place)));
        }
        if self.link_names.has(name) {
            return Err(NoAnswer::Refused(PlanErr::Twice(place)));
        }
        if self.source_names.has(name) {
            return Err(NoAnswer::Refused(PlanErr::Twice(place)));
        }
        let Some(at) = self.element_named(&row.at) else {
            return Err(NoAnswer::Refused(PlanErr::NoElement(place)));
        };
        let Some(priority) = priority_within(row.priority, 1) else {
            return Err(NoAnswer::Refused(PlanErr::Range(place)));
        };
        match level_of_name(self.option, row.level.bytes()) {
            Some(level) => Ok(SourceEnd {
                at,
                level,
                priority,
            }),
            None => Err(NoAnswer::Refused(PlanErr::LevelName(place))),
        }
    }

    /// The source's element doesn't get more inputs than an element may have.
    fn has_room_at(&self, source: &Source) -> bool
        requires indexed { IsIndexed self.now }
        requires at { source.now.at < length self.now.elements.items }
        ensures { let longer = record (topology self.now)
            { sources = self.now.sources.items ++ source.now ∷ [] } in
            result ≡ has_room longer source.now.at }
    {
        self.has_room(source.at, source.priority)
    }

    /// Puts a source at the end.
    fn add_source(&mut self, source: Source) -> Result<(), NoMemory>
        requires indexed { IsIndexed self.old }
        requires may_feed { MayFeed (topology self.old) source }
        requires room { length self.old.sources.items < source_limit }
        ensures indexed { OnOk result (IsIndexed self.new) }
        ensures option { OnOk result (self.new.option ≡ self.old.option) }
        ensures elements { OnOk result (self.new.elements.items ≡ self.old.elements.items) }
        ensures links { OnOk result (self.new.links.items ≡ self.old.links.items) }
        ensures sources { OnOk result
            (self.new.sources.items ≡ self.old.sources.items ++ source ∷ []) }
    {
        let number = self.sources.len() as u32;
        self.source_names.add(source.name.bytes())?;
        self.wiring.add_source(number, source.at, source.priority)?;
        let Ok(()) = self.sources.push(source) else {
            return Err(NoMemory);
        };
        Ok(())
    }
}

/// The element that a source is at, and what it gives it.
#[derive(Clone, Copy)]
struct SourceEnd {
    at: u32,
    level: Level,
    priority: u8,
}

impl SourceEnd {
    /// The source of a row that has this end.
    fn source(self, row: SourceRow) -> Source
        ensures { result ≡ source_with self row }
    {
        Source {
            name: row.name,
            at: self.at,
            level: self.level,
            priority: self.priority,
        }
    }
}
