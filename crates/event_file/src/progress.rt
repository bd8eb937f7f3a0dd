// The cases of the rows so far.

ghost use Rattle.std.specs.Prelude.{◌≡◌, ◌≤◌, ◌<◌, ◌+◌, ◌^◌, [], ◌∷◌, ◌++◌, true, false, List, None, Some, IfOk, OnOk, length};
ghost use Rattle.sync_text.specs.Gives.{IfRefused};
ghost use Rattle.sync_topo.specs.Names.{is_named};
ghost use Rattle.sync_topo.specs.Sizes.{event_limit};
ghost use Rattle.sync_topo.specs.Topology.{Topology};
ghost use Rattle.event_file.specs.Rows.{Fields};
ghost use Rattle.event_file.specs.CaseRows.{may_follow, is_apart, case_refusal};
ghost use Rattle.event_file.specs.private.CasesTaken.{with_current, with_event, AreSorted, AreCasesTaken};

use crate::case_file::Cases;
use crate::error::EventErr;
use crate::row::event_said;
use csv_records::Record;
use std::alloc::Global;
use sync_text::{NoAnswer, NoMemory, Rows, Text};
use sync_topo::{Case, Event, Names, Plan, is_name};

/// What the rows so far gave.
#[derive(Drop)]
pub(crate) struct CasesSoFar {
    /// How many rows there were.
    rows: u64,
    /// The common events.
    common: Rows<Event>,
    /// The names of all cases so far, to be found among them.
    names: Names,
    /// The same names, in order.
    listed: Rows<Text>,
    /// The cases whose rows are all taken.
    whole: Rows<Case>,
    /// The case of the last row; none while rows are common.
    current: Option<Case>,
    /// The time of the last row.
    before: u64,
}

impl CasesSoFar {
    /// Nothing, of no rows.
    pub(crate) fn new(alloc: Global) -> CasesSoFar
        ensures { result ≡ record { rows = 0; common = []; names = []; listed = []; whole = []; current = None; before = 0 } }
    {
        CasesSoFar {
            rows: 0,
            common: Rows::new(alloc),
            names: Names::new(alloc),
            listed: Rows::new(alloc),
            whole: Rows::new(alloc),
            current: None,
            before: 0,
        }
    }

    /// Takes the next row. After an error nothing more is to be taken.
    pub(crate) fn take_row(
        &mut self,
        alloc: Global,
        plan: &Plan,
        row: &Record,
    ) -> Result<(), NoAnswer<EventErr>>
        requires { self.old.rows ≤ event_limit plan.now }
        ensures taken { (done : List Fields) → AreCasesTaken plan.now done self.old →
            OnOk result (AreCasesTaken plan.now (done ++ row.now ∷ []) self.new) }
        ensures refused { (done : List Fields) → AreCasesTaken plan.now done self.old →
            IfRefused result (λ error. case_refusal plan.now done (length done + 1) row.now ≡ Some error) }
    {
        let limit = plan.event_limit() as u64;
        let number = self.rows + 1;
        if limit < number {
            return Err(NoAnswer::Refused(EventErr::Limit));
        }
        let Some((name, at, word, target, value)) = row.five() else {
            return Err(NoAnswer::Refused(EventErr::Fields(number)));
        };
        if !self.may_follow(name) {
            return Err(NoAnswer::Refused(EventErr::Name(number)));
        }
        match self.come_to(alloc, number, name) {
            Ok(()) => {}
            Err(error) => return Err(error),
        }
        let event = match event_said(plan, number, self.before, at, word, target, value) {
            Ok(event) => event,
            Err(refused) => return Err(NoAnswer::Refused(refused)),
        };
        self.put(event)?;
        Ok(())
    }

    /// A row may be of this case: it is a name, or it is empty before the first case.
    fn may_follow(&self, name: &[u8]) -> bool
        ensures { (plan : Topology) (done : List Fields) → AreCasesTaken plan done self.now →
            result ≡ may_follow done name.now }
    {
        is_name(name) || name.is_empty() && self.current.is_none()
    }

    /// Comes to the case of the row of this number, which is that of the row before it or a new one.
    fn come_to(&mut self, alloc: Global, number: u64, name: &[u8]) -> Result<(), NoAnswer<EventErr>>
        ensures rows { OnOk result (self.new.rows ≡ self.old.rows) }
        ensures together { (plan : Topology) (done : List Fields) → AreCasesTaken plan done self.old →
            may_follow done name.now ≡ true → OnOk result (is_apart done name.now ≡ false) }
        ensures sorted { (plan : Topology) (done : List Fields) → AreCasesTaken plan done self.old →
            may_follow done name.now ≡ true → OnOk result (AreSorted plan done name.now self.new) }
        ensures apart { (plan : Topology) (done : List Fields) → AreCasesTaken plan done self.old →
            IfRefused result (λ error. (is_apart done name.now ≡ true) × (error ≡ EventErr.Apart number)) }
    {
        if name.is_empty() {
            return Ok(());
        }
        match self.names.place_of(name) {
            Some(place) if place == self.whole.as_slice().len() => Ok(()),
            Some(_) => Err(NoAnswer::Refused(EventErr::Apart(number))),
            None => {
                self.begin(alloc, name)?;
                self.before = 0;
                Ok(())
            }
        }
    }

    /// Begins a case of a new name, in which nothing happens yet.
    fn begin(&mut self, alloc: Global, name: &[u8]) -> Result<(), NoMemory>
        requires { is_named self.old.names name.now ≡ false }
        ensures { OnOk result (self.new ≡ record self.old {
          names = self.old.names ++ name.now ∷ [];
          listed = self.old.listed ++ name.now ∷ [];
          whole = with_current self.old.whole self.old.current;
          current = Some (record { events = [] });
        }) }
    {
        self.names.add(name)?;
        self.listed.push(Text::from_bytes(alloc, name)?)?;
        self.close()?;
        self.current = Some(Case {
            events: Rows::new(alloc),
        });
        Ok(())
    }

    /// Puts the case whose rows are all taken with those before it.
    fn close(&mut self) -> Result<(), NoMemory>
        ensures { OnOk result (self.new ≡ record self.old {
          whole = with_current self.old.whole self.old.current;
          current = None;
        }) }
    {
        match self.current.take() {
            Some(case) => self.whole.push(case),
            None => Ok(()),
        }
    }

    /// Puts the event of the next row with those of its case, or with the common ones.
    fn put(&mut self, event: Event) -> Result<(), NoMemory>
        requires { self.old.rows < 2 ^ 32 }
        ensures { OnOk result (self.new ≡ with_event self.old event) }
    {
        self.rows += 1;
        self.before = event.at;
        match &mut self.current {
            Some(case) => case.events.push(event),
            None => self.common.push(event),
        }
    }

    /// The cases, of which no row comes any more.
    pub(crate) fn finish(mut self) -> Result<Cases, NoMemory>
        ensures { IfOk result (λ cases. cases ≡ record {
          common = self.common;
          names = self.listed;
          cases = with_current self.whole self.current;
        }) }
    {
        self.close()?;
        Ok(Cases {
            common: self.common,
            names: self.listed,
            cases: self.whole,
        })
    }
}
