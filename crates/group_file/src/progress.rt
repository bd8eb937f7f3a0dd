// The groups of the rows so far.

ghost use Rattle.std.specs.Prelude.{◌≡◌, ◌≤◌, ◌<◌, ◌+◌, ◌^◌, [], ◌∷◌, ◌++◌, true, false, List, None, Some, IfOk, OnOk, length, option_map};
ghost use Rattle.sync_text.specs.Gives.{IfRefused};
ghost use Rattle.sync_topo.specs.Names.{is_name, is_named};
ghost use Rattle.sync_topo.specs.Sizes.{event_limit};
ghost use Rattle.sync_topo.specs.Topology.{Topology};
ghost use Rattle.event_file.specs.Rows.{Fields};
ghost use Rattle.event_file.specs.CaseRows.{is_apart};
ghost use Rattle.group_file.specs.Rows.{three_of, row_refusal};
ghost use Rattle.group_file.specs.private.PartsTaken.{HasRoom};
ghost use Rattle.group_file.specs.private.GroupsTaken.{with_current, AreSorted, AreGroupsTaken, HasBegun};

use crate::error::GroupErr;
use crate::kind::Kind;
use crate::parts::PartsSoFar;
use csv_records::Record;
use reach_rules::Group;
use std::alloc::Global;
use sync_text::{NoAnswer, NoMemory, Rows, Text};
use sync_topo::{Names, Plan, is_name};

/// What the rows so far gave.
#[derive(Drop)]
pub(crate) struct GroupsSoFar {
    /// How many rows there were.
    pub(crate) rows: u64,
    /// The names of all groups so far, to be found among them.
    pub(crate) names: Names,
    /// The groups whose rows are all taken.
    pub(crate) whole: Rows<Group>,
    /// The name of the group of the last row; none before the first row.
    pub(crate) current: Option<Text>,
    /// The parts of that group.
    pub(crate) parts: PartsSoFar,
}

impl GroupsSoFar {
    /// Nothing, of no rows.
    pub(crate) fn new(alloc: Global, plan: &Plan) -> Result<GroupsSoFar, NoMemory>
        ensures { IfOk result (AreGroupsTaken plan.now []) }
    {
        Ok(GroupsSoFar {
            rows: 0,
            names: Names::new(alloc),
            whole: Rows::new(alloc),
            current: None,
            parts: PartsSoFar::new(alloc, plan)?,
        })
    }

    /// Takes the next row. After an error nothing more is to be taken.
    pub(crate) fn take_row(
        &mut self,
        alloc: Global,
        plan: &Plan,
        row: &Record,
    ) -> Result<(), NoAnswer<GroupErr>>
        requires few { self.old.rows ≤ event_limit plan.now }
        requires room { HasRoom plan.now self.old.parts }
        ensures taken { (done : List Fields) → AreGroupsTaken plan.now done self.old →
            OnOk result (AreGroupsTaken plan.now (done ++ row.now ∷ []) self.new) }
        ensures refused { (done : List Fields) → AreGroupsTaken plan.now done self.old →
            IfRefused result (λ error. row_refusal plan.now done (length done + 1) row.now ≡ Some error) }
    {
        let limit = plan.event_limit() as u64;
        let number = self.rows + 1;
        if limit < number {
            return Err(NoAnswer::Refused(GroupErr::Limit));
        }
        let Some((name, kind, part)) = three_of(row) else {
            return Err(NoAnswer::Refused(GroupErr::Fields(number)));
        };
        if !is_name(name) {
            return Err(NoAnswer::Refused(GroupErr::Name(number)));
        }
        match self.come_to(alloc, number, name) {
            Ok(()) => {}
            Err(error) => return Err(error),
        }
        let Some(kind) = Kind::of(kind) else {
            return Err(NoAnswer::Refused(GroupErr::Kind(number)));
        };
        let Some(part) = kind.part_of_name(plan, part) else {
            return Err(NoAnswer::Refused(GroupErr::Part(number)));
        };
        if self.parts.has(plan, kind, part) {
            return Err(NoAnswer::Refused(GroupErr::Part(number)));
        }
        self.parts.put(plan, kind, part);
        self.rows = number;
        Ok(())
    }

    /// Comes to the group of the row of this number, which is that of the row before it or a new one.
    fn come_to(&mut self, alloc: Global, number: u64, name: &[u8]) -> Result<(), NoAnswer<GroupErr>>
        requires { is_name name.now ≡ true }
        ensures room { (plan : Topology) → HasRoom plan self.old.parts →
            OnOk result (HasRoom plan self.new.parts) }
        ensures together { (plan : Topology) (done : List Fields) →
            AreGroupsTaken plan done self.old → OnOk result (is_apart done name.now ≡ false) }
        ensures sorted { (plan : Topology) (done : List Fields) →
            AreGroupsTaken plan done self.old → OnOk result (AreSorted plan done name.now self.new) }
        ensures apart { (plan : Topology) (done : List Fields) → AreGroupsTaken plan done self.old →
            IfRefused result (λ error. (is_apart done name.now ≡ true) × (error ≡ GroupErr.Apart number)) }
    {
        match self.names.place_of(name) {
            Some(place) if place == self.whole.as_slice().len() => Ok(()),
            Some(_) => Err(NoAnswer::Refused(GroupErr::Apart(number))),
            None => {
                self.begin(alloc, name)?;
                Ok(())
            }
        }
    }

    /// Begins a group of a new name, of which nothing is known yet.
    fn begin(&mut self, alloc: Global, name: &[u8]) -> Result<(), NoMemory>
        requires { is_named self.old.names name.now ≡ false }
        ensures { OnOk result (HasBegun name.now self.old self.new) }
    {
        self.names.add(name)?;
        let name = Text::from_bytes(alloc, name)?;
        self.close(alloc)?;
        self.current = Some(name);
        self.parts.clear();
        Ok(())
    }

    /// Puts the group whose rows are all taken with those before it.
    fn close(&mut self, alloc: Global) -> Result<(), NoMemory>
        ensures { OnOk result (self.new ≡ record self.old {
          whole = with_current self.old.whole self.old.parts self.old.current;
          current = None;
        }) }
    {
        match self.current.take() {
            Some(name) => {
                let group = self.parts.group(alloc, name)?;
                self.whole.push(group)
            }
            None => Ok(()),
        }
    }

    /// The groups, of which no row comes any more.
    pub(crate) fn finish(mut self, alloc: Global) -> Result<Rows<Group>, NoMemory>
        ensures { IfOk result (λ groups. groups ≡ with_current self.whole self.parts self.current) }
    {
        self.close(alloc)?;
        Ok(self.whole)
    }
}

/// All fields of a row of three.
#[tactic(auto, using(crate::proofs::FieldFacts::three_facts))]
pub(crate) fn three_of(row: &Record) -> Option<(&[u8], &[u8], &[u8])>
    ensures { option_map (λ three. (three.0.now, three.1.now, three.2.now)) result
        ≡ three_of row.now }
{
    let first = row.get(0)?;
    let second = row.get(1)?;
    let third = row.get(2)?;
    if row.len() == 3 {
        Some((first, second, third))
    } else {
        None
    }
}
