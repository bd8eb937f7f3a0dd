//! The size of a plan, and what goes by it.

ghost use Rattle.std.specs.Prelude.{◌≡◌, ◌<◌, ◌≤◌, ◌^◌, IsTrue, IfOk, Ok, Err, length};
ghost use Rattle.sync_text.specs.Gives.{Gives};
ghost use Rattle.sync_topo.specs.Lines.{line_count};
ghost use Rattle.sync_topo.specs.PlanRows.{size_limits, plan_of_rows, plan_of_sized, AreKept, IsFirstBroken};
ghost use Rattle.sync_topo.specs.RowValues.{plan_from};
ghost use Rattle.sync_topo.specs.RowsOfPlan.{rows_of_plan};
ghost use Rattle.sync_topo.specs.Sizes.{is_within, size_of, most_rows, event_limit};
ghost use Rattle.sync_topo.specs.Topology.{Topology};
ghost use Rattle.sync_topo.specs.WellFormed.{IsWellFormed};
ghost use Rattle.sync_topo.specs.declared.error.PlanErr.{PlanErr};

use crate::error::PlanErr;
use crate::parts::check_size;
use crate::plan::Plan;
use crate::rows::PlanRows;
use crate::sizes::{
    LARGE_EVENTS, LARGE_ROWS, STANDARD_ELEMENTS, STANDARD_EVENTS, STANDARD_LINKS, STANDARD_ROWS,
    STANDARD_SOURCES, Size,
};
use std::alloc::Global;
use sync_text::NoAnswer;

impl Plan {
    /// The plan that rows give, where it may be of no more than a size.
    ///
    /// First comes `Limit`, at the first element, link or source that the size has no room for; then
    /// what [`Plan::new`] says of the rows. This project's own.
    pub fn sized(alloc: Global, size: Size, rows: PlanRows) -> Result<Plan, NoAnswer<PlanErr>>
        ensures exact { Gives result (plan_of_sized size rows) }
        ensures well_formed { IfOk result (λ plan. IsWellFormed plan) }
        ensures plan { IfOk result (λ plan. plan ≡ plan_from rows) }
        ensures within { IfOk result (λ plan. IsTrue (is_within size plan)) }

        // Rows that the size has room for give what they give without it, and others are refused at
        // the first row that it has no room for.
        ensures room { AreKept (size_limits size rows) → plan_of_sized size rows ≡ plan_of_rows rows }
        ensures limit { (refusal : PlanErr) →
            IsFirstBroken (size_limits size rows) refusal → plan_of_sized size rows ≡ Err refusal }

        // Every plan that any rows give in a size keeps the rules and has no more than it, and what
        // keeps the rules and has no more is the plan of some rows.
        ensures accepted { (given : PlanRows) (plan : Topology) →
            plan_of_sized size given ≡ Ok plan → IsWellFormed plan × IsTrue (is_within size plan) }
        ensures again { (plan : Topology) → IsWellFormed plan → IsTrue (is_within size plan) →
            plan_of_sized size (rows_of_plan plan) ≡ Ok plan }
    {
        Plan::in_size(alloc, size, rows)
    }

    /// The plan that rows give in a size, step by step.
    fn in_size(alloc: Global, size: Size, rows: PlanRows) -> Result<Plan, NoAnswer<PlanErr>>
        ensures exact { Gives result (plan_of_sized size rows) }
        ensures well_formed { IfOk result (λ plan. IsWellFormed plan) }
        ensures plan { IfOk result (λ plan. plan ≡ plan_from rows) }
        ensures within { IfOk result (λ plan. IsTrue (is_within size plan)) }
    {
        check_size(size, &rows)?;
        Plan::new(alloc, rows)
    }

    /// The size that the plan has: standard where its elements, links and sources are no more than
    /// a plan of that size may have, and large otherwise. This project's own.
    #[tactic(auto, unfolding(crate::specs::Sizes::size_of))]
    pub fn size(&self) -> Size
        ensures well_formed { IsWellFormed self.now }
        ensures size { result ≡ size_of self.now }
        ensures within { IsTrue (is_within result self.now) }
    {
        let elements = self.elements() as usize <= STANDARD_ELEMENTS;
        let links = self.links() as usize <= STANDARD_LINKS;
        let sources = self.sources() as usize <= STANDARD_SOURCES;
        if elements && links && sources {
            Size::Standard
        } else {
            Size::Large
        }
    }

    /// The most rows that a report on the plan may have, and the most frames of one of its elements.
    ///
    /// They are no fewer than its elements, nor than its lines. This project's own.
    #[tactic(auto, unfolding(crate::specs::Sizes::most_rows))]
    pub fn most_rows(&self) -> usize
        ensures rows { result ≡ most_rows self.now }
        ensures elements { length self.now.elements ≤ most_rows self.now }
        ensures lines { line_count self.now ≤ most_rows self.now }
    {
        match self.size() {
            Size::Standard => STANDARD_ROWS,
            Size::Large => LARGE_ROWS,
        }
    }

    /// The most rows of a file of events for the plan, or of cases.
    ///
    /// They are no fewer than its elements. This project's own.
    #[tactic(auto, unfolding(crate::specs::Sizes::event_limit))]
    pub fn event_limit(&self) -> usize
        ensures limit { result ≡ event_limit self.now }
        ensures elements { length self.now.elements ≤ event_limit self.now }
        ensures small { event_limit self.now < 2 ^ 32 }
    {
        match self.size() {
            Size::Standard => STANDARD_EVENTS,
            Size::Large => LARGE_EVENTS,
        }
    }
}
