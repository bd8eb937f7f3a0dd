ghost use Rattle.std.specs.Prelude.{◌≡◌, ◌≢◌, ◌<◌, ◌&&◌, ℕ, length, is_none, Some, None, OnOk, IfOk};
ghost use Rattle.std.specs.List.{All, Contains};
ghost use Rattle.sync_topo.specs.Lines.{line_count, is_nominated, IsNominated, sender_of, inputs_of};
ghost use Rattle.rank_cert.specs.Ranks.{rank_at};
ghost use Rattle.sync_topo.specs.Hops.{hops_by};
ghost use Rattle.cycle_plan.specs.private.Numbers.{number_out};
ghost use Rattle.cycle_plan.specs.private.Inputs.{AreFirstOpen};
ghost use Rattle.cycle_plan.specs.private.Greatest.{greatest_but};
ghost use Rattle.cycle_plan.specs.private.GoingBack.{IsDone};
ghost use Rattle.cycle_plan.specs.private.Peeling.{IsRanking, IsPeeling, IsPeeled, IsMore, IsNext, IsSettled, AreKept, IsWatched, is_among, IsAmong, AreFree, IsTopOf};

use crate::greatest::Greatest;
use crate::inputs::{OpenInputs, first_open, inputs_of, line_at};
use crate::numbers::{number_in, number_out};
use crate::top::top_of;
use rank_cert::Cert;
use std::alloc::Global;
use sync_text::NoMemory;
use sync_topo::{InputId, LineId, Plan, ReturnRule};

/// The ranks that are given so far.
#[derive(Drop)]
pub(crate) struct Ranking {
    /// A rank for each line that has one.
    pub(crate) ranks: Cert,
    /// For each element how far its inputs have ranks.
    pub(crate) watches: Vec<OpenInputs>,
    /// The elements to look at, since a line into them was ranked.
    pub(crate) waiting: Vec<u32>,
    /// The lines that have ranks, each after all that hop to it.
    pub(crate) order: Vec<LineId>,
}

impl Ranking {
    /// All ranks that can be given.
    pub(crate) fn of(alloc: Global, returns: ReturnRule, plan: &Plan) -> Result<Ranking, NoMemory>
        ensures { IfOk result (IsDone returns plan.now) }
    {
        let mut ranking = Ranking::new(alloc, returns, plan)?;
        ranking.peel(returns, plan)?;
        Ok(ranking)
    }

    /// No line has a rank, and each element waits to be looked at.
    fn new(alloc: Global, returns: ReturnRule, plan: &Plan) -> Result<Ranking, NoMemory>
        ensures peeling { IfOk result (IsPeeling returns plan.now) }
        ensures kept { IfOk result (AreKept returns plan.now) }
    {
        let ranks = Cert::new(alloc, plan)?;
        let watch = OpenInputs {
            first: 0,
            second: 0,
            back: false,
            done: false,
        };
        let Ok(watches) = vec![in alloc; watch; plan.elements() as usize] else {
            return Err(NoMemory);
        };
        let waiting = all_elements(alloc, plan)?;
        let Ok(order) = Vec::with_capacity(alloc, plan.lines() as usize) else {
            return Err(NoMemory);
        };
        Ok(Ranking {
            ranks,
            watches,
            waiting,
            order,
        })
    }

    /// Gives a line its rank.
    fn give(
        &mut self,
        returns: ReturnRule,
        plan: &Plan,
        line: LineId,
        rank: u64,
    ) -> Result<(), NoMemory>
        requires peeling { IsPeeling returns plan.now self.old }
        requires nominated { IsNominated plan.now line.0 }
        requires within { line.0 < line_count plan.now }
        requires left { rank_at self.old.ranks line.0 ≡ None }
        requires next { IsNext (hops_by returns plan.now) (rank_at self.old.ranks) line.0 rank }
        ensures more { OnOk result (IsMore returns plan.now self.old self.new) }
        ensures given { OnOk result (rank_at self.new.ranks line.0 ≡ Some rank) }
        ensures others { OnOk result ((other : ℕ) → other ≢ line.0
            → rank_at self.new.ranks other ≡ rank_at self.old.ranks other) }
    {
        let receiver = plan.to(line);
        let Ok(()) = self.waiting.push(receiver) else {
            return Err(NoMemory);
        };
        let Ok(()) = self.order.push(line) else {
            return Err(NoMemory);
        };
        self.ranks.set(line, Some(rank));
        Ok(())
    }

    /// The line is nominated and has no rank.
    pub(crate) fn lacks_rank(&self, plan: &Plan, line: LineId) -> bool
        requires counted { length self.now.ranks ≡ line_count plan.now }
        requires within { line.0 < line_count plan.now }
        ensures { result ≡ (is_nominated plan.now line.0
            && is_none (rank_at self.now.ranks line.0)) }
    {
        plan.nominated(InputId::Line(line)) && self.ranks.rank(line).is_none()
    }

    /// Gives a line its rank, where it is nominated, is one of those that are meant, and has none yet.
    fn give_next(
        &mut self,
        returns: ReturnRule,
        plan: &Plan,
        only: Option<u32>,
        line: LineId,
        top: Greatest,
    ) -> Result<(), NoMemory>
        requires peeling { IsPeeling returns plan.now self.old }
        requires within { line.0 < line_count plan.now }
        requires next { IsNominated plan.now line.0 → IsAmong returns plan.now only line.0
            → IsNext (hops_by returns plan.now) (rank_at self.old.ranks) line.0
            (greatest_but top (number_out returns plan.now line.0)) }
        ensures more { OnOk result (IsMore returns plan.now self.old self.new) }
        ensures given { OnOk result (IsNominated plan.now line.0 → IsAmong returns plan.now only line.0
            → rank_at self.new.ranks line.0 ≢ None) }
        ensures others { OnOk result ((other : ℕ) → other ≢ line.0
            → rank_at self.new.ranks other ≡ rank_at self.old.ranks other) }
    {
        if !is_among(returns, plan, only, line) {
            return Ok(());
        }
        if !self.lacks_rank(plan, line) {
            return Ok(());
        }
        self.give(
            returns,
            plan,
            line,
            top.but(number_out(returns, plan, line)),
        )?;
        Ok(())
    }

    /// What the ranks of all inputs of an element come to.
    fn top(&self, returns: ReturnRule, plan: &Plan, element: u32) -> Greatest
        requires ranking { IsRanking returns plan.now self.now.ranks }
        requires within { element < length plan.now.elements }
        ensures { IsTopOf returns plan.now self.now.ranks element result }
    {
        top_of(returns, plan, &self.ranks, inputs_of(plan, element))
    }

    /// Gives the lines out of an element that are meant their ranks, once no line without a rank
    /// hops to one of them.
    fn give_all(
        &mut self,
        returns: ReturnRule,
        plan: &Plan,
        element: u32,
        only: Option<u32>,
    ) -> Result<(), NoMemory>
        requires peeling { IsPeeling returns plan.now self.old }
        requires within { element < length plan.now.elements }
        requires free { AreFree returns plan.now self.old.ranks element only }
        ensures more { OnOk result (IsMore returns plan.now self.old self.new) }
        ensures given { OnOk result ((line : ℕ) → IsNominated plan.now line
            → sender_of plan.now line ≡ element → IsAmong returns plan.now only line
            → rank_at self.new.ranks line ≢ None) }
        ensures others { OnOk result ((other : ℕ) → sender_of plan.now other ≢ element
            → rank_at self.new.ranks other ≡ rank_at self.old.ranks other) }
    {
        let top = self.top(returns, plan, element);
        for line in plan.lines_out(element) {
            self.give_next(returns, plan, only, *line, top)?;
        }
        Ok(())
    }

    /// Finds out how far the inputs of an element have ranks by now.
    fn watch(&mut self, returns: ReturnRule, plan: &Plan, element: u32) -> OpenInputs
        requires peeling { IsPeeling returns plan.now self.old }
        requires within { element < length plan.now.elements }
        ensures more { IsMore returns plan.now self.old self.new }
        ensures ranks { self.new.ranks ≡ self.old.ranks }
        ensures places { AreFirstOpen returns plan.now self.new.ranks (inputs_of plan.now element) result }
        ensures watched { IsWatched returns plan.now self.new.ranks element result }
    {
        let inputs = inputs_of(plan, element);
        let known = self.watches[element as usize];
        let watch = first_open(returns, plan, &self.ranks, inputs, known);
        self.watches[element as usize] = watch;
        watch
    }

    /// Ranks the lines out of an element that no line without a rank holds back.
    fn rank_lines_out(
        &mut self,
        returns: ReturnRule,
        plan: &Plan,
        element: u32,
    ) -> Result<(), NoMemory>
        requires peeling { IsPeeling returns plan.now self.old }
        requires within { element < length plan.now.elements }
        ensures more { OnOk result (IsMore returns plan.now self.old self.new) }
        ensures settled { OnOk result (IsSettled returns plan.now self.new.ranks element) }
    {
        let inputs = inputs_of(plan, element);
        let watch = self.watch(returns, plan, element);
        if watch.done || watch.second < inputs.len() {
            return Ok(());
        }
        let Some(last) = line_at(inputs, watch.first) else {
            self.give_all(returns, plan, element, None)?;
            self.watches[element as usize].done = true;
            return Ok(());
        };
        if watch.back {
            return Ok(());
        }
        self.give_all(returns, plan, element, Some(number_in(returns, plan, last)))?;
        self.watches[element as usize].back = true;
        Ok(())
    }

    /// Ranks lines for as long as an element waits to be looked at.
    fn peel(&mut self, returns: ReturnRule, plan: &Plan) -> Result<(), NoMemory>
        requires peeling { IsPeeling returns plan.now self.old }
        requires kept { AreKept returns plan.now self.old }
        ensures peeling { OnOk result (IsPeeling returns plan.now self.new) }
        ensures peeled { OnOk result
            (IsPeeled (hops_by returns plan.now) (is_nominated plan.now) (rank_at self.new.ranks)) }
    {
        while let Some(element) = self.waiting.pop() {
            self.rank_lines_out(returns, plan, element)?;
        }
        Ok(())
    }
}

/// The line is one of those that are meant: of the number as a way out, if one is given.
fn is_among(returns: ReturnRule, plan: &Plan, only: Option<u32>, line: LineId) -> bool
    requires { line.0 < line_count plan.now }
    ensures { result ≡ is_among returns plan.now only line.0 }
{
    match only {
        Some(bundle) => number_out(returns, plan, line) == bundle,
        None => true,
    }
}

/// The numbers of all elements.
fn all_elements(alloc: Global, plan: &Plan) -> Result<Vec<u32>, NoMemory>
    ensures within { IfOk result (λ all. All (λ e. e < length plan.now.elements) all.items) }
    ensures each { IfOk result (λ all. (e : ℕ) → e < length plan.now.elements
        → Contains all.items e) }
{
    let Ok(mut all) = Vec::with_capacity(alloc, plan.elements() as usize) else {
        return Err(NoMemory);
    };
    for element in 0..plan.elements() {
        let Ok(()) = all.push(element) else {
            return Err(NoMemory);
        };
    }
    Ok(all)
}
