// What is counted of the chains into an element.

ghost use Rattle.std.specs.Prelude.{◌≡◌, ◌<◌, ◌≤◌, ◌+◌, ◌^◌, IfOk, length};
ghost use Rattle.sync_topo.specs.declared.returns.ReturnRule.{ReturnRule};
ghost use Rattle.cycle_plan.specs.private.GoingBack.{IsDone};
ghost use Rattle.cycle_plan.specs.Mosts.{row_of};
ghost use Rattle.cycle_plan.specs.private.Greatest.{greatest_but};
ghost use Rattle.cycle_plan.specs.private.Mosts.{no_reach, AreReaches, since_step, clocks_step, over, raised_reach};

use crate::filters::is_filter;
use crate::greatest::Greatest;
use crate::ranking::Ranking;
use reach_rules::Chain;
use std::alloc::Global;
use sync_text::NoMemory;
use sync_topo::Plan;

/// The greatest counts of the chains into an element.
#[derive(Clone, Copy, Drop)]
pub(crate) struct Reach {
    /// Of lines in all.
    pub(crate) links: Greatest,
    /// Of lines since the last that begins at a filter.
    pub(crate) since: Greatest,
    /// Of lines that begin at a filter.
    pub(crate) clocks: Greatest,
}

impl Reach {
    /// Without a chain.
    fn none() -> Reach
        ensures { result ≡ no_reach }
    {
        Reach {
            links: Greatest::none(),
            since: Greatest::none(),
            clocks: Greatest::none(),
        }
    }

    /// The greatest counts of the chains that end in a line of this bundle out of the element.
    fn over(self, bundle: u32, filters: bool) -> Chain
        requires links { greatest_but self.links bundle < 2 ^ 31 }
        requires since { greatest_but self.since bundle < 2 ^ 31 }
        requires clocks { greatest_but self.clocks bundle < 2 ^ 31 }
        ensures { result ≡ over self bundle filters }
    {
        Chain {
            links: self.links.but(bundle) + 1,
            since: since_over(self.since.but(bundle), filters),
            clocks: clocks_over(self.clocks.but(bundle), filters),
        }
    }

    /// With the chains that end in a line of this bundle into the element.
    fn raised(self, bundle: u32, chain: Chain) -> Reach
        ensures { result ≡ raised_reach self bundle chain }
    {
        Reach {
            links: self.links.raised(bundle, chain.links),
            since: self.since.raised(bundle, chain.since),
            clocks: self.clocks.raised(bundle, chain.clocks),
        }
    }

    /// The row of the element.
    pub(crate) fn row(self) -> Chain
        ensures { result ≡ row_of self }
    {
        Chain {
            links: self.links.most,
            since: self.since.most,
            clocks: self.clocks.most,
        }
    }
}

/// The lines since the last filter, with one more line.
fn since_over(before: u64, filters: bool) -> u64
    requires { before < 2 ^ 31 }
    ensures { result ≡ since_step filters before }
{
    if filters { 1 } else { before + 1 }
}

/// The lines that begin at a filter, with one more line.
fn clocks_over(before: u64, filters: bool) -> u64
    requires { before < 2 ^ 31 }
    ensures { result ≡ clocks_step filters before }
{
    if filters { before + 1 } else { before }
}

impl Ranking {
    /// What is counted of the chains into each element, where no line is left over.
    pub(crate) fn reaches(&self, alloc: Global, plan: &Plan) -> Result<Vec<Reach>, NoMemory>
        requires { IsDone ReturnRule.Barred plan.now self.now }
        ensures { IfOk result (λ reaches. AreReaches plan.now self.now.order.items
            (length self.now.order.items) reaches.items) }
    {
        let Ok(mut reaches) = vec![in alloc; Reach::none(); plan.elements() as usize] else {
            return Err(NoMemory);
        };
        for place in 0..self.order.len() {
            self.extend(plan, place, reaches.as_mut_slice());
        }
        Ok(reaches)
    }

    /// Extends the chains by the line at a place of the order.
    fn extend(&self, plan: &Plan, place: usize, reaches: &mut [Reach])
        requires done { IsDone ReturnRule.Barred plan.now self.now }
        requires within { place < length self.now.order.items }
        requires before { AreReaches plan.now self.now.order.items place reaches.old }
        ensures after { AreReaches plan.now self.now.order.items (place + 1) reaches.new }
    {
        let line = self.order[place];
        let sender = plan.from(line);
        let bundle = plan.bundle(line.0 / 2);
        let chain = reaches[sender as usize].over(bundle, is_filter(plan, sender));
        let receiver = plan.to(line) as usize;
        reaches[receiver] = reaches[receiver].raised(bundle, chain);
    }
}
