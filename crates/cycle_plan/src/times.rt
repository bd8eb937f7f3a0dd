// How long after the first of its changes a line may change, by the delays before it.

ghost use Rattle.std.specs.Prelude.{◌≡◌, ◌≢◌, ◌≤◌, ◌<◌, ◌+◌, ◌*◌, ℕ, max, None, Some, IfOk, length};
ghost use Rattle.sync_topo.specs.declared.returns.ReturnRule.{ReturnRule};
ghost use Rattle.sync_topo.specs.Limits.{greatest_delay, link_limit};
ghost use Rattle.sync_topo.specs.Lines.{line_count, IsNominated};
ghost use Rattle.net_rules.specs.Settling.{IsGreatest};
ghost use Rattle.net_rules.specs.Losing.{IsLineTime};
ghost use Rattle.rank_cert.specs.Ranks.{rank_at};
ghost use Rattle.reach_rules.specs.Failing.{AreTimes};
ghost use Rattle.cycle_plan.specs.private.GoingBack.{IsDone};
ghost use Rattle.cycle_plan.specs.private.Latest.{AreLates, IsLong, AreDelaysInto};
ghost use Rattle.cycle_plan.specs.private.Peeling.{line_in};

use crate::bound::greater;
use crate::greatest::Greatest;
use crate::numbers::{number_in, number_out};
use crate::ranking::Ranking;
use std::alloc::Global;
use sync_text::NoMemory;
use sync_topo::{InputId, LineId, Plan, ReturnRule};

impl Ranking {
    /// The longest time of a nominated line, where none is left over.
    pub(crate) fn longest_time(&self, alloc: Global, plan: &Plan) -> Result<u64, NoMemory>
        requires done { IsDone ReturnRule.BarredFromLast plan.now self.now }
        requires ranked { (line : ℕ) → IsNominated plan.now line → rank_at self.now.ranks line ≢ None }
        ensures longest { IfOk result (λ longest. (time : ℕ → ℕ) → AreTimes plan.now time →
            IsGreatest (IsLineTime plan.now time) longest) }
        ensures few { IfOk result (λ longest. longest ≤ (2 * link_limit + 1) * greatest_delay) }
    {
        let delays = delays_into(alloc, plan)?;
        let Ok(mut lates) = vec![in alloc; Greatest::none(); plan.elements() as usize] else {
            return Err(NoMemory);
        };
        let mut longest = 0;
        for place in 0..self.order.len() {
            longest = self.longer_by(
                plan,
                place,
                delays.as_slice(),
                lates.as_mut_slice(),
                longest,
            );
        }
        Ok(longest)
    }

    /// Passes the line at a place of the order: the longer of its time and of the longest before it.
    fn longer_by(
        &self,
        plan: &Plan,
        place: usize,
        delays: &[u32],
        lates: &mut [Greatest],
        longest: u64,
    ) -> u64
        requires done { IsDone ReturnRule.BarredFromLast plan.now self.now }
        requires within { place < length self.now.order.items }
        requires delays { AreDelaysInto plan.now (line_count plan.now) delays.now }
        requires before { AreLates plan.now self.now.order.items place lates.old }
        requires longest { IsLong plan.now self.now.order.items place longest }
        ensures after { AreLates plan.now self.now.order.items (place + 1) lates.new }
        ensures longer { IsLong plan.now self.now.order.items (place + 1) result }
    {
        let time = self.pass(plan, place, delays, lates);
        greater(longest, time)
    }

    /// Passes the line at a place of the order, and gives its time.
    fn pass(&self, plan: &Plan, place: usize, delays: &[u32], lates: &mut [Greatest]) -> u64
        requires done { IsDone ReturnRule.BarredFromLast plan.now self.now }
        requires within { place < length self.now.order.items }
        requires delays { AreDelaysInto plan.now (line_count plan.now) delays.now }
        requires before { AreLates plan.now self.now.order.items place lates.old }
        ensures after { AreLates plan.now self.now.order.items (place + 1) lates.new }
        ensures time { (time : ℕ → ℕ) (line : ℕ) → AreTimes plan.now time →
            line_in self.now.order.items place ≡ Some line → result ≡ time line }
        ensures few { result ≤ (place + 1) * greatest_delay }
    {
        let line = self.order[place];
        let sender = plan.from(line) as usize;
        let receiver = plan.to(line) as usize;
        let out = number_out(ReturnRule::BarredFromLast, plan, line);
        let time = greater(u64::from(delays[sender]), lates[sender].but(out));
        let end = end_of(time, plan.delay(line));
        let into = number_in(ReturnRule::BarredFromLast, plan, line);
        lates[receiver] = lates[receiver].raised(into, end);
        time
    }
}

/// The end of a line of this time and delay.
fn end_of(time: u64, delay: u32) -> u64
    requires { time ≤ (2 * link_limit + 1) * greatest_delay }
    ensures { result ≡ time + delay }
{
    time + u64::from(delay)
}

/// The greatest delay of a nominated line into each element, or 0 where there is none.
fn delays_into(alloc: Global, plan: &Plan) -> Result<Vec<u32>, NoMemory>
    ensures { IfOk result (λ delays. AreDelaysInto plan.now (line_count plan.now) delays.items) }
{
    let Ok(mut delays) = vec![in alloc; 0; plan.elements() as usize] else {
        return Err(NoMemory);
    };
    for number in 0..plan.lines() {
        raise_delay(plan, LineId(number), delays.as_mut_slice());
    }
    Ok(delays)
}

/// Raises the delay that is kept of an element to that of a line into it, if the line is nominated.
fn raise_delay(plan: &Plan, line: LineId, delays: &mut [u32])
    requires within { line.0 < line_count plan.now }
    requires before { AreDelaysInto plan.now line.0 delays.old }
    ensures after { AreDelaysInto plan.now (line.0 + 1) delays.new }
{
    if !plan.nominated(InputId::Line(line)) {
        return;
    }
    let receiver = plan.to(line) as usize;
    delays[receiver] = longer(delays[receiver], plan.delay(line));
}

/// The greater of two delays.
fn longer(one: u32, other: u32) -> u32
    ensures { result ≡ max one other }
{
    one.max(other)
}
