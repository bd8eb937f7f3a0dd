// A plan in which each element without a clock takes its timing over one line of the fewest hops.

ghost use Rattle.std.specs.Prelude.{◌≡◌, ◌<◌, ◌+◌, ◌*◌, ℕ, length, map, IfOk};
ghost use Rattle.std.specs.List.{range_with_len};
ghost use Rattle.sync_topo.specs.Lines.{line_count};
ghost use Rattle.reach_rules.specs.declared.failure.Failure.TheVariants as fails;
ghost use Rattle.reach_rules.specs.Protection.{IsProtectedFrom};
ghost use Rattle.nominate.specs.HopCount.{AreHopCounts};
ghost use Rattle.protection.specs.Orderly.{IsFound};
ghost use Rattle.protection.specs.private.Tree.{pick_at, ArePicks, tree_priority, IsTree};

use cycle_plan::{Agreement, agree};
use nominate::{Hops, is_one_less, with_priorities};
use std::alloc::Global;
use sync_text::NoMemory;
use sync_topo::{LineId, Plan};

/// The plan in which each element without a clock of its own takes its timing over one line alone, by
/// which it has the fewest hops: orderly, and with no failure it cuts nobody off.
pub(crate) fn tree_of(alloc: Global, plan: &Plan, hops: &Hops) -> Result<Plan, NoMemory>
    requires { AreHopCounts plan.now hops.now }
    ensures found { IfOk result (IsFound plan.now) }
    ensures served { IfOk result (λ tree. IsProtectedFrom tree fails.Nothing) }
{
    let tree = tree_plan(alloc, plan, hops)?;
    let agreement = agree(alloc, &tree)?;
    match agreement {
        Agreement::Bound(_) => Ok(tree),
        Agreement::Clash(_) => unreachable!(),
    }
}

/// The plan itself.
fn tree_plan(alloc: Global, plan: &Plan, hops: &Hops) -> Result<Plan, NoMemory>
    requires { AreHopCounts plan.now hops.now }
    ensures { IfOk result (IsTree plan.now) }
{
    // Every plan keeps the rules.
    let _lines = plan.lines();
    let picks = picks_of(alloc, plan, hops)?;
    let priorities = priorities_of(alloc, plan, picks.as_slice())?;
    let given = with_priorities(alloc, plan, priorities.as_slice())?;
    match given {
        Some(tree) => Ok(tree),
        None => unreachable!(),
    }
}

/// A line for each element into which one leads from an element with one hop less.
fn picks_of(alloc: Global, plan: &Plan, hops: &Hops) -> Result<Vec<Option<u32>>, NoMemory>
    requires { length hops.now ≡ length plan.now.elements }
    ensures { IfOk result (λ picks. ArePicks plan.now hops.now (line_count plan.now) picks.items) }
{
    let Ok(mut picks) = vec![in alloc; None; plan.elements() as usize] else {
        return Err(NoMemory);
    };
    for number in 0..plan.lines() {
        pick(plan, hops, LineId(number), picks.as_mut_slice());
    }
    Ok(picks)
}

/// Picks a line for its element, if it comes from an element with one hop less.
fn pick(plan: &Plan, hops: &Hops, line: LineId, picks: &mut [Option<u32>])
    requires counted { length hops.now ≡ length plan.now.elements }
    requires within { line.0 < line_count plan.now }
    requires before { ArePicks plan.now hops.now line.0 picks.old }
    ensures after { ArePicks plan.now hops.now (line.0 + 1) picks.new }
{
    let receiver = plan.to(line);
    if !is_one_less(hops.of(plan.from(line)), hops.of(receiver)) {
        return;
    }
    picks[receiver as usize] = Some(line.0);
}

/// The priority of each line.
fn priorities_of(alloc: Global, plan: &Plan, picks: &[Option<u32>]) -> Result<Vec<u8>, NoMemory>
    ensures { IfOk result (λ priorities. priorities.items
        ≡ map (tree_priority plan.now picks.now) (range_with_len 0 (line_count plan.now))) }
{
    let Ok(mut priorities) = Vec::with_capacity(alloc, plan.lines() as usize) else {
        return Err(NoMemory);
    };
    for number in 0..plan.lines() {
        let Ok(()) = priorities.push(priority_of(plan, picks, LineId(number))) else {
            return Err(NoMemory);
        };
    }
    Ok(priorities)
}

/// The priority of a line.
fn priority_of(plan: &Plan, picks: &[Option<u32>], line: LineId) -> u8
    requires { line.0 < line_count plan.now }
    ensures { result ≡ tree_priority plan.now picks.now line.0 }
{
    match pick_at(picks, plan.to(line)) {
        Some(pick) if pick == line.0 => 1,
        _ => 0,
    }
}

/// The line that is picked for an element, if one is.
fn pick_at(picks: &[Option<u32>], element: u32) -> Option<u32>
    ensures { result ≡ pick_at picks.now element }
{
    match picks.get(element as usize) {
        Some(pick) => *pick,
        None => None,
    }
}
