//! What no run of the program shows of a simulator: a run in several advances, and one that is not watched.

ghost use Rattle.std.specs.Prelude.{◌≡◌, ◌≤◌, ◌<◌, IsTrue};
ghost use Rattle.event_sim.specs.SimState.{first_after};

use event_sim::{Change, Reach, Sim, Watch};
use plan_file::read_plan;
use std::marker::Brand;
use std::process::Abort;
use std::sync::ledger::{Blank, Ledger};
use std::test::Fail;
use sync_ql::limits::LAST_MILLISECOND;
use sync_ql::rules::ClockState::{self, Holdover, Locked};
use sync_ql::rules::Mode;
use sync_ql::{Level, NetOption, level_of_name};
use sync_text::{NoMemory, Steps};
use sync_topo::{Event, InputId, LineId, Part, Plan, Size, What};
use test_makers::SOURCED_CHAIN;

/// The millisecond, the element, the input, the level and the state of a row; all are selected
/// automatically.
type Row = (u64, u32, Option<InputId>, &'static str, ClockState);

const SOURCE: Option<InputId> = Some(InputId::Source(0));

const FIRST: Option<InputId> = Some(InputId::Line(LineId(0)));

const SECOND: Option<InputId> = Some(InputId::Line(LineId(2)));

/// The source at the first element goes down at 1000: each level comes ten milliseconds later to
/// the next element, and the hold-off time is 300.
const CHAIN_ROWS: [Row; 7] = [
    (0, 0, SOURCE, "QL-PRC", Locked),
    (10, 1, FIRST, "QL-PRC", Locked),
    (10, 2, SECOND, "QL-SEC", Locked),
    (20, 2, SECOND, "QL-PRC", Locked),
    (1300, 0, None, "QL-SEC", Holdover),
    (1310, 1, FIRST, "QL-SEC", Locked),
    (1320, 2, SECOND, "QL-SEC", Locked),
];

fn level(rt: &impl Abort, name: &'static str) -> Level {
    let level = level_of_name(NetOption::I, name.as_bytes());
    level.expect(rt, "a level of the option")
}

fn agrees(rt: &impl Abort, change: Change, row: Row) {
    assert!(rt; change.at == row.0);
    assert!(rt; change.element == row.1);
    assert!(rt; change.mode == Mode::Auto);
    assert!(rt; change.input == row.2);
    assert!(rt; change.level == level(rt, row.3));
    assert!(rt; change.state == row.4);
}

fn all_agree(rt: &impl Abort, changes: &[Change], rows: &[Row]) {
    assert!(rt; changes.len() == rows.len());
    for (place, row) in rows.iter().enumerate() {
        agrees(rt, changes[place], *row);
    }
}

fn is_later(reached: Option<u64>, at: u64) -> bool
    ensures { IsTrue result → first_after reached ≤ at }
{
    match reached {
        Some(reached) => reached < at,
        None => true,
    }
}

/// Advances a simulator, which is told of the event, if there is one.
fn go_on<L: Ledger>(
    rt: &impl Abort,
    sim: &mut Sim<'_>,
    event: Option<Event>,
    until: u64,
    steps: &mut Steps<L>,
) -> Result<Reach, NoMemory> {
    assert!(rt; until <= LAST_MILLISECOND);
    assert!(rt; !sim.spent());
    assert!(rt; !sim.stopped());
    assert!(rt; is_later(sim.reached(), until));
    let Some(event) = event else {
        return sim.advance(&[], until, steps);
    };
    assert!(rt; sim.net().plan().fits(&event));
    assert!(rt; is_later(sim.reached(), event.at));
    assert!(rt; event.at <= until);
    sim.advance(&[event], until, steps)
}

/// A chain in three advances.
fn run_chain<L: Ledger>(
    rt: &impl Abort,
    sim: &mut Sim<'_>,
    rows: &[Row],
    steps: &mut Steps<L>,
) -> Result<(), NoMemory> {
    let down = Event {
        at: 1000,
        what: What::Down(Part::Source(0)),
    };
    assert!(rt; go_on(rt, sim, None, 15, steps)? == Reach::Until);
    assert!(rt; go_on(rt, sim, None, 900, steps)? == Reach::Until);
    assert!(rt; go_on(rt, sim, Some(down), 2000, steps)? == Reach::Until);
    assert!(rt; sim.reached() == Some(2000));
    all_agree(rt, sim.changes(), rows);
    Ok(())
}

fn chain_changes<L: Ledger>(
    rt: &(impl Abort + AllocGlobal),
    plan: &Plan,
    watch: Watch,
    rows: &[Row],
    steps: &mut Steps<L>,
) -> Result<(), NoMemory> {
    let mut sim = Sim::new(rt.alloc(), plan, watch)?;
    run_chain(rt, &mut sim, rows, steps)
}

fn chains<L: Ledger>(rt: &(impl Abort + AllocGlobal), steps: &mut Steps<L>) -> Result<(), Fail> {
    let plan = read_plan(rt.alloc(), SOURCED_CHAIN, Size::Standard)?;
    chain_changes(rt, &plan, Watch::Changes, &CHAIN_ROWS, steps)?;
    chain_changes(rt, &plan, Watch::Nothing, &[], steps)?;
    Ok(())
}

fn run_all<L: Ledger>(rt: &(impl Abort + AllocGlobal), blank: Blank) -> Result<(), Fail>
    requires name { blank.name ≡ L.name }
    requires parts { blank.parts ≡ L.parts }
    requires some { 0 < blank.parts }
{
    let mut steps = Steps::<L>::new(blank);
    chains(rt, &mut steps)
}

#[test]
fn runs_by_hand_are_answered_by_the_rules(rt: HostRuntime) -> Result<(), Fail> {
    run_all::<Brand>(&rt, Blank::new(1))
}
