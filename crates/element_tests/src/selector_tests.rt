ghost use Rattle.std.specs.Prelude.{◌≤◌, ◌<◌, ◌⊎◌, IsTrue, IfSome, All};
ghost use Rattle.sync_ql.specs.Told.{IsOfOption};

use selector::{Candidate, Choice, Table, choose};
use std::alloc::{AllocError, Global};
use std::process::Abort;
use std::test::Fail;
use sync_ql::limits::MOST_INPUTS;
use sync_ql::{NetOption, level_of_name};
use sync_text::NoMemory;

// The level's name, the priority number, and whether the input is usable.
type Input = (&'static str, u8, bool);

// What is forced, what has a manual switch, and what is taken so far; then what is taken, and
// whether the manual switch stands.
type Row = (Option<u32>, Option<u32>, Option<u32>, Option<u32>, bool);

struct Case {
    shows: &'static str,
    option: NetOption,
    inputs: &'static [Input],
    rows: &'static [Row],
}

const CASES: [Case; 9] = [
    Case {
        shows: "on_a_tie_the_current_input_stays",
        option: NetOption::I,
        inputs: &[
            ("QL-PRC", 1, true),
            ("QL-PRC", 1, true),
            ("QL-SSU-A", 1, true),
        ],
        rows: &[
            (None, None, None, Some(0), false),
            (None, None, Some(0), Some(0), false),
            (None, None, Some(1), Some(1), false),
            (None, None, Some(2), Some(0), false),
            (Some(2), None, Some(1), Some(2), false),
            (None, Some(1), Some(0), Some(1), true),
            (None, Some(2), Some(1), Some(1), false),
        ],
    },
    Case {
        shows: "level_comes_before_priority",
        option: NetOption::I,
        inputs: &[("QL-SSU-A", 1, true), ("QL-PRC", 9, true)],
        rows: &[
            (None, None, None, Some(1), false),
            (None, None, Some(0), Some(1), false),
        ],
    },
    Case {
        shows: "a_smaller_number_ends_no_manual_switch",
        option: NetOption::I,
        inputs: &[("QL-PRC", 2, true), ("QL-PRC", 1, true)],
        rows: &[
            (None, None, Some(0), Some(1), false),
            (None, Some(0), Some(1), Some(0), true),
        ],
    },
    Case {
        shows: "do_not_use_is_not_taken",
        option: NetOption::I,
        inputs: &[("QL-DNU", 1, true), ("QL-SEC", 2, true)],
        rows: &[
            (None, None, None, Some(1), false),
            (Some(0), None, Some(1), None, false),
            (None, Some(0), None, Some(1), false),
        ],
    },
    Case {
        shows: "an_input_that_is_not_usable_is_not_taken",
        option: NetOption::I,
        inputs: &[("QL-PRC", 1, false), ("QL-SEC", 2, true)],
        rows: &[
            (None, None, Some(0), Some(1), false),
            (Some(0), None, Some(1), None, false),
            (None, Some(0), None, Some(1), false),
            (None, Some(1), None, Some(1), true),
        ],
    },
    Case {
        shows: "none_can_be_taken",
        option: NetOption::I,
        inputs: &[("QL-DNU", 1, true), ("", 1, true), ("QL-PRC", 1, false)],
        rows: &[
            (None, None, None, None, false),
            (None, None, Some(2), None, false),
            (Some(1), None, None, None, false),
            (None, Some(2), Some(0), None, false),
        ],
    },
    Case {
        shows: "no_inputs",
        option: NetOption::I,
        inputs: &[],
        rows: &[(None, None, None, None, false)],
    },
    Case {
        shows: "option_ii",
        option: NetOption::II,
        inputs: &[
            ("QL-DUS", 1, true),
            ("QL-PROV", 1, true),
            ("QL-STU", 3, true),
        ],
        rows: &[
            (None, None, Some(1), Some(2), false),
            (None, Some(1), None, Some(2), false),
            (Some(1), None, None, Some(1), false),
        ],
    },
    Case {
        shows: "an_input_without_a_level_is_not_taken",
        option: NetOption::II,
        inputs: &[("", 1, true), ("QL-PROV", 2, true)],
        rows: &[
            (None, None, Some(0), Some(1), false),
            (Some(0), None, None, None, false),
        ],
    },
];

fn candidates(alloc: Global, case: &Case) -> Result<Vec<Candidate>, AllocError> {
    let mut candidates = Vec::new(alloc);
    for (name, priority, usable) in case.inputs {
        candidates.push(Candidate {
            level: level_of_name(case.option, name.as_bytes()),
            priority: *priority,
            usable: *usable,
        })?;
    }
    Ok(candidates)
}

fn is_place(place: Option<u32>, inputs: usize) -> bool
    ensures { IsTrue result → IfSome place (λ i. i < inputs) }
{
    match place {
        Some(place) => (place as usize) < inputs,
        None => true,
    }
}

fn are_of(option: NetOption, inputs: &[Candidate]) -> bool
    ensures { IsTrue result → All (λ input. IsOfOption option input.level) inputs.now }
{
    inputs.iter().all(|input| is_of(option, input))
}

fn is_of(option: NetOption, input: &Candidate) -> bool
    ensures { IsTrue result → IsOfOption option input.now.level }
{
    match input.level {
        Some(level) => level.option == option,
        None => true,
    }
}

fn agrees(
    rt: &impl Abort,
    shows: &'static str,
    option: NetOption,
    inputs: &[Candidate],
    row: &Row,
) {
    let (forced, manual, current, input, manual_stands) = *row;
    assert!(rt; inputs.len() <= 64 && are_of(option, inputs));
    assert!(rt; is_place(forced, inputs.len()));
    assert!(rt; is_place(manual, inputs.len()));
    assert!(rt; is_place(current, inputs.len()));
    assert!(rt; forced.is_none() || manual.is_none());
    let expected = Choice {
        input,
        manual_stands,
    };
    let chosen = choose(inputs, forced, manual, current);
    assert!(rt; chosen == expected, "{shows}");
}

/// The same by a table.
fn agrees_by_table(rt: &impl Abort, shows: &'static str, table: &Table, row: &Row) {
    let (forced, manual, current, input, manual_stands) = *row;
    let inputs = table.inputs().len();
    assert!(rt; is_place(forced, inputs));
    assert!(rt; is_place(manual, inputs));
    assert!(rt; is_place(current, inputs));
    assert!(rt; forced.is_none() || manual.is_none());
    let expected = Choice {
        input,
        manual_stands,
    };
    let chosen = table.choose(forced, manual, current);
    assert!(rt; chosen == expected, "{shows}");
}

fn set(rt: &impl Abort, table: &mut Table, option: NetOption, i: u32, candidate: Candidate) {
    assert!(rt; (i as usize) < table.inputs().len());
    assert!(rt; are_of(option, table.inputs()) && is_of(option, &candidate));
    table.set(i, candidate);
}

fn candidate(option: NetOption, input: Input) -> Candidate {
    let (name, priority, usable) = input;
    Candidate {
        level: level_of_name(option, name.as_bytes()),
        priority,
        usable,
    }
}

fn table_of(rt: &(impl Abort + AllocGlobal), case: &Case) -> Result<Table, NoMemory> {
    let inputs = case.inputs.len();
    assert!(rt; inputs <= MOST_INPUTS);
    let mut table = Table::new(rt.alloc(), inputs as u32)?;
    let mut i = 0;
    for input in case.inputs {
        assert!(rt; i < 64);
        set(
            rt,
            &mut table,
            case.option,
            i,
            candidate(case.option, *input),
        );
        i += 1;
    }
    Ok(table)
}

#[test]
fn choices_are_those_of_the_rules(rt: HostRuntime) -> Result<(), Fail> {
    for case in &CASES {
        let inputs = candidates(rt.alloc(), case)?;
        for row in case.rows {
            agrees(&rt, case.shows, case.option, inputs.as_slice(), row);
        }
        let table = table_of(&rt, case)?;
        for row in case.rows {
            agrees_by_table(&rt, case.shows, &table, row);
        }
    }
    Ok(())
}

/// A place, what is set there, what is taken so far, and then what is taken.
type Set = (u32, Input, Option<u32>, Option<u32>);

const SETS: [Set; 14] = [
    (4, ("QL-SEC", 1, false), None, None),
    (4, ("QL-SEC", 1, true), None, Some(4)),
    (2, ("QL-SEC", 1, true), None, Some(2)),
    (2, ("QL-SEC", 1, true), Some(4), Some(4)),
    (1, ("QL-SEC", 2, true), Some(4), Some(4)),
    (3, ("QL-PRC", 9, true), Some(4), Some(3)),
    (0, ("QL-PRC", 9, true), Some(3), Some(3)),
    (0, ("QL-PRC", 9, true), None, Some(0)),
    (0, ("QL-PRC", 8, true), Some(3), Some(0)),
    (0, ("QL-DNU", 1, true), Some(0), Some(3)),
    (3, ("QL-PRC", 9, false), Some(3), Some(2)),
    (2, ("", 1, true), Some(2), Some(4)),
    (4, ("QL-SEC", 3, true), Some(4), Some(1)),
    (1, ("QL-DNU", 1, true), Some(1), Some(4)),
];

fn takes(rt: &impl Abort, table: &Table, current: Option<u32>, expected: Option<u32>) {
    assert!(rt; is_place(current, table.inputs().len()));
    assert!(rt; table.best(current) == expected);
}

#[test]
fn a_table_takes_the_best_after_each_set(rt: HostRuntime) -> Result<(), Fail> {
    let mut table = Table::new(rt.alloc(), 5)?;
    takes(&rt, &table, None, None);
    takes(&rt, &table, Some(3), None);
    for (i, input, current, expected) in SETS {
        set(
            &rt,
            &mut table,
            NetOption::I,
            i,
            candidate(NetOption::I, input),
        );
        takes(&rt, &table, current, expected);
    }
    Ok(())
}

#[test]
fn a_table_has_64_inputs(rt: HostRuntime) -> Result<(), Fail> {
    let mut table = Table::new(rt.alloc(), 64)?;
    let usable = candidate(NetOption::I, ("QL-SEC", 7, true));
    for i in 0..64 {
        set(&rt, &mut table, NetOption::I, i, usable);
        takes(&rt, &table, None, Some(0));
    }
    takes(&rt, &table, Some(63), Some(63));
    set(
        &rt,
        &mut table,
        NetOption::I,
        63,
        candidate(NetOption::I, ("QL-SEC", 6, true)),
    );
    takes(&rt, &table, Some(5), Some(63));
    Ok(())
}

#[test]
fn last_of_64_inputs(rt: HostRuntime) {
    let option = NetOption::I;
    let level = level_of_name(option, b"QL-SEC");
    let mut inputs = [Candidate {
        level,
        priority: 7,
        usable: true,
    }; 64];
    agrees(
        &rt,
        "64_alike",
        option,
        &inputs,
        &(None, None, Some(63), Some(63), false),
    );
    inputs[63].priority = 6;
    agrees(
        &rt,
        "last_is_best",
        option,
        &inputs,
        &(None, None, Some(0), Some(63), false),
    );
}
