ghost use Rattle.std.specs.Prelude.{◌≡◌, ◌≤◌, IsTrue, length};
ghost use Rattle.sync_ql.specs.Switches.{NamesInput};

use operator_cmds::Applied::{Rejected, Taken};
use operator_cmds::Cmd::{Clear, Forced, Lockout, Manual, Unlock};
use operator_cmds::{Applied, Cmd, Cmds};
use std::process::Abort;

// A command, what becomes of it, and then: whether input 1 is locked out, which input is forced,
// and which has a manual switch.
type Row = (Cmd, Applied, bool, Option<u32>, Option<u32>);

// An element of three inputs: how it came to be so, and each command on input 1.
struct State {
    shows: &'static str,
    before: &'static [Cmd],
    rows: &'static [Row],
}

const STATES: [State; 8] = [
    State {
        shows: "free",
        before: &[],
        rows: &[
            (Lockout(1), Taken, true, None, None),
            (Unlock(1), Taken, false, None, None),
            (Forced(1), Taken, false, Some(1), None),
            (Manual(1), Taken, false, None, Some(1)),
            (Clear, Taken, false, None, None),
        ],
    },
    State {
        shows: "locked_out",
        before: &[Lockout(1)],
        rows: &[
            (Lockout(1), Taken, true, None, None),
            (Unlock(1), Taken, false, None, None),
            (Forced(1), Rejected, true, None, None),
            (Manual(1), Rejected, true, None, None),
            (Clear, Taken, true, None, None),
        ],
    },
    State {
        shows: "forced",
        before: &[Forced(1)],
        rows: &[
            (Lockout(1), Taken, true, None, None),
            (Unlock(1), Taken, false, Some(1), None),
            (Forced(1), Taken, false, Some(1), None),
            (Manual(1), Rejected, false, Some(1), None),
            (Clear, Taken, false, None, None),
        ],
    },
    State {
        shows: "manual",
        before: &[Manual(1)],
        rows: &[
            (Lockout(1), Taken, true, None, Some(1)),
            (Unlock(1), Taken, false, None, Some(1)),
            (Forced(1), Taken, false, Some(1), None),
            (Manual(1), Taken, false, None, Some(1)),
            (Clear, Taken, false, None, None),
        ],
    },
    State {
        shows: "other_is_forced",
        before: &[Forced(2)],
        rows: &[
            (Lockout(1), Taken, true, Some(2), None),
            (Forced(1), Taken, false, Some(1), None),
            (Manual(1), Rejected, false, Some(2), None),
        ],
    },
    State {
        shows: "other_is_manual",
        before: &[Manual(2)],
        rows: &[
            (Lockout(1), Taken, true, None, Some(2)),
            (Forced(1), Taken, false, Some(1), None),
            (Manual(1), Taken, false, None, Some(1)),
        ],
    },
    State {
        shows: "locked_out_while_other_is_forced",
        before: &[Lockout(1), Forced(2)],
        rows: &[
            (Unlock(2), Taken, true, Some(2), None),
            (Unlock(1), Taken, false, Some(2), None),
            (Lockout(2), Taken, true, None, None),
        ],
    },
    State {
        shows: "manual_is_locked_out",
        before: &[Manual(1), Lockout(1)],
        rows: &[
            (Manual(1), Rejected, true, None, Some(1)),
            (Unlock(1), Taken, false, None, Some(1)),
        ],
    },
];

fn names_input(inputs: u32, command: Cmd) -> bool
    ensures { IsTrue result → NamesInput inputs command }
{
    match command {
        Lockout(i) | Unlock(i) | Forced(i) | Manual(i) => i < inputs,
        Clear => true,
    }
}

fn after(rt: &impl Abort, inputs: u32, commands: &[Cmd]) -> Cmds
    requires few { inputs ≤ 64 }
    ensures inputs { length result.locked ≡ inputs }
{
    let mut cmds = Cmds::new(inputs);
    for command in commands {
        assert!(rt; names_input(inputs, *command));
        cmds.apply(*command);
    }
    cmds
}

#[test]
fn commands_are_those_of_the_table(rt: HostRuntime) {
    for state in &STATES {
        let shows = state.shows;
        for (command, applied, locked, forced, manual) in state.rows {
            let mut cmds = after(&rt, 3, state.before);
            assert!(rt; names_input(3, *command));
            assert!(rt; cmds.apply(*command) == *applied, "{shows}");
            assert!(rt; cmds.locked(1) == *locked, "{shows}");
            assert!(rt; cmds.forced() == *forced, "{shows}");
            assert!(rt; cmds.manual() == *manual, "{shows}");
        }
    }
}

#[test]
fn last_of_64_inputs(rt: HostRuntime) {
    let mut cmds = after(&rt, 64, &[Lockout(63), Forced(62)]);
    cmds.drop_manual();
    assert!(rt; cmds.locked(63) && !cmds.locked(62) && !cmds.locked(0));
    assert!(rt; cmds.forced() == Some(62));
    let mut cmds = after(&rt, 64, &[Manual(63)]);
    cmds.drop_manual();
    assert!(rt; cmds.manual() == None);
}
