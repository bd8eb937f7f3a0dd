ghost use Rattle.std.specs.Prelude.{◌≤◌, ◌+◌, ◌*◌, IsTrue, IfSome};

use crate::sync_ql_tests::level;
use Told::{Down, Nothing, Off, On, Says, Up};
use link_model::{Line, Word};
use std::alloc::Global;
use std::process::Abort;
use std::test::Fail;
use sync_ql::{Level, NetOption, level_of_name};
use sync_text::NoMemory;

/// What is told in a millisecond, with levels by their names; where the line is up or its ESMC is
/// on again, its level is said again.
#[derive(Clone, Copy)]
enum Told {
    Nothing,
    Up(&'static str),
    Down,
    On(&'static str),
    Off,
    Says(&'static str),
}

impl Told {
    fn level(self) -> Option<Level> {
        match self {
            Up(name) | On(name) | Says(name) => named(name),
            Nothing | Down | Off => None,
        }
    }
}

/// A millisecond and what is told in it; then the level that arrives, the one that is heard, "" for
/// none, and what is due.
type Row = (u64, Told, &'static str, &'static str, Option<u64>);

#[derive(Drop)]
struct Case {
    shows: &'static str,
    delay: u32,
    rows: &'static [Row],
}

const CASES: [Case; 13] = [
    Case {
        shows: "repeated_each_second_and_lost_five_seconds_after_the_last",
        delay: 10,
        rows: &[
            (0, Says("QL-PRC"), "", "", Some(10)),
            (9, Nothing, "", "", Some(10)),
            (10, Nothing, "QL-PRC", "QL-PRC", None),
            (1009, Nothing, "", "QL-PRC", None),
            (1010, Nothing, "QL-PRC", "QL-PRC", None),
            (2500, Off, "", "QL-PRC", Some(7010)),
            (7009, Nothing, "", "QL-PRC", Some(7010)),
            (7010, Nothing, "", "", None),
        ],
    },
    Case {
        shows: "a_message_is_lost_where_the_line_goes_down_in_its_flight",
        delay: 100,
        rows: &[
            (0, Says("QL-PRC"), "", "", Some(100)),
            (50, Down, "", "", None),
            (100, Nothing, "", "", None),
            (200, Up("QL-PRC"), "", "", Some(300)),
            (300, Nothing, "QL-PRC", "QL-PRC", None),
        ],
    },
    Case {
        shows: "and_in_the_millisecond_in_which_it_would_arrive",
        delay: 100,
        rows: &[
            (0, Says("QL-PRC"), "", "", Some(100)),
            (100, Down, "", "", None),
        ],
    },
    Case {
        shows: "what_arrived_just_before_is_heard_for_five_seconds",
        delay: 100,
        rows: &[
            (0, Says("QL-PRC"), "", "", Some(100)),
            (100, Nothing, "QL-PRC", "QL-PRC", None),
            (101, Down, "", "QL-PRC", Some(5100)),
            (5099, Nothing, "", "QL-PRC", Some(5100)),
            (5100, Nothing, "", "", None),
        ],
    },
    Case {
        shows: "up_where_the_line_was_up_changes_nothing",
        delay: 10,
        rows: &[
            (0, Says("QL-PRC"), "", "", Some(10)),
            (5, Up("QL-PRC"), "", "", Some(10)),
            (10, Nothing, "QL-PRC", "QL-PRC", None),
        ],
    },
    Case {
        shows: "a_repeat_is_lost_where_the_line_goes_down_before_it_arrives",
        delay: 100,
        rows: &[
            (990, Says("QL-PRC"), "", "", Some(1090)),
            (1010, Off, "", "", Some(1090)),
            (1090, Nothing, "QL-PRC", "QL-PRC", Some(6100)),
            (1095, Down, "", "QL-PRC", Some(6090)),
            (1200, Nothing, "", "QL-PRC", Some(6090)),
            (6089, Nothing, "", "QL-PRC", Some(6090)),
            (6090, Nothing, "", "", None),
        ],
    },
    Case {
        shows: "and_arrives_where_the_line_goes_down_later",
        delay: 100,
        rows: &[
            (990, Says("QL-PRC"), "", "", Some(1090)),
            (1010, Off, "", "", Some(1090)),
            (1090, Nothing, "QL-PRC", "QL-PRC", Some(6100)),
            (1100, Nothing, "QL-PRC", "QL-PRC", Some(6100)),
            (1200, Down, "", "QL-PRC", Some(6100)),
            (6099, Nothing, "", "QL-PRC", Some(6100)),
            (6100, Nothing, "", "", None),
        ],
    },
    Case {
        shows: "levels_said_and_unsaid_within_the_delay_all_arrive",
        delay: 50,
        rows: &[
            (100, Says("QL-PRC"), "", "", Some(150)),
            (110, Says("QL-SSU-A"), "", "", Some(150)),
            (120, Off, "", "", Some(150)),
            (150, Nothing, "QL-PRC", "QL-PRC", Some(160)),
            (160, Nothing, "QL-SSU-A", "QL-SSU-A", Some(5160)),
            (5159, Nothing, "", "QL-SSU-A", Some(5160)),
            (5160, Nothing, "", "", None),
        ],
    },
    Case {
        shows: "a_level_said_again_after_another_within_the_delay_arrives_again",
        delay: 50,
        rows: &[
            (100, Says("QL-PRC"), "", "", Some(150)),
            (110, Says("QL-SSU-A"), "", "", Some(150)),
            (120, Says("QL-PRC"), "", "", Some(150)),
            (150, Nothing, "QL-PRC", "QL-PRC", Some(160)),
            (160, Nothing, "QL-SSU-A", "QL-SSU-A", Some(170)),
            (170, Nothing, "QL-PRC", "QL-PRC", None),
        ],
    },
    Case {
        shows: "off_and_on_again_within_five_seconds_is_heard_throughout",
        delay: 10,
        rows: &[
            (0, Says("QL-PRC"), "", "", Some(10)),
            (10, Nothing, "QL-PRC", "QL-PRC", None),
            (500, Off, "", "QL-PRC", Some(5010)),
            (4000, On("QL-PRC"), "", "QL-PRC", Some(4010)),
            (4010, Nothing, "QL-PRC", "QL-PRC", None),
            (5010, Nothing, "QL-PRC", "QL-PRC", None),
            (9999, Nothing, "", "QL-PRC", None),
        ],
    },
    Case {
        shows: "the_same_level_said_again_is_no_news",
        delay: 1,
        rows: &[
            (0, Says("QL-PRC"), "", "", Some(1)),
            (1, Says("QL-PRC"), "QL-PRC", "QL-PRC", None),
            (2, Says("QL-SSU-A"), "", "QL-PRC", Some(3)),
            (3, Nothing, "QL-SSU-A", "QL-SSU-A", None),
            (1001, Nothing, "QL-SSU-A", "QL-SSU-A", None),
        ],
    },
    Case {
        shows: "the_longest_delay",
        delay: 2000,
        rows: &[
            (0, Says("QL-PRC"), "", "", Some(2000)),
            (1999, Nothing, "", "", Some(2000)),
            (2000, Nothing, "QL-PRC", "QL-PRC", None),
            (2001, Nothing, "", "QL-PRC", None),
            (3000, Nothing, "QL-PRC", "QL-PRC", None),
        ],
    },
    Case {
        shows: "a_line_that_has_no_level_says_nothing",
        delay: 10,
        rows: &[
            (0, Nothing, "", "", None),
            (1010, Nothing, "", "", None),
            (1500, Off, "", "", None),
            (1600, Says("QL-PRC"), "", "", None),
            (2010, Nothing, "", "", None),
            (2500, On("QL-SSU-A"), "", "", Some(2510)),
            (2510, Nothing, "QL-SSU-A", "QL-SSU-A", None),
        ],
    },
];

fn named(name: &'static str) -> Option<Level> {
    level_of_name(NetOption::I, name.as_bytes())
}

fn is_in_time(line: &Line, now: u64) -> bool
    ensures { IsTrue result → IfSome line.now.due (λ due. now ≤ due) }
{
    match line.due() {
        Some(due) => now <= due,
        None => true,
    }
}

/// Tells whether the line is up and its ESMC is on, where that is told.
fn turn(rt: &impl Abort, line: &mut Line, now: u64, told: Told)
    requires turn { line.old.turn ≤ 4 * now }
    requires in_range { now ≤ 86400000 }
    ensures turn { line.new.turn ≤ 4 * now + 2 }
{
    assert!(rt; is_in_time(line, now));
    match told {
        Up(_) => line.set_up(now, true),
        Down => line.set_up(now, false),
        On(_) => line.set_esmc(now, true),
        Off => line.set_esmc(now, false),
        Nothing | Says(_) => {}
    }
}

/// Tells a millisecond, and gives what arrives in it.
fn tell(rt: &impl Abort, line: &mut Line, now: u64, told: Told) -> Result<Option<Level>, NoMemory>
    requires turn { line.old.turn ≤ 4 * now }
    requires in_range { now ≤ 86400000 }
    ensures turn { line.new.turn ≤ 4 * now + 4 }
{
    turn(rt, line, now, told);
    assert!(rt; is_in_time(line, now));
    let arrives = line.take_due(now);
    let Some(level) = told.level() else {
        return Ok(arrives);
    };
    assert!(rt; is_in_time(line, now));
    line.say(now, level)?;
    Ok(arrives)
}

/// A millisecond in which nothing is told, and what is due in it is taken.
fn wait(rt: &impl Abort, line: &mut Line, now: u64)
    requires turn { line.old.turn ≤ 4 * now }
    requires in_range { now ≤ 86400000 }
    ensures turn { line.new.turn ≤ 4 * now + 4 }
{
    if line.due() == Some(now) {
        assert!(rt; is_in_time(line, now));
        let _arrives = line.take_due(now);
    }
}

fn wait_until(rt: &impl Abort, line: &mut Line, from: u64, until: u64)
    requires turn { line.old.turn ≤ 4 * from }
    requires order { from ≤ until }
    requires in_range { until ≤ 86400000 }
    ensures turn { line.new.turn ≤ 4 * until }
{
    for now in from..until {
        wait(rt, line, now);
    }
}

fn heard(rt: &impl Abort, line: &Line, now: u64) -> Option<Level>
    requires turn { line.now.turn ≤ 4 * now + 4 }
    requires in_range { now ≤ 86400000 }
{
    assert!(rt; is_in_time(line, now));
    line.heard(now)
}

fn agrees(rt: &impl Abort, alloc: Global, case: &Case) -> Result<(), NoMemory> {
    let shows = case.shows;
    assert!(rt; 1 <= case.delay && case.delay <= 2000, "{shows}");
    let mut line = Line::new(alloc, case.delay)?;
    let mut next = 0;
    for row in case.rows {
        let now = row.0;
        assert!(rt;
            next <= now && now <= 86_400_000,
            "{shows}: {now} is in range"
        );
        wait_until(rt, &mut line, next, now);
        let arrives = tell(rt, &mut line, now, row.1)?;
        assert!(rt; arrives == named(row.2), "{shows}");
        let level = heard(rt, &line, now);
        assert!(rt; level == named(row.3), "{shows}");
        assert!(rt; line.due() == row.4, "{shows}");
        next = now + 1;
    }
    Ok(())
}

#[test]
fn histories_are_answered_by_the_rules(rt: HostRuntime) -> Result<(), Fail> {
    for case in &CASES {
        agrees(&rt, rt.alloc(), case)?;
    }
    Ok(())
}

/// Two levels within the delay, and then the line is down.
#[test]
fn words_on_their_way(rt: HostRuntime) -> Result<(), Fail> {
    let mut line = Line::new(rt.alloc(), 50)?;
    tell(&rt, &mut line, 100, Says("QL-PRC"))?;
    tell(&rt, &mut line, 110, Says("QL-SSU-A"))?;
    let first = Word {
        sent: 100,
        level: level(&rt, "QL-PRC"),
        until: Some(110),
    };
    let last = Word {
        sent: 110,
        level: level(&rt, "QL-SSU-A"),
        until: None,
    };
    assert!(&rt; line.on_way().len() == 2);
    assert!(&rt; line.on_way().first() == Some(&first));
    assert!(&rt; line.on_way().last() == Some(&last));
    assert!(&rt; line.up() && line.speaking());
    tell(&rt, &mut line, 120, Off)?;
    assert!(&rt; line.up() && !line.speaking());
    tell(&rt, &mut line, 130, Down)?;
    assert!(&rt; !line.up() && line.on_way().is_empty());
    Ok(())
}
