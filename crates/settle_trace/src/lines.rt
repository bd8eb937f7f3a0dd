//! Whether one line is settled.

ghost use Rattle.std.specs.Prelude.{◌≡◌, ◌≤◌, ◌+◌, ◌*◌, ℕ, suc, ◌&&◌, List, map, IfSome};
ghost use Rattle.std.specs.List.{list_all};
ghost use Rattle.sync_ql.specs.Messages.{LineMoment, heard_at, on_way_at, unchanged, line_until, is_same_level, IsLineDue};
ghost use Rattle.link_model.specs.Spoken.{message_of};
ghost use Rattle.link_model.specs.StandsFor.{StandsFor};
ghost use Rattle.settle_trace.specs.private.Resting.{at_rest, hears_all};

use link_model::{Line, Word};
use sync_ql::limits::LAST_MILLISECOND;
use sync_ql::{Level, is_same_level};

/// Whether nothing changes on a line by itself, by what is heard on it and on its way.
pub(crate) fn is_at_rest(line: &Line, now: u64) -> bool
    requires turn { line.now.turn ≤ 4 * now + 4 }
    requires in_time { IfSome line.now.due (λ due. now ≤ due) }
    requires in_range { now ≤ LAST_MILLISECOND }
    ensures rest { (past : List LineMoment) → StandsFor line.now past →
        result ≡ at_rest (unchanged past).up ((unchanged past).up && (unchanged past).esmc)
        (heard_at line.now.delay (line_until (suc now) past)) (on_way_at line.now.delay past) }
    ensures next { (past : List LineMoment) → StandsFor line.now past →
        IsLineDue line.now.delay past line.now.due }
{
    let _due = line.due();
    rests(line.up(), line.speaking(), line.heard(now), line.on_way())
}

fn rests(up: bool, speaks: bool, heard: Option<Level>, words: &[Word]) -> bool
    ensures { result ≡ at_rest up speaks heard (map message_of words.now) }
{
    match (up, speaks) {
        (false, _) => true,
        (true, true) => hears_all(heard, words),
        (true, false) => heard.is_none() && words.is_empty(),
    }
}

fn hears_all(heard: Option<Level>, words: &[Word]) -> bool
    ensures { result ≡ hears_all heard (map message_of words.now) }
{
    match heard {
        Some(level) => all_say(words, level),
        None => false,
    }
}

fn all_say(words: &[Word], level: Level) -> bool
    ensures { result ≡ list_all (λ word. is_same_level (Some word.level) (Some level)) words.now }
{
    words.iter().all(|word| is_same_level(word.level, level))
}
