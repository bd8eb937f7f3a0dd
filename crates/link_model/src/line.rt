ghost use Rattle.std.specs.Prelude.{◌≡◌, ◌≤◌, ◌<◌, ◌+◌, ◌*◌, [], ℕ, suc, true, ◌&&◌, not, List, Some, None, All, IfSome, IfOk, OnOk, OnErr, length, map, ◌⊎◌};
ghost use Rattle.sync_ql.specs.declared.levels.NetOption.{NetOption};
ghost use Rattle.sync_ql.specs.Told.{IsOfOption};
ghost use Rattle.sync_ql.specs.Messages.{LineMoment, said, came, heard_at, delivered, on_way_at, unchanged, after_unchanged, line_until, hearing_time, IsLineDue, is_same_level};
ghost use Rattle.link_model.specs.Busy.{IsBusyAt};
ghost use Rattle.link_model.specs.Calls.{with_up, with_esmc, with_level, turned};
ghost use Rattle.link_model.specs.Carried.{HasLevel};
ghost use Rattle.link_model.specs.Spoken.{message_of};
ghost use Rattle.link_model.specs.StandsFor.{StandsFor, AreOfOption};

use crate::word::Word;
use crate::words::{Words, is_other};
use std::alloc::Global;
use std::marker::Model;
use sync_ql::Level;
use sync_ql::limits::{GREATEST_DELAY, HEARING_TIME, LAST_MILLISECOND, LEAST_DELAY};
use sync_text::NoMemory;

/// The turns of a millisecond, one for each call in its order.
const TURNS: u64 = 4;

/// One delayed line, from what its sender says to what is heard at its end.
///
/// Times are milliseconds from 0. In one millisecond the calls come in the order `set_up`,
/// `set_esmc`, `take_due`, `say`, each at most once; a call that changes nothing may be left out,
/// and so may every millisecond in which nothing is told and nothing is due. Before its first
/// call a line is up, its ESMC is on, and its sender gave it no level.
/// After G.8264, event and information messages; one delay and whole milliseconds are this
/// project's own.
#[derive(Debug, Drop)]
pub struct Line {
    delay: u64,
    /// The turns taken.
    turn: u64,
    up: bool,
    esmc: bool,
    level: Option<Level>,
    words: Words,
}

impl Model for Line {
    ghost use Rattle.link_model.specs.LineState.{LineState};

    ghost Value = { LineState };

    ghost use Rattle.link_model.specs.Whole.{line_state};
    ghost use Rattle.link_model.specs.private.Whole.{IsKept};

    ghost view = { line_state };

    ghost invariant = { IsKept };
}

impl Line {
    /// A line with a delay of 1 to 2000 milliseconds, of which nothing was told.
    ///
    /// This project's own.
    pub fn new(alloc: Global, delay: u32) -> Result<Line, NoMemory>
        requires not_short { LEAST_DELAY ≤ delay }
        requires not_long { delay ≤ GREATEST_DELAY }
        ensures delay { IfOk result (λ line. line.delay ≡ delay) }
        ensures turn { IfOk result (λ line. line.turn ≡ 0) }
        ensures due { IfOk result (λ line. line.due ≡ None) }
        ensures options { (option : NetOption) → IfOk result (AreOfOption option) }
        ensures stands { IfOk result (λ line. StandsFor line []) }
    {
        Ok(Line {
            delay: u64::from(delay),
            turn: 0,
            up: true,
            esmc: true,
            level: None,
            words: Words::new(alloc),
        })
    }

    /// The same line once more, as it is after its last call. It takes memory by the number of words
    /// on its way.
    ///
    /// This project's own.
    pub fn try_clone(&self, alloc: Global) -> Result<Line, NoMemory>
        ensures { IfOk result (λ line. line ≡ self.now) }
    {
        let words = self.words.try_clone(alloc)?;
        Ok(Line {
            delay: self.delay,
            turn: self.turn,
            up: self.up,
            esmc: self.esmc,
            level: self.level,
            words,
        })
    }

    /// Tells whether the line is up at the end of a millisecond.
    ///
    /// Where it goes down, what is on its way is lost; what arrived is still heard. Where it speaks
    /// from now on, it has no level until `say` gives one.
    /// After G.781, signal fail, for lines.
    pub fn set_up(&mut self, now: u64, up: bool)
        requires turn { self.old.turn ≤ 4 * now }
        requires in_time { IfSome self.old.due (λ due. now ≤ due) }
        requires in_range { now ≤ LAST_MILLISECOND }
        ensures delay { self.new.delay ≡ self.old.delay }
        ensures turn { self.new.turn ≡ 4 * now + 1 }
        ensures due { IfSome self.new.due (λ due. now < due) }
        ensures options { (option : NetOption) → AreOfOption option self.old →
            AreOfOption option self.new }
        ensures stands { (past : List LineMoment) → StandsFor self.old past →
            StandsFor self.new (with_up up (line_until (suc now) past)) }
    {
        let level = self.level_if(up, self.esmc);
        self.words.pass(self.delay, now, up);
        self.up = up;
        self.level = level;
        self.turn = TURNS * now + 1;
    }

    /// Tells whether the line's ESMC is on at the end of a millisecond.
    ///
    /// Where it goes off, what is on its way still arrives. Where the line speaks from now on, it
    /// has no level until `say` gives one.
    /// After G.8264, the ESMC of a port.
    pub fn set_esmc(&mut self, now: u64, on: bool)
        requires turn { self.old.turn ≤ 4 * now + 1 }
        requires in_time { IfSome self.old.due (λ due. now ≤ due) }
        requires in_range { now ≤ LAST_MILLISECOND }
        ensures delay { self.new.delay ≡ self.old.delay }
        ensures turn { self.new.turn ≡ 4 * now + 2 }
        ensures due { IfSome self.new.due (λ due. now < due) }
        ensures options { (option : NetOption) → AreOfOption option self.old →
            AreOfOption option self.new }
        ensures stands { (past : List LineMoment) → StandsFor self.old past →
            StandsFor self.new (with_esmc on (line_until (suc now) past)) }
    {
        let level = self.level_if(self.up, on);
        self.words.take_in(self.delay, now);
        self.words.end_unless(on, now);
        self.esmc = on;
        self.level = level;
        self.turn = TURNS * now + 2;
    }

    /// The level of the message that arrives in a millisecond, one that only repeats included.
    ///
    /// `None` exactly where no message arrives in it.
    /// After G.8264, event and information messages.
    pub fn take_due(&mut self, now: u64) -> Option<Level>
        requires turn { self.old.turn ≤ 4 * now + 2 }
        requires in_time { IfSome self.old.due (λ due. now ≤ due) }
        requires in_range { now ≤ LAST_MILLISECOND }
        ensures delay { self.new.delay ≡ self.old.delay }
        ensures turn { self.new.turn ≡ 4 * now + 3 }
        ensures due { IfSome self.new.due (λ due. now < due) }
        ensures options { (option : NetOption) → AreOfOption option self.old →
            AreOfOption option self.new }
        ensures stands { (past : List LineMoment) → StandsFor self.old past →
            StandsFor self.new (line_until (suc now) past) }
        ensures came { (past : List LineMoment) → StandsFor self.old past →
            result ≡ came self.old.delay (line_until (suc now) past) }
    {
        self.words.take_in(self.delay, now);
        self.turn = TURNS * now + 3;
        self.words.heard(self.delay, 1, now + 1)
    }

    /// Gives the line its level from a millisecond on.
    ///
    /// A message goes out with it where the line speaks and said another level, or none. `Err` is
    /// answered only when out of memory, and then the line is as before.
    /// After G.8264, event messages.
    pub fn say(&mut self, now: u64, level: Level) -> Result<(), NoMemory>
        requires turn { self.old.turn ≤ 4 * now + 3 }
        requires in_time { IfSome self.old.due (λ due. now ≤ due) }
        requires in_range { now ≤ LAST_MILLISECOND }
        ensures delay { self.new.delay ≡ self.old.delay }
        ensures turn { OnOk result (self.new.turn ≡ 4 * now + 4) }
        ensures due { OnOk result (IfSome self.new.due (λ due. now < due)) }
        ensures options { (option : NetOption) → level.option ≡ option →
            AreOfOption option self.old → AreOfOption option self.new }
        ensures stands { OnOk result ((past : List LineMoment) → StandsFor self.old past →
            StandsFor self.new (with_level level (line_until (suc now) past))) }
        ensures unchanged { OnErr result (self.new ≡ self.old) }
    {
        let news = self.says_other(level);
        match self.words.say_if(news, self.delay, now, level) {
            Ok(()) => {
                self.level = Some(level);
                self.turn = TURNS * now + 4;
                Ok(())
            }
            Err(NoMemory) => Err(NoMemory),
        }
    }

    /// The level that is heard at the end of the line in a millisecond, if nothing more is told.
    ///
    /// It is asked for after the calls of that millisecond. `None` exactly where no level is heard.
    /// After G.8264, the level of the last message, for five seconds.
    pub fn heard(&self, now: u64) -> Option<Level>
        requires turn { self.now.turn ≤ 4 * now + 4 }
        requires in_time { IfSome self.now.due (λ due. now ≤ due) }
        requires in_range { now ≤ LAST_MILLISECOND }
        ensures options { (option : NetOption) → AreOfOption option self.now →
            IsOfOption option result }
        ensures heard { (past : List LineMoment) → StandsFor self.now past →
            result ≡ heard_at self.now.delay (line_until (suc now) past) }
    {
        self.words.heard_in(self.delay, HEARING_TIME, now)
    }

    /// The first later millisecond in which a message with news arrives, or the level that is heard
    /// is lost, if nothing is told.
    ///
    /// `None` exactly where neither comes. The next call is made in it at the latest.
    /// After G.8264; the exact millisecond is this project's own.
    pub fn due(&self) -> Option<u64>
        ensures value { result ≡ self.now.due }
        ensures later { IfSome result (λ due. self.now.turn ≤ 4 * due) }
        ensures in_range { IfSome result (λ due.
            due ≤ LAST_MILLISECOND + GREATEST_DELAY + hearing_time) }
        ensures next { (past : List LineMoment) → StandsFor self.now past →
            IsLineDue self.now.delay past result }
        ensures busy { (past : List LineMoment) → StandsFor self.now past →
            IfSome result (IsBusyAt self.now.delay past) }
    {
        let next = (self.turn + (TURNS - 1)) / TURNS;
        self.words.due(self.delay, next)
    }

    /// Whether the line is up, as told last.
    ///
    /// After G.781, signal fail, for lines.
    pub fn up(&self) -> bool
        ensures { (past : List LineMoment) → StandsFor self.now past →
            result ≡ (unchanged past).up }
    {
        self.up
    }

    /// Whether the line speaks: it is up and its ESMC is on, as told last.
    ///
    /// After G.8264, the ESMC of a port.
    pub fn speaking(&self) -> bool
        ensures { (past : List LineMoment) → StandsFor self.now past →
            result ≡ ((unchanged past).up && (unchanged past).esmc) }
    {
        self.up && self.esmc
    }

    /// The words on their way, the oldest first, without those messages that only repeat.
    ///
    /// They are at most one for each millisecond of the delay.
    /// After G.8264, event messages.
    pub fn on_way(&self) -> &[Word]
        ensures few { length result.now ≤ self.now.delay }
        ensures options { (option : NetOption) → AreOfOption option self.now →
            All (λ word. word.level.option ≡ option) result.now }
        ensures on_way { (past : List LineMoment) → StandsFor self.now past →
            map message_of result.now ≡ on_way_at self.now.delay past }
        ensures carried { (past : List LineMoment) (k : ℕ) (level : Level) →
            StandsFor self.now past → self.now.delay < length past + suc k →
            delivered self.now.delay (after_unchanged (suc k) past) ≡ Some level →
            (heard_at self.now.delay past ≡ Some level)
            ⊎ HasLevel level (on_way_at self.now.delay past) }
    {
        self.words.on_way.as_slice()
    }

    /// Whether the line speaks, and says another level than this, or none.
    fn says_other(&self, level: Level) -> bool
        ensures { result ≡ ((self.now.kept.now.up && self.now.kept.now.esmc)
            && not (is_same_level (Some level) self.now.kept.now.level)) }
    {
        self.up && self.esmc && is_other(level, self.level)
    }

    /// The level that the line has where it is up or down and its ESMC on or off: none yet where it
    /// speaks from now on.
    fn level_if(&self, up: bool, esmc: bool) -> Option<Level>
        ensures { result ≡ (turned self.now.kept.now up esmc).level }
    {
        if up && esmc && !(self.up && self.esmc) {
            None
        } else {
            self.level
        }
    }
}
