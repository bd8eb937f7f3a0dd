ghost use Rattle.std.specs.Prelude.{◌≡◌, ◌≤◌, ◌<◌, ◌+◌, ◌-◌, ◌++◌, [], Some, None, IfSome, IfOk, OnOk, OnErr, map, take, drop, length, not, if◌then◌else◌};
ghost use Rattle.sync_ql.specs.Messages.{is_same_level};
ghost use Rattle.sync_ql.specs.declared.limits.TheConstants.{GREATEST_DELAY, LAST_MILLISECOND};
ghost use Rattle.link_model.specs.Kept.{words_kept, lost, cut_arrived, heard_of, arrival_of, loss_of, first_of, due_of};
ghost use Rattle.link_model.specs.private.Kept.{taken_in, ended, ended_arrived, new_word, starts_in, IsInRange};

use crate::word::Word;
use smallvec::SmallVec;
use std::alloc::Global;
use sync_ql::Level;
use sync_ql::limits::HEARING_TIME;
use sync_text::NoMemory;

/// The words of a line: the one that arrived last, and those on their way, the oldest first.
#[derive(Debug, Drop)]
pub struct Words {
    pub arrived: Option<Word>,
    /// Two of them in place: a line has seldom more on its way.
    pub on_way: SmallVec<Word, 2>,
}

impl Words {
    /// No words.
    pub(crate) fn new(alloc: Global) -> Words
        ensures { words_kept result ≡ record { arrived = None; on_way = [] } }
    {
        Words {
            arrived: None,
            on_way: SmallVec::new(alloc),
        }
    }

    /// The same words once more.
    pub(crate) fn try_clone(&self, alloc: Global) -> Result<Words, NoMemory>
        ensures { IfOk result (λ words. words_kept words ≡ words_kept self.now) }
    {
        match SmallVec::from_slice(alloc, self.on_way.as_slice()) {
            Ok(on_way) => Ok(Words {
                arrived: self.arrived,
                on_way,
            }),
            Err(_) => Err(NoMemory),
        }
    }

    /// Takes in the first word on its way, if it arrives now.
    pub(crate) fn take_in(&mut self, delay: u64, now: u64)
        ensures { words_kept self.new ≡ taken_in delay now self.old.arrived self.old.on_way.items }
    {
        if self.arrives(delay, now) {
            self.arrived = Some(self.on_way.remove(0));
        }
    }

    /// Whether the first word on its way arrives in a millisecond.
    pub(crate) fn arrives(&self, delay: u64, now: u64) -> bool
        ensures { result ≡ starts_in delay now self.now.on_way.items }
    {
        match self.on_way.as_slice().first() {
            Some(word) => word.arrives(delay, now),
            None => false,
        }
    }

    /// The line is up at the end of a millisecond, or down.
    pub(crate) fn pass(&mut self, delay: u64, now: u64, up: bool)
        ensures { words_kept self.new ≡
            (if up then taken_in delay now self.old.arrived self.old.on_way.items
            else lost delay now (words_kept self.old)) }
    {
        if up {
            self.take_in(delay, now);
            return;
        }
        self.arrived = cut(self.arrived, now.saturating_sub(delay));
        self.on_way.clear();
    }

    /// From now on nothing is said.
    pub(crate) fn end(&mut self, now: u64)
        ensures { words_kept self.new ≡ record {
          arrived = ended_arrived now self.old.arrived;
          on_way = map (ended now) self.old.on_way.items;
        } }
    {
        let count = self.on_way.len();
        end_words(self.on_way.as_mut_slice(), count, now);
        self.arrived = end(self.arrived, now);
    }

    /// From now on nothing is said, where the ESMC is off.
    pub(crate) fn end_unless(&mut self, on: bool, now: u64)
        ensures { words_kept self.new ≡ (if on then words_kept self.old else record {
          arrived = ended_arrived now self.old.arrived;
          on_way = map (ended now) self.old.on_way.items;
        }) }
    {
        if !on {
            self.end(now);
        }
    }

    /// Takes in what arrives now; and from now on another level is said, where that is news.
    pub(crate) fn say_if(
        &mut self,
        news: bool,
        delay: u64,
        now: u64,
        level: Level,
    ) -> Result<(), NoMemory>
        ensures ok { OnOk result (words_kept self.new ≡
            (if news then taken_in delay now (ended_arrived now self.old.arrived)
            (map (ended now) self.old.on_way.items ++ new_word now (Some level))
            else taken_in delay now self.old.arrived self.old.on_way.items)) }
        ensures unchanged { OnErr result (words_kept self.new ≡ words_kept self.old) }
    {
        if news && self.say(now, level).is_err() {
            return Err(NoMemory);
        }
        self.take_in(delay, now);
        Ok(())
    }

    /// From now on another level is said.
    fn say(&mut self, now: u64, level: Level) -> Result<(), NoMemory>
        ensures ok { OnOk result (words_kept self.new ≡ record {
          arrived = ended_arrived now self.old.arrived;
          on_way = map (ended now) self.old.on_way.items ++ new_word now (Some level);
        }) }
        ensures unchanged { OnErr result (words_kept self.new ≡ words_kept self.old) }
    {
        let count = self.on_way.len();
        let word = Word {
            sent: now,
            level,
            until: None,
        };
        if self.on_way.push(word).is_err() {
            return Err(NoMemory);
        }
        end_words(self.on_way.as_mut_slice(), count, now);
        self.arrived = end(self.arrived, now);
        Ok(())
    }

    /// The level of the word that arrived last, if its last message arrived in the last so many
    /// milliseconds before `next`.
    pub(crate) fn heard(&self, delay: u64, window: u64, next: u64) -> Option<Level>
        requires window { window ≤ HEARING_TIME }
        requires delay { delay ≤ GREATEST_DELAY }
        requires next { next ≤ LAST_MILLISECOND + 1 }
        requires in_range { IfSome self.now.arrived (λ w. w.sent ≤ LAST_MILLISECOND) }
        ensures { result ≡ heard_of delay self.now.arrived window next }
    {
        let word = self.arrived?;
        if next <= delay + word.last_sent(next.saturating_sub(delay)) + window {
            Some(word.level)
        } else {
            None
        }
    }

    /// The level of the word that arrived last, one that arrives in the millisecond included, if its
    /// last message arrived in the last so many milliseconds.
    pub(crate) fn heard_in(&self, delay: u64, window: u64, now: u64) -> Option<Level>
        requires window { 0 < window }
        requires short { window ≤ HEARING_TIME }
        requires delay { delay ≤ GREATEST_DELAY }
        requires now { now ≤ LAST_MILLISECOND }
        requires in_range { IfSome self.now.arrived (λ w. w.sent ≤ LAST_MILLISECOND) }
        ensures { result ≡ heard_of delay
            (taken_in delay now self.now.arrived self.now.on_way.items).arrived window (now + 1) }
    {
        match self.on_way.as_slice().first() {
            Some(word) if word.arrives(delay, now) => Some(word.level),
            Some(_) | None => self.heard(delay, window, now + 1),
        }
    }

    /// The first millisecond from `next` on in which a word arrives or the level heard is lost.
    pub(crate) fn due(&self, delay: u64, next: u64) -> Option<u64>
        requires delay { delay ≤ GREATEST_DELAY }
        requires arrived { IfSome self.now.arrived IsInRange }
        requires coming { IfSome (arrival_of delay self.now.on_way.items)
            (λ at. at ≤ LAST_MILLISECOND + GREATEST_DELAY) }
        ensures { result ≡ due_of delay next (words_kept self.now) }
    {
        first(self.arrival(delay), self.loss(delay, next))
    }

    fn arrival(&self, delay: u64) -> Option<u64>
        requires delay { delay ≤ GREATEST_DELAY }
        requires coming { IfSome (arrival_of delay self.now.on_way.items)
            (λ at. at ≤ LAST_MILLISECOND + GREATEST_DELAY) }
        ensures { result ≡ arrival_of delay self.now.on_way.items }
    {
        let word = self.on_way.as_slice().first()?;
        Some(word.sent + delay)
    }

    fn loss(&self, delay: u64, next: u64) -> Option<u64>
        requires delay { delay ≤ GREATEST_DELAY }
        requires arrived { IfSome self.now.arrived IsInRange }
        ensures { result ≡ loss_of delay next self.now.arrived }
    {
        let word = self.arrived?;
        let until = word.until?;
        let lost = delay + word.last_sent(until) + HEARING_TIME;
        if next <= lost { Some(lost) } else { None }
    }
}

/// The smaller of two, if there are.
fn first(one: Option<u64>, other: Option<u64>) -> Option<u64>
    ensures { result ≡ first_of one other }
{
    match (one, other) {
        (Some(one), Some(other)) if other < one => Some(other),
        (None, other) => other,
        (one, _) => one,
    }
}

/// Whether a level is another than the one that is said, or none is.
pub(crate) fn is_other(level: Level, said: Option<Level>) -> bool
    ensures { result ≡ not (is_same_level (Some level) said) }
{
    match said {
        Some(said) => !(level.option == said.option && level.place == said.place),
        None => true,
    }
}

fn cut(word: Option<Word>, end: u64) -> Option<Word>
    ensures { result ≡ cut_arrived end word }
{
    match word {
        Some(word) => Some(word.cut(end)),
        None => None,
    }
}

fn end(word: Option<Word>, now: u64) -> Option<Word>
    ensures { result ≡ ended_arrived now word }
{
    match word {
        Some(word) => Some(word.ended(now)),
        None => None,
    }
}

/// Ends the first so many words.
fn end_words(words: &mut [Word], count: usize, now: u64)
    requires count { count ≤ length words.old }
    ensures { words.new ≡ map (ended now) (take count words.old) ++ drop count words.old }
{
    for i in 0..count {
        words[i] = words[i].ended(now);
    }
}
