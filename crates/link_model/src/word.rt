ghost use Rattle.std.specs.Prelude.{◌≡◌, ◌≤◌, ◌+◌, ◌-◌, nat_eq};
ghost use Rattle.sync_ql.specs.declared.limits.TheConstants.{LAST_MILLISECOND};
ghost use Rattle.link_model.specs.Spoken.{end_before, second_before, last_sent};
ghost use Rattle.link_model.specs.Kept.{cut_at};
ghost use Rattle.link_model.specs.private.Kept.{ended};

use sync_ql::limits::SECOND;
use sync_ql::{Level, NetOption, do_not_use};

/// A level that a line says from one millisecond on, until another.
///
/// It begins with a message, and is repeated each second. After G.8264, event and information
/// messages.
#[derive(Clone, Copy, Debug, PartialEq, Eq)]
pub struct Word {
    /// The millisecond in which it was said first.
    pub sent: u64,
    /// The level that is said.
    pub level: Level,
    /// The millisecond from which on it is no longer said, if it has ended.
    pub until: Option<u64>,
}

impl Default for Word {
    /// What stands in a list's empty places.
    fn default() -> Word {
        Word {
            sent: 0,
            level: do_not_use(NetOption::I),
            until: None,
        }
    }
}

impl Word {
    /// Whether its first message arrives in a millisecond.
    pub(crate) fn arrives(self, delay: u64, now: u64) -> bool
        ensures { result ≡ nat_eq (self.sent + delay) now }
    {
        delay <= now && self.sent == now - delay
    }

    /// The word, said no longer from now on.
    pub(crate) fn ended(self, now: u64) -> Word
        ensures { result ≡ ended now self }
    {
        match self.until {
            Some(_) => self,
            None => Word {
                sent: self.sent,
                level: self.level,
                until: Some(now),
            },
        }
    }

    /// The word, said no longer than until an end.
    pub(crate) fn cut(self, end: u64) -> Word
        ensures { result ≡ cut_at end self }
    {
        Word {
            sent: self.sent,
            level: self.level,
            until: Some(self.end_before(end)),
        }
    }

    /// The end of the word, or a millisecond if that is earlier.
    pub(crate) fn end_before(self, now: u64) -> u64
        ensures value { result ≡ end_before self.until now }
        ensures bound { result ≤ now }
    {
        match self.until {
            Some(until) if until < now => until,
            Some(_) | None => now,
        }
    }

    /// Of the milliseconds before `now` in which it was said, the last in which a message went out.
    pub(crate) fn last_sent(self, now: u64) -> u64
        requires low { self.sent ≤ LAST_MILLISECOND }
        requires in_range { now ≤ LAST_MILLISECOND + 1 }
        ensures value { result ≡ last_sent self now }
        ensures bound { result ≤ LAST_MILLISECOND + 1 }
    {
        let second = second_before(self.end_before(now));
        if second < self.sent {
            self.sent
        } else {
            second
        }
    }
}

/// The last whole second before a millisecond, or 0.
fn second_before(now: u64) -> u64
    ensures value { result ≡ second_before now }
    ensures bound { result ≤ now }
{
    let last = now.saturating_sub(1);
    last - last % SECOND
}
