//! What may be said of an input, by its place among those of its element.

ghost use Rattle.std.specs.Prelude.{◌≡◌};
ghost use Rattle.net_words.specs.Words.{said_as};

use sync_ql::Level;
use sync_ql::rules::{Cmd, InputEvent};

/// What is said of an input.
#[derive(Clone, Copy, Debug, PartialEq, Eq)]
pub enum Saying {
    /// It is up, or down.
    IsUp(bool),
    /// It has a level.
    HasLevel(Level),
    /// Its wait-to-restore time is cleared.
    IsCleared,
    /// A lockout of it is asked for.
    IsLocked,
    /// Its lockout is to end.
    IsUnlocked,
    /// A forced switch to it is asked for.
    IsForced,
    /// A manual switch to it is asked for.
    IsManual,
}

/// It is told of the input at a place. After G.781, external commands.
pub fn said_as(saying: Saying, place: u32) -> InputEvent
    ensures { result ≡ said_as saying place }
{
    match saying {
        Saying::IsUp(up) => InputEvent::Signal(place, up),
        Saying::HasLevel(level) => InputEvent::Heard(place, Some(level)),
        Saying::IsCleared => InputEvent::ClearWtr(place),
        Saying::IsLocked => InputEvent::Command(Cmd::Lockout(place)),
        Saying::IsUnlocked => InputEvent::Command(Cmd::Unlock(place)),
        Saying::IsForced => InputEvent::Command(Cmd::Forced(place)),
        Saying::IsManual => InputEvent::Command(Cmd::Manual(place)),
    }
}
