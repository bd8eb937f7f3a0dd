// What a form finds of what was read, and the reply with it.

ghost use Rattle.std.specs.Prelude.{◌≡◌};
ghost use Rattle.sync_top.specs.private.Work.{replied};

use crate::reply::{Reply, Stop};
use crate::status::Status;
use sync_text::{NoMemory, Text};

/// How the answer to what was read ends.
#[derive(Clone, Copy, Drop)]
pub(crate) enum Finding {
    /// All was done.
    Done,
    /// Ranks don't rise, or none do; or a plan isn't protected, or doesn't agree.
    Refuted,
    /// A report ends before what doesn't fit any more.
    Stopped,
    /// A certificate is refused.
    BadCert,
    /// Events, cases or groups are refused.
    BadEvents,
    /// A frame, a row, a capture or what an element received is refused.
    BadFrames,
}

impl Finding {
    ghost use Rattle.sync_top.specs.private.Work.{ends_in};

    /// The status of the program.
    fn status(self) -> Status
        ensures { result ≡ ends_in self }
    {
        match self {
            Finding::Done => Status::Done,
            Finding::Refuted => Status::Refuted,
            Finding::Stopped => Status::Stopped,
            Finding::BadCert => Status::BadCert,
            Finding::BadEvents => Status::BadEvents,
            Finding::BadFrames => Status::BadFrames,
        }
    }
}

/// What a form finds, and its text.
#[derive(Drop)]
pub(crate) struct Found {
    pub(crate) finding: Finding,
    pub(crate) text: Text,
}

/// All was done, and this is the text.
pub(crate) fn done(text: Text) -> Found
    ensures { result ≡ record { finding = Finding.Done; text = text } }
{
    Found {
        finding: Finding::Done,
        text,
    }
}

/// It was refuted, and this is the text.
pub(crate) fn refuted(text: Text) -> Found
    ensures { result ≡ record { finding = Finding.Refuted; text = text } }
{
    Found {
        finding: Finding::Refuted,
        text,
    }
}

/// The reply with what was found.
pub(crate) fn replied(found: Result<Found, NoMemory>) -> Result<Reply, Stop>
    ensures { result ≡ replied found }
{
    match found {
        Ok(found) => Ok(Reply {
            status: found.finding.status(),
            text: found.text,
        }),
        Err(NoMemory) => Err(Stop::NoMemory),
    }
}
