ghost use Rattle.std.specs.Prelude.{◌≡◌};

/// How a run of the program ended.
///
/// This project's own.
#[derive(Clone, Copy, Debug, PartialEq, Eq, Drop)]
pub enum Status {
    /// The answer was written.
    Done,
    /// `check`, `prio-check`: the rank doesn't rise over some hop; `rank`, `chains`, `prio-rank`:
    /// no ranks rise; `protected`, `protect`: a failure cuts somebody off who needn't be; `agree`: lines
    /// bear on one another in a circle.
    Refuted,
    /// The words are no form of the program.
    Usage,
    /// The plan is refused.
    BadPlan,
    /// The certificate is refused.
    BadCert,
    /// The event list is refused.
    BadEvents,
    /// A captured frame, a row, a capture or what an element received is refused.
    BadFrames,
    /// The folder failed, or a file isn't there.
    ReadFault,
    /// The sink failed.
    WriteFault,
    /// A file has more than 8,388,608 bytes, or than 1,073,741,824 where the plan is large, or may be.
    TooLong,
    /// Out of memory. Nothing was written.
    NoMemory,
    /// `sim`: the changes were too many, and the report ends before them; `node`: the rows were.
    Stopped,
}

impl Status {
    ghost use Rattle.sync_top.specs.Status.{exit_number};

    /// The exit status of the program, 0 to 11.
    pub fn number(self) -> u8
        ensures { result ≡ exit_number self }
    {
        match self {
            Status::Done => 0,
            Status::Refuted => 1,
            Status::Usage => 2,
            Status::BadPlan => 3,
            Status::BadCert => 4,
            Status::BadEvents => 5,
            Status::BadFrames => 6,
            Status::ReadFault => 7,
            Status::WriteFault => 8,
            Status::TooLong => 9,
            Status::NoMemory => 10,
            Status::Stopped => 11,
        }
    }
}
