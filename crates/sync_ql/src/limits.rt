//! The ranges of an element's times and inputs, of a line's delay and of time itself, and for how long
//! a level is heard, each said once.
//!
//! Hold-off and wait-to-restore times are after G.781, and how long a level is heard after G.8264; the
//! others are this project's own.

/// The shortest hold-off time, in milliseconds.
pub const LEAST_HOLDOFF: u32 = 300;

/// The longest hold-off time, in milliseconds.
pub const GREATEST_HOLDOFF: u32 = 1800;

/// The longest wait-to-restore time, in minutes.
pub const GREATEST_WTR_MINUTES: u32 = 12;

/// A second, in milliseconds. Messages without news go out at the whole seconds.
pub const SECOND: u64 = 1000;

/// A minute, in milliseconds.
pub const MINUTE: u32 = 60_000;

/// The longest wait-to-restore time, in milliseconds.
pub const GREATEST_WTR: u32 = 720_000;

/// The most nominated inputs that an element has.
pub const MOST_INPUTS: usize = 64;

/// The shortest delay of a line, in milliseconds.
pub const LEAST_DELAY: u32 = 1;

/// The longest delay of a line, in milliseconds.
pub const GREATEST_DELAY: u32 = 2000;

/// For so many milliseconds a level is heard after the message that brought it.
pub const HEARING_TIME: u64 = 5000;

/// The last millisecond of which anything is said, 24 hours after 0.
pub const LAST_MILLISECOND: u64 = 86_400_000;
