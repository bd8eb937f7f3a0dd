//! The rules of one element over time, which the simulating crates stand on.
//!
//! The rules themselves are definitions in `specs/`, over a list of past milliseconds. This module
//! has the types in which they ask and answer.

use crate::levels::Level;

/// The condition of an input at a millisecond.
///
/// After G.781, signal fail with hold-off time and wait-to-restore time; what is left is this
/// project's own.
#[derive(Clone, Copy, Debug, PartialEq, Eq)]
pub enum Cond {
    /// Up, and not failed.
    Good,
    /// Down, and not failed yet: in how many milliseconds it will be, if it stays down.
    HoldOff(u32),
    /// Down, and failed.
    Failed,
    /// Up, and still failed: in how many milliseconds it is good, if it stays up.
    Restoring(u32),
}

/// An operator's command to one element. An input is named by its place among the element's
/// inputs, from 0.
///
/// After G.781, lockout, forced switch, manual switch and clear.
#[derive(Clone, Copy, Debug, PartialEq, Eq)]
pub enum Cmd {
    /// Lock an input out, so that it is never taken.
    Lockout(u32),
    /// Let an input that was locked out be taken again.
    Unlock(u32),
    /// Take this input and no other, whatever its level.
    Forced(u32),
    /// Take this input while no other has a better level.
    Manual(u32),
    /// End a forced or manual switch.
    Clear,
}

/// What the choice among an element's inputs looks at in one input.
///
/// After G.781, quality level and priority.
#[derive(Clone, Copy, Debug, Default, PartialEq, Eq)]
pub struct Candidate {
    /// The level that the input has, if it has one.
    pub level: Option<Level>,
    /// The priority number, of which the smaller comes first.
    pub priority: u8,
    /// Not locked out, not failed, and not below the element's floor.
    pub usable: bool,
}

/// What is told of one element's inputs, or to the element, in a millisecond. An input is named by
/// its place among the element's inputs, from 0.
///
/// After G.781, signal fail, quality level, and external commands.
#[derive(Clone, Copy, Debug, PartialEq, Eq)]
pub enum InputEvent {
    /// The input is up from now on, or down.
    Signal(u32, bool),
    /// The input has this level from now on, or none.
    Heard(u32, Option<Level>),
    /// The wait-to-restore time of the input is cleared in this millisecond.
    ClearWtr(u32),
    /// The operator's command.
    Command(Cmd),
}

/// How an element's input is chosen.
///
/// After G.781, automatic, forced and manual selection.
#[derive(Clone, Copy, Debug, PartialEq, Eq)]
pub enum Mode {
    /// By level and priority alone.
    Auto,
    /// By a forced switch.
    Forced,
    /// By a manual switch.
    Manual,
}

/// What an element's clock follows.
///
/// After G.781 and G.810, free-running, locked and holdover mode.
#[derive(Clone, Copy, Debug, PartialEq, Eq)]
pub enum ClockState {
    /// No input, and there never was one.
    FreeRun,
    /// The input that is taken.
    Locked,
    /// No input, and there was one earlier.
    Holdover,
}
