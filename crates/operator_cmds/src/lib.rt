//! What an operator has told one element: which inputs are locked out, and which one is forced or
//! switched to by hand.
//!
//! [`Cmds`] keeps this for up to 64 inputs and takes one command after another. Contracts see it
//! as the record `Switches`, and each command by the table of the rules (`after_command`,
//! `is_rejected`). That a manual switch ends where its input is no longer good enough is not
//! decided here: whoever chooses the input says so by [`Cmds::drop_manual`]. Nothing takes memory.
//!
//! After ITU-T G.781, lockout, forced switch, manual switch and clear. The tests go through the
//! table of commands.
#![tactic(auto)]

mod cmds;

pub use cmds::{Applied, Cmds};
pub use sync_ql::rules::Cmd;
