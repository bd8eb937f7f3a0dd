//! One network element over time: which input it takes, which level it has, and what it sends back.
//!
//! An [`Element`] is told what happens at its inputs and by its operator, a millisecond at a time
//! and only where something happens or is due. It keeps no list of the past. Contracts see it as a
//! record (`ElementState`) and say for which past it stands (`StandsFor`): each step makes that past
//! longer, and each answer is what the rules say of it, from the last step up to but not at `due`.
//! Only [`Element::new`] and [`Element::try_clone`] take memory. A step's work is by the inputs, of
//! which there are at most 64.
//!
//! After ITU-T G.781: hold-off and wait-to-restore, external commands, selection by quality level
//! and priority, and do-not-use on the way back. The tests go through
//! histories whose answers, times and levels sent back are written by hand.
#![tactic(auto)]

mod candidates;
mod config;
mod element;
mod inputs;
mod renewing;
mod selection;
mod starting;
mod watched;

pub use config::{Config, InputConfig};
pub use element::Element;
pub use sync_ql::rules::{ClockState, Cmd, Cond, InputEvent, Mode};
