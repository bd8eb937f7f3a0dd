ghost use Rattle.std.specs.Prelude.{◌≡◌, ◌≤◌, ◌<◌, ◌⊎◌, ◌↔◌, ℕ, false, IsTrue, IsNone, IfSome, length, replicate};
ghost use Rattle.sync_ql.specs.Switches.{unswitched, is_locked, is_rejected, other_than, carried_out, after_command, without_manual, NamesInput};
ghost use Rattle.operator_cmds.specs.Switched.{forced_by, manual_by};

use std::marker::Model;
use sync_ql::limits::MOST_INPUTS;
use sync_ql::rules::Cmd;

/// Whether a command was carried out.
///
/// After G.781, external commands, which are rejected where one of higher priority stands.
#[derive(Clone, Copy, Debug, PartialEq, Eq)]
pub enum Applied {
    /// It was, also where it left all as it was.
    Taken,
    /// It was not, and nothing changed.
    Rejected,
}

/// The lockouts of an element, and its forced or manual switch.
///
/// Inputs are named by their place, from 0.
/// After G.781, lockout, forced switch and manual switch.
#[derive(Debug, Drop)]
pub struct Cmds {
    inputs: u32,
    /// Which inputs are locked out; beyond `inputs` none is.
    locked: [bool; MOST_INPUTS],
    switch: Switch,
}

/// At most one switch stands at a time.
#[derive(Clone, Copy, Debug, PartialEq, Eq)]
enum Switch {
    Off,
    Forced(u32),
    Manual(u32),
}

impl Switch {
    /// What stays of a switch where an input is locked out.
    fn without_forced(self, i: u32) -> Switch
        ensures forced { forced_by result ≡ other_than i (forced_by self) }
        ensures manual { manual_by result ≡ manual_by self }
    {
        match self {
            Switch::Forced(forced) if forced == i => Switch::Off,
            _ => self,
        }
    }
}

impl Model for Cmds {
    ghost use Rattle.sync_ql.specs.Switches.{Switches};
    ghost use Rattle.operator_cmds.specs.Switched.{switched};
    ghost use Rattle.operator_cmds.specs.private.Switched.{IsKept};

    ghost Value = { Switches };

    ghost view = { switched };

    ghost invariant = { IsKept };
}

impl Cmds {
    /// No lockout and no switch, for an element of at most 64 inputs.
    ///
    /// After G.781, where no external command was given.
    pub fn new(inputs: u32) -> Cmds
        requires few { inputs ≤ 64 }
        ensures empty { result ≡ unswitched inputs }
        ensures inputs { length result.locked ≡ inputs }
    {
        Cmds {
            inputs,
            locked: none_locked_out(),
            switch: Switch::Off,
        }
    }

    /// The same switches once more. This project's own.
    pub fn copy(&self) -> Cmds
        ensures { result ≡ self.now }
    {
        Cmds {
            inputs: self.inputs,
            locked: self.locked,
            switch: self.switch,
        }
    }

    /// Carries a command out, or rejects it.
    ///
    /// `Rejected` exactly where a switch is to an input that is locked out, or a manual switch is
    /// given while an input is forced. A lockout of the forced input ends the forced switch.
    /// After G.781, priority of external commands; that a rejected one is not kept is this
    /// project's own.
    pub fn apply(&mut self, cmd: Cmd) -> Applied
        requires place { NamesInput (length self.old.locked) cmd }
        ensures table { self.new ≡ after_command self.old cmd }
        ensures rejected { (result ≡ Applied.Rejected) ↔ IsTrue (is_rejected self.old cmd) }
        ensures kept { result ≡ Applied.Rejected → self.new ≡ self.old }
        ensures inputs { length self.new.locked ≡ length self.old.locked }

        // A forced input is never one that is locked out, and no two switches stand at once.
        ensures forced_is_free { IfSome self.new.forced (λ i. is_locked self.new i ≡ false) }
        ensures one_switch { IsNone self.new.forced ⊎ IsNone self.new.manual }
    {
        if self.is_rejected(cmd) {
            return Applied::Rejected;
        }
        match cmd {
            Cmd::Lockout(i) => self.lock_out(i),
            Cmd::Unlock(i) => self.locked[i as usize] = false,
            Cmd::Forced(i) => self.switch = Switch::Forced(i),
            Cmd::Manual(i) => self.switch = Switch::Manual(i),
            Cmd::Clear => self.switch = Switch::Off,
        }
        Applied::Taken
    }

    /// Whether an input is locked out.
    ///
    /// After G.781, lockout.
    pub fn locked(&self, input: u32) -> bool
        requires place { input < length self.now.locked }
        ensures value { result ≡ is_locked self.now input }
    {
        self.locked[input as usize]
    }

    /// The input of the forced switch.
    ///
    /// `None` exactly where none is forced.
    /// After G.781, forced switch.
    pub fn forced(&self) -> Option<u32>
        ensures value { result ≡ self.now.forced }
        ensures place { IfSome result (λ i. i < length self.now.locked) }
        ensures free { IfSome result (λ i. is_locked self.now i ≡ false) }
    {
        match self.switch {
            Switch::Forced(i) => Some(i),
            Switch::Off | Switch::Manual(_) => None,
        }
    }

    /// The input of the manual switch.
    ///
    /// `None` exactly where there is no manual switch, as wherever an input is forced.
    /// After G.781, manual switch.
    pub fn manual(&self) -> Option<u32>
        ensures value { result ≡ self.now.manual }
        ensures place { IfSome result (λ i. i < length self.now.locked) }
        ensures none_forced { IfSome result (λ _. IsNone self.now.forced) }
    {
        match self.switch {
            Switch::Manual(i) => Some(i),
            Switch::Off | Switch::Forced(_) => None,
        }
    }

    /// Ends the manual switch, if there is one.
    ///
    /// This is for the end of a millisecond in which its input was not good enough.
    /// After G.781, manual switch, which an input of a better level ends.
    pub fn drop_manual(&mut self)
        ensures dropped { self.new ≡ without_manual self.old }
    {
        if let Switch::Manual(_) = self.switch {
            self.switch = Switch::Off;
        }
    }

    /// A lockout takes the forced switch away from its input, and leaves a manual one.
    #[tactic(auto, using(crate::proofs::Lockouts::free_of_others))]
    fn lock_out(&mut self, i: u32)
        requires place { i < length self.old.locked }
        ensures { self.new ≡ carried_out self.old (Cmd.Lockout i) }
    {
        self.locked[i as usize] = true;
        self.switch = self.switch.without_forced(i);
    }

    fn is_rejected(&self, cmd: Cmd) -> bool
        requires place { NamesInput (length self.now.locked) cmd }
        ensures { result ≡ is_rejected self.now cmd }
    {
        match cmd {
            Cmd::Lockout(_) | Cmd::Unlock(_) | Cmd::Clear => false,
            Cmd::Forced(i) => self.locked(i),
            Cmd::Manual(i) => self.locked(i) || self.forced().is_some(),
        }
    }
}

fn none_locked_out() -> [bool; MOST_INPUTS]
    ensures { result ≡ replicate 64 false }
{
    [false; MOST_INPUTS]
}
