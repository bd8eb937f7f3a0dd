//! A line of a network, or of the one from which it goes on.

ghost use Rattle.std.specs.Prelude.{◌≡◌, ◌≤◌, ◌+◌, ◌*◌, IfOk, IfSome, OnOk};
ghost use Rattle.sync_net.specs.private.Steps.{IsLineTold, IsLineSaid};

use crate::calls::{say_on_line, tell_line};
use crate::signals::LineSignal;
use link_model::Line;
use std::alloc::Global;
use std::marker::Model;
use sync_ql::Level;
use sync_ql::limits::LAST_MILLISECOND;
use sync_text::NoMemory;

/// A line of a network, which has its own, or until it is called that of another network.
#[derive(Debug, Drop)]
pub struct SharedLine<'a> {
    alloc: Global,
    kept: KeptLine<'a>,
}

/// Whose a line is.
#[derive(Debug, Drop)]
enum KeptLine<'a> {
    /// The network's own.
    Own(Box<Line>),
    /// That of another network.
    Shared(&'a Line),
}

impl<'a> Model for SharedLine<'a> {
    ghost use Rattle.link_model.specs.LineState.{LineState};

    ghost Value = { LineState };

    ghost use Rattle.sync_net.specs.private.SharedLines.{line_kept};

    ghost view = { λ shared. line_kept shared.kept };
}

impl<'a> SharedLine<'a> {
    /// A line of a network's own.
    pub(crate) fn new(alloc: Global, line: Line) -> Result<SharedLine<'a>, NoMemory>
        ensures { IfOk result (λ shared. shared ≡ line) }
    {
        match Box::new(alloc, line) {
            Ok(own) => Ok(SharedLine {
                alloc,
                kept: KeptLine::Own(own),
            }),
            Err(_) => Err(NoMemory),
        }
    }

    /// The line.
    pub(crate) fn get(&self) -> &Line
        ensures { result.now ≡ self.now }
    {
        match &self.kept {
            KeptLine::Own(own) => own,
            KeptLine::Shared(other) => other,
        }
    }

    /// When it is due.
    pub(crate) fn due(&self) -> Option<u64>
        ensures { result ≡ self.now.due }
    {
        self.get().due()
    }

    /// The same line for another network, until that one calls it.
    pub(crate) fn share<'b>(&'b self) -> SharedLine<'b>
        ensures { result ≡ self.now }
    {
        SharedLine {
            alloc: self.alloc,
            kept: KeptLine::Shared(self.get()),
        }
    }

    /// A copy of a network's own.
    pub(crate) fn try_clone<'b>(&self, alloc: Global) -> Result<SharedLine<'b>, NoMemory>
        ensures { IfOk result (λ shared. shared ≡ self.now) }
    {
        let copy = self.get().try_clone(alloc)?;
        let shared = SharedLine::new(alloc, copy)?;
        Ok(shared)
    }

    /// Tells whether it is up and its ESMC is on, takes what arrives, and answers the level that is
    /// heard then. What is another network's is copied first.
    pub(crate) fn tell(&mut self, now: u64, signal: LineSignal) -> Result<Option<Level>, NoMemory>
        requires turn { self.old.turn ≤ 4 * now }
        requires in_time { IfSome self.old.due (λ due. now ≤ due) }
        requires in_range { now ≤ LAST_MILLISECOND }
        ensures { IfOk result (IsLineTold now signal self.old self.new) }
    {
        if let KeptLine::Own(own) = &mut self.kept {
            return Ok(tell_line(own, now, signal));
        }
        let heard = self.tell_copy(now, signal)?;
        Ok(heard)
    }

    /// Tells a copy.
    fn tell_copy(&mut self, now: u64, signal: LineSignal) -> Result<Option<Level>, NoMemory>
        requires turn { self.old.turn ≤ 4 * now }
        requires in_time { IfSome self.old.due (λ due. now ≤ due) }
        requires in_range { now ≤ LAST_MILLISECOND }
        ensures { IfOk result (IsLineTold now signal self.old self.new) }
    {
        let mut copy = self.get().try_clone(self.alloc)?;
        let heard = tell_line(&mut copy, now, signal);
        *self = SharedLine::new(self.alloc, copy)?;
        Ok(heard)
    }

    /// Gives it its level, and answers when it is due next. What is another network's is copied
    /// first.
    pub(crate) fn say(&mut self, now: u64, level: Level) -> Result<Option<u64>, NoMemory>
        requires turn { self.old.turn ≤ 4 * now + 3 }
        requires in_time { IfSome self.old.due (λ due. now ≤ due) }
        requires in_range { now ≤ LAST_MILLISECOND }
        ensures said { OnOk result (IsLineSaid now level self.old self.new) }
        ensures due { IfOk result (λ due. due ≡ self.new.due) }
    {
        if let KeptLine::Own(own) = &mut self.kept {
            let due = say_on_line(own, now, level)?;
            return Ok(due);
        }
        let due = self.say_copy(now, level)?;
        Ok(due)
    }

    /// Gives a copy its level.
    fn say_copy(&mut self, now: u64, level: Level) -> Result<Option<u64>, NoMemory>
        requires turn { self.old.turn ≤ 4 * now + 3 }
        requires in_time { IfSome self.old.due (λ due. now ≤ due) }
        requires in_range { now ≤ LAST_MILLISECOND }
        ensures said { OnOk result (IsLineSaid now level self.old self.new) }
        ensures due { IfOk result (λ due. due ≡ self.new.due) }
    {
        let mut copy = self.get().try_clone(self.alloc)?;
        let due = say_on_line(&mut copy, now, level)?;
        *self = SharedLine::new(self.alloc, copy)?;
        Ok(due)
    }
}
