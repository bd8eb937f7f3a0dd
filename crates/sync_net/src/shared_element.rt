//! An element of a network, or of the one from which it goes on.

ghost use Rattle.std.specs.Prelude.{◌≡◌, ◌≤◌, ◌+◌, false, All, IfOk, OnOk};
ghost use Rattle.sync_ql.specs.Told.{FitsElement};
ghost use Rattle.sync_element.specs.ElementState.{IsInTime};
ghost use Rattle.sync_element.specs.StandsAfter.{IsStepped};
ghost use Rattle.sync_net.specs.private.Steps.{IsSteady};

use crate::calls::step_element;
use std::alloc::Global;
use std::marker::Model;
use std::sync::ledger::Ledger;
use sync_element::{Element, InputEvent};
use sync_ql::limits::LAST_MILLISECOND;
use sync_text::{NoMemory, Steps};

/// An element of a network, which has its own, or until it makes a step that of another network.
#[derive(Debug, Drop)]
pub struct SharedElement<'a> {
    alloc: Global,
    kept: KeptElement<'a>,
}

/// Whose an element is.
#[derive(Debug, Drop)]
enum KeptElement<'a> {
    /// The network's own.
    Own(Box<Element>),
    /// That of another network.
    Shared(&'a Element),
}

impl<'a> Model for SharedElement<'a> {
    ghost use Rattle.sync_element.specs.ElementState.{ElementState};

    ghost Value = { ElementState };

    ghost use Rattle.sync_net.specs.private.SharedElements.{element_in};

    ghost view = { λ shared. element_in shared.kept };
}

impl<'a> SharedElement<'a> {
    /// An element of a network's own.
    pub(crate) fn new(alloc: Global, element: Element) -> Result<SharedElement<'a>, NoMemory>
        ensures { IfOk result (λ shared. shared ≡ element) }
    {
        match Box::new(alloc, element) {
            Ok(own) => Ok(SharedElement {
                alloc,
                kept: KeptElement::Own(own),
            }),
            Err(_) => Err(NoMemory),
        }
    }

    /// The element.
    pub(crate) fn get(&self) -> &Element
        ensures { result.now ≡ self.now }
    {
        match &self.kept {
            KeptElement::Own(own) => own,
            KeptElement::Shared(other) => other,
        }
    }

    /// When it is due.
    pub(crate) fn due(&self) -> Option<u64>
        ensures { result ≡ self.now.due }
    {
        self.get().due()
    }

    /// The same element for another network, until that one calls it.
    pub(crate) fn share<'b>(&'b self) -> SharedElement<'b>
        ensures { result ≡ self.now }
    {
        SharedElement {
            alloc: self.alloc,
            kept: KeptElement::Shared(self.get()),
        }
    }

    /// A copy of a network's own.
    pub(crate) fn try_clone<'b>(&self, alloc: Global) -> Result<SharedElement<'b>, NoMemory>
        ensures { IfOk result (λ shared. shared ≡ self.now) }
    {
        let copy = self.get().try_clone(alloc)?;
        let shared = SharedElement::new(alloc, copy)?;
        Ok(shared)
    }

    /// Lets it make a step, and answers whether it takes something else then or has another level.
    /// What is another network's is copied first.
    pub(crate) fn step<L: Ledger>(
        &mut self,
        now: u64,
        told: &[InputEvent],
        steps: &mut Steps<L>,
    ) -> Result<bool, NoMemory>
        requires in_time { IsInTime self.old now }
        requires in_range { now ≤ LAST_MILLISECOND }
        requires fits { All (FitsElement self.old.settings) told.now }
        ensures stepped { OnOk result (IsStepped now told.now self.old self.new) }
        ensures steady { IfOk result (λ other. other ≡ false → IsSteady now self.old self.new) }
        ensures ticks { OnOk result (steps.new ≡ steps.old + 1) }
    {
        if let KeptElement::Own(own) = &mut self.kept {
            return Ok(step_element(own, now, told, steps));
        }
        let other = self.step_copy(now, told, steps)?;
        Ok(other)
    }

    /// The step of a copy.
    fn step_copy<L: Ledger>(
        &mut self,
        now: u64,
        told: &[InputEvent],
        steps: &mut Steps<L>,
    ) -> Result<bool, NoMemory>
        requires in_time { IsInTime self.old now }
        requires in_range { now ≤ LAST_MILLISECOND }
        requires fits { All (FitsElement self.old.settings) told.now }
        ensures stepped { OnOk result (IsStepped now told.now self.old self.new) }
        ensures steady { IfOk result (λ other. other ≡ false → IsSteady now self.old self.new) }
        ensures ticks { OnOk result (steps.new ≡ steps.old + 1) }
    {
        let mut copy = self.get().try_clone(self.alloc)?;
        let other = step_element(&mut copy, now, told, steps);
        *self = SharedElement::new(self.alloc, copy)?;
        Ok(other)
    }
}
