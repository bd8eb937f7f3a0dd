// How long the chains into each element are.

ghost use Rattle.std.specs.Prelude.{◌≡◌, ◌<◌, Some, length, slice_get};

use crate::reach::Reach;
use reach_rules::Chain;
use std::marker::Model;

/// The longest chains into each element of a plan.
///
/// Contracts see a list of three numbers for each element, in order: a [`Chain`]. This project's
/// own.
#[derive(Drop)]
pub struct Chains {
    pub(crate) reaches: Vec<Reach>,
}

impl Model for Chains {
    ghost use Rattle.std.specs.Prelude.{List, map};
    ghost use Rattle.reach_rules.specs.declared.chain.Chain.{Chain};
    ghost use Rattle.cycle_plan.specs.Mosts.{row_of};

    ghost Value = { List Chain };

    ghost view = { λ chains. map row_of chains.reaches.items };
}

impl Chains {
    /// The longest chains into an element, by its number.
    ///
    /// This project's own.
    pub fn of(&self, element: u32) -> Chain
        requires { element < length self.now }
        ensures { slice_get self.now element ≡ Some result }
    {
        self.reaches[element as usize].row()
    }
}
