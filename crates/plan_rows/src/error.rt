ghost use Rattle.std.specs.Prelude.{◌≡◌};
ghost use Rattle.plan_rows.specs.Refusal.{number_of};

use sync_topo::{Place, PlanErr};
use thiserror::Error;

/// Why a file gives no plan, and where.
///
/// This project's own.
#[derive(Clone, Copy, Debug, PartialEq, Eq, Error)]
pub enum PlanFileErr {
    /// The bytes are no TOML document in UTF-8.
    #[error("no TOML document")]
    Syntax,
    /// The table at this place has an unknown key, or lacks one that it must have.
    #[error("{0}: a table has an unknown key, or lacks one")]
    Key(Place),
    /// What stands at this place is no table, or has a value of another kind than its key's.
    #[error("{0}: a value is of the wrong kind")]
    Kind(Place),
    /// The rows break a rule for plans.
    #[error("{0}")]
    Plan(PlanErr),
}

impl PlanFileErr {
    /// The number by which the refusal is printed, from 22 to 25. That of a rule for plans, 25, is
    /// followed by the rule's own.
    ///
    /// This project's own.
    pub fn number(self) -> u8
        ensures { result ≡ number_of self }
    {
        match self {
            PlanFileErr::Syntax => 22,
            PlanFileErr::Key(_) => 23,
            PlanFileErr::Kind(_) => 24,
            PlanFileErr::Plan(_) => 25,
        }
    }
}
