//! Why rows give no plan.

ghost use Rattle.std.specs.Prelude.{◌≡◌};
ghost use Rattle.sync_topo.specs.Refusal.{refusal_number, refused_place};

use crate::place::Place;
use thiserror::Error;

/// The first rule for plans that rows break, and the row that breaks it.
///
/// This project's own.
#[derive(Clone, Copy, Debug, PartialEq, Eq, Error)]
pub enum PlanErr {
    /// The section has more rows than its limit, and this is the first one past it; or by this row
    /// an element has more nominated inputs than its limit.
    #[error("{0}: a limit of the plan is passed")]
    Limit(Place),
    /// The row's name isn't 1 to 32 of `A-Z a-z 0-9 _ -`.
    #[error("{0}: a name breaks the rule for names")]
    Name(Place),
    /// An earlier row has the name: for an element an earlier element, for a link an earlier link,
    /// and for a source a link or an earlier source.
    #[error("{0}: a name stands twice")]
    Twice(Place),
    /// An end of the link, or the element of the source, is no element of the plan.
    #[error("{0}: a name is no element's")]
    NoElement(Place),
    /// Both ends of the link are one element.
    #[error("{0}: a link joins an element to itself")]
    SelfLink(Place),
    /// A time, a delay or a priority is outside its limits.
    #[error("{0}: a number is outside its limits")]
    Range(Place),
    /// The name of a link's bundle isn't 1 to 32 of `A-Z a-z 0-9 _ -`, or an earlier link of the
    /// bundle joins other elements.
    #[error("{0}: a bundle has a bad name, or joins other elements")]
    Bundle(Place),
    /// A name is no level of the plan's option, or it is do-not-use as the level of a clock or as the
    /// lowest level that an element accepts.
    #[error("{0}: a name is no level that may stand here")]
    LevelName(Place),
}

impl PlanErr {
    /// The number by which the refusal is printed: 15 to 21, and 39.
    ///
    /// This project's own.
    pub fn number(self) -> u8
        ensures { result ≡ refusal_number self }
    {
        match self {
            PlanErr::Limit(_) => 15,
            PlanErr::Name(_) => 16,
            PlanErr::Twice(_) => 17,
            PlanErr::NoElement(_) => 18,
            PlanErr::SelfLink(_) => 19,
            PlanErr::Range(_) => 20,
            PlanErr::LevelName(_) => 21,
            PlanErr::Bundle(_) => 39,
        }
    }

    /// The row that breaks the rule.
    ///
    /// This project's own.
    pub fn place(self) -> Place
        ensures { result ≡ refused_place self }
    {
        match self {
            PlanErr::Limit(place)
            | PlanErr::Name(place)
            | PlanErr::Twice(place)
            | PlanErr::NoElement(place)
            | PlanErr::SelfLink(place)
            | PlanErr::Range(place)
            | PlanErr::Bundle(place)
            | PlanErr::LevelName(place) => place,
        }
    }
}
