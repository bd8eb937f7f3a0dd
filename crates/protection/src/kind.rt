// The kinds of failures of a plan.

ghost use Rattle.std.specs.Prelude.{◌≡◌, ◌<◌, [], ◌∷◌, IfSome};
ghost use Rattle.std.specs.List.{cons_option};
ghost use Rattle.reach_rules.specs.Protection.{IsFailureOf};
ghost use Rattle.protection.specs.private.Kinds.{count_of, failures_at};

use crate::gone::is_first_of_bundle;
use reach_rules::Failure;
use sync_topo::Plan;

/// A kind of failures, each of a part with a number.
#[derive(Clone, Copy, Debug, PartialEq, Eq, Drop)]
pub(crate) enum FailureKind {
    Links,
    Bundles,
    Sources,
    Elements,
}

impl FailureKind {
    /// How many numbers there are. Bundles are told by their links.
    pub(crate) fn count(self, plan: &Plan) -> u32
        ensures { result ≡ count_of plan.now self }
    {
        match self {
            FailureKind::Links | FailureKind::Bundles => plan.links(),
            FailureKind::Sources => plan.sources(),
            FailureKind::Elements => plan.elements(),
        }
    }

    /// The failure at a number, if there is one: a bundle's stands where its first link does.
    pub(crate) fn failure(self, plan: &Plan, number: u32) -> Option<Failure>
        requires { number < count_of plan.now self }
        ensures of { IfSome result (IsFailureOf plan.now) }
        ensures at { failures_at plan.now self (number ∷ []) ≡ cons_option result [] }
    {
        match self {
            FailureKind::Links => Some(Failure::Link(number)),
            FailureKind::Bundles => first_bundle(plan, number),
            FailureKind::Sources => Some(Failure::Source(number)),
            FailureKind::Elements => Some(Failure::Element(number)),
        }
    }
}

/// The failure of a link's bundle, if the link is the first that names it.
fn first_bundle(plan: &Plan, link: u32) -> Option<Failure>
    requires { link < count_of plan.now FailureKind.Bundles }
    ensures of { IfSome result (IsFailureOf plan.now) }
    ensures at { failures_at plan.now FailureKind.Bundles (link ∷ []) ≡ cons_option result [] }
{
    if is_first_of_bundle(plan, link) {
        Some(Failure::Bundle(link))
    } else {
        None
    }
}
