ghost use Rattle.std.specs.Prelude.{◌≡◌, ◌<◌, ◌≤◌, ℕ, true, false, length};
ghost use Rattle.std.specs.Option.{option_map};
ghost use Rattle.sync_topo.specs.Lines.{line_count, inputs_of};
ghost use Rattle.sync_topo.specs.WellFormed.{IsWellFormed};
ghost use Rattle.cycle_plan.specs.private.Inputs.{line_at, AreWithin, is_next, AreOpenInputs, AreFirstOpen};

use crate::numbers::number_in;
use rank_cert::Cert;
use sync_topo::{InputId, LineId, Plan, ReturnRule};

/// How far an element's inputs are known to have ranks.
#[derive(Clone, Copy, Debug, Drop)]
pub(crate) struct OpenInputs {
    /// Each line before this place has a rank.
    pub(crate) first: usize,
    /// The lines without a rank from the first place up to this one are of one number, as ways in.
    pub(crate) second: usize,
    /// Each nominated line out of the element that goes back from a line without a rank has a rank.
    pub(crate) back: bool,
    /// Each nominated line out of the element has a rank.
    pub(crate) done: bool,
}

/// The inputs of an element, in order of number.
pub(crate) fn inputs_of(plan: &Plan, element: u32) -> &[InputId]
    requires { element < length plan.now.elements }
    ensures inputs { result.now ≡ inputs_of plan.now element }
    ensures within { AreWithin (line_count plan.now) result.now }
    ensures well_formed { IsWellFormed plan.now }
{
    plan.inputs(element)
}

/// The line at a place, if one stands there.
pub(crate) fn line_at(inputs: &[InputId], place: usize) -> Option<LineId>
    ensures { option_map (λ line. line.0) result ≡ line_at inputs.now place }
{
    match inputs.get(place) {
        Some(InputId::Line(line)) => Some(*line),
        _ => None,
    }
}

/// The input at a place is a line without a rank, of another number if one is given.
fn is_next(
    returns: ReturnRule,
    plan: &Plan,
    cert: &Cert,
    inputs: &[InputId],
    apart: Option<u32>,
    place: usize,
) -> bool
    requires counted { length cert.now ≡ line_count plan.now }
    requires within { AreWithin (length cert.now) inputs.now }
    ensures { result ≡ is_next returns plan.now cert.now inputs.now apart place }
{
    match (line_at(inputs, place), apart) {
        (Some(line), None) => cert.rank(line).is_none(),
        (Some(line), Some(number)) => {
            cert.rank(line).is_none() && number_in(returns, plan, line) != number
        }
        (None, _) => false,
    }
}

/// The first place from this one on whose input is such a line, or the end.
fn next_from(
    returns: ReturnRule,
    plan: &Plan,
    cert: &Cert,
    inputs: &[InputId],
    apart: Option<u32>,
    from: usize,
) -> usize
    requires counted { length cert.now ≡ line_count plan.now }
    requires inputs { AreWithin (length cert.now) inputs.now }
    ensures within { result ≤ length inputs.now }
    ensures from { from ≤ length inputs.now → from ≤ result }
    ensures after { result < length inputs.now → from ≤ result }
    ensures closed { (place : ℕ) → from ≤ place → place < result
        → is_next returns plan.now cert.now inputs.now apart place ≡ false }
    ensures found { result < length inputs.now
        → is_next returns plan.now cert.now inputs.now apart result ≡ true }
{
    for place in from..inputs.len() {
        if is_next(returns, plan, cert, inputs, apart, place) {
            return place;
        }
    }
    inputs.len()
}

/// The places of the first line without a rank, and of the first one of another number, from what
/// is known of earlier ones.
pub(crate) fn first_open(
    returns: ReturnRule,
    plan: &Plan,
    cert: &Cert,
    inputs: &[InputId],
    watch: OpenInputs,
) -> OpenInputs
    requires counted { length cert.now ≡ line_count plan.now }
    requires within { AreWithin (length cert.now) inputs.now }
    requires watch { AreOpenInputs returns plan.now cert.now inputs.now watch }
    ensures places { AreFirstOpen returns plan.now cert.now inputs.now result }
    ensures back { result.back ≡ watch.back }
    ensures done { result.done ≡ watch.done }
{
    let first = next_from(returns, plan, cert, inputs, None, watch.first);
    let Some(line) = line_at(inputs, first) else {
        return OpenInputs {
            first,
            second: inputs.len(),
            back: watch.back,
            done: watch.done,
        };
    };
    let bundle = number_in(returns, plan, line);
    let from = watch.second.max(first + 1);
    let second = next_from(returns, plan, cert, inputs, Some(bundle), from);
    OpenInputs {
        first,
        second,
        back: watch.back,
        done: watch.done,
    }
}
