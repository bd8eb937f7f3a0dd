//! What verdicts have to do with the rules.
//!
//! Each function does nothing: its contract is the law. This project's own.

ghost use Rattle.std.specs.Prelude.{◌≡◌, ◌<◌, ◌↔◌, ℕ, suc, List, ◌∷◌, Some, length, slice_get};
ghost use Rattle.sync_ql.specs.Selection.{IsEligible};
ghost use Rattle.sync_ql.specs.Moment.{Moment, Settings, candidates_at, switches_at};
ghost use Rattle.sync_topo.specs.declared.input.InputId.{InputId};
ghost use Rattle.sync_topo.specs.Topology.{Topology};
ghost use Rattle.sync_topo.specs.Lines.{inputs_of};
ghost use Rattle.net_rules.specs.Signals.{Signals};
ghost use Rattle.net_rules.specs.History.{Levels, settings_of, element_past};
ghost use Rattle.inspection.specs.Verdict.{verdict_at, verdict_in, MayBeUsed};

/// The law of verdicts: an input may be taken by the rules exactly where its verdict is that it is
/// taken, or in reserve, whatever is forced or switched to by hand. In a network the verdict is
/// told by what the element takes, whether the input is failed, and the level that is heard on it
/// or that its source has.
pub fn eligible_law()
    ensures exact { (settings : Settings) (now : Moment) (before : List Moment) (i : ℕ) →
        i < length settings.priorities →
        IsEligible (candidates_at settings (switches_at settings (now ∷ before)) (now ∷ before)) i
        ↔ MayBeUsed (verdict_at settings (now ∷ before) i) }
    ensures words { (plan : Topology) (signals : Signals) (out : Levels) (element t i : ℕ)
        (input : InputId) → slice_get (inputs_of plan element) i ≡ Some input →
        verdict_at (settings_of plan element) (element_past plan signals out element (suc t)) i
        ≡ verdict_in plan signals out element t i input }
{}
