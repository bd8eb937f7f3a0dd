//! Laws of the definitions. Each function does nothing: its contract is the law.

ghost use Rattle.std.specs.Prelude.{◌≡◌, ◌↔◌, ℕ, ◌<◌, ◌≤◌, IsTrue, None, length};
ghost use Rattle.sync_topo.specs.Bundles.{bundle_of, bundle_name, are_of_one_bundle, NamesNoBundle};
ghost use Rattle.sync_topo.specs.Hops.{goes_back};
ghost use Rattle.sync_topo.specs.Lines.{line_count, sender_of, receiver_of, reverse_of};
ghost use Rattle.sync_topo.specs.Topology.{Topology};
ghost use Rattle.sync_topo.specs.WellFormed.{IsWellFormed};

/// The laws of bundles: two links have one number exactly where they are of one bundle, no link of a
/// bundle has a lower number than the bundle, and a link that names no bundle is one of its own.
///
/// This project's own.
pub fn bundle_law()
    ensures one { (plan : Topology) (i j : ℕ) → i < length plan.links → j < length plan.links
        → (bundle_of plan i ≡ bundle_of plan j) ↔ IsTrue (are_of_one_bundle plan.links i j) }
    ensures lowest { (plan : Topology) (i j : ℕ) → i < length plan.links
        → IsTrue (are_of_one_bundle plan.links j i) → bundle_of plan i ≤ j }
    ensures unnamed { (plan : Topology) (i : ℕ) → i < length plan.links
        → bundle_name plan.links i ≡ None → bundle_of plan i ≡ i }
{}

/// The laws of lines that go back: the reverse of a line does; what goes back from a line ends where
/// the line begins, and the line goes back from it; and no line goes back from itself.
///
/// After G.781, do-not-use towards the selected reference.
pub fn goes_back_law()
    ensures reverse { (plan : Topology) (line : ℕ) → line < line_count plan
        → IsTrue (goes_back plan line (reverse_of line)) }
    ensures returns { (plan : Topology) (line back : ℕ) → IsWellFormed plan
        → line < line_count plan → back < line_count plan
        → IsTrue (goes_back plan line back) → receiver_of plan back ≡ sender_of plan line }
    ensures both_ways { (plan : Topology) (line back : ℕ) → IsWellFormed plan
        → line < line_count plan → back < line_count plan
        → IsTrue (goes_back plan line back) → IsTrue (goes_back plan back line) }
    ensures apart { (plan : Topology) (line : ℕ) → IsWellFormed plan → line < line_count plan
        → ¬ IsTrue (goes_back plan line line) }

    // In a plan without bundles only the reverse of a line goes back from it.
    ensures unbundled { (plan : Topology) (line back : ℕ) → IsWellFormed plan → NamesNoBundle plan
        → line < line_count plan → back < line_count plan
        → IsTrue (goes_back plan line back) ↔ (back ≡ reverse_of line) }
{}
