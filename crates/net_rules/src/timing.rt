//! Laws of timing: what loops can form, and when a network is settled.
//!
//! Each function does nothing: its contract is the law. This project's own.

ghost use Rattle.std.specs.Prelude.{◌≡◌, ◌≤◌, ◌<◌, ◌↔◌, ◌+◌, ℕ, true, List};
ghost use Rattle.sync_ql.specs.Messages.{hearing_time};
ghost use Rattle.sync_topo.specs.declared.event.Event.{Event};
ghost use Rattle.sync_topo.specs.Topology.{Topology};
ghost use Rattle.sync_topo.specs.Lines.{delay_of};
ghost use Rattle.sync_topo.specs.Hops.{IsRising};
ghost use Rattle.sync_topo.specs.WellFormed.{IsWellFormed};
ghost use Rattle.net_rules.specs.Signals.{Signals, signals_by, speaks_at};
ghost use Rattle.net_rules.specs.History.{Levels, Obeys, out_at};
ghost use Rattle.net_rules.specs.Walks.{IsClosedWalk, IsFacingPair};
ghost use Rattle.net_rules.specs.Safety.{taken_in, IsLoopFreeAt, IsLoopFree};
ghost use Rattle.net_rules.specs.Settled.{IsSettled, IsSettledByNews};
ghost use Rattle.net_rules.specs.Staying.{IsQuietAfter, AreStillBefore, IsSameAt};
ghost use Rattle.net_rules.specs.Settling.{NoneAfter, AreUnswitchedBefore, IsSettlingBound};
ghost use Rattle.net_rules.specs.Losing.{IsLosing, AreLosses, IsSoonBound};
ghost use Rattle.net_rules.specs.Facing.{Faces};

/// The law of facing pairs: each is short. Its last millisecond is less than five seconds and a line's
/// delay after its first, whatever happens to the line meanwhile; and less than that delay, if the line
/// speaks all the while. Both hold of either line, since the pair may be turned round.
pub fn facing_pair_law()
    ensures speaking { (plan : Topology) (signals : Signals) (out : Levels)
        (line back from until : ℕ) → IsWellFormed plan → Obeys plan signals out →
        ((t : ℕ) → from ≤ t → t ≤ until → Faces plan signals out line back t) →
        ((t : ℕ) → from ≤ t → t ≤ until → speaks_at signals line t ≡ true) →
        from ≤ until → until < from + delay_of plan line }
    ensures brief { (plan : Topology) (signals : Signals) (out : Levels)
        (line back from until : ℕ) → IsWellFormed plan → Obeys plan signals out →
        ((t : ℕ) → from ≤ t → t ≤ until → Faces plan signals out line back t) →
        from ≤ until → until < from + (hearing_time + delay_of plan line) }
    ensures turned { (plan : Topology) (signals : Signals) (out : Levels) (line back t : ℕ) →
        IsWellFormed plan → Faces plan signals out line back t → Faces plan signals out back line t }
{}

/// The law of rising ranks: where a plan has them, no timing loop can form but two elements that face
/// each other on one link or bundle, whatever list of events it may have. In each millisecond each
/// closed walk of what the elements take is a facing pair; in a settled one there is none, and each
/// element has the level of the source or own clock at which its trace ends.
pub fn rising_law()
    ensures loop_free { (plan : Topology) (rank : ℕ → ℕ) → IsWellFormed plan →
        IsRising plan rank → IsLoopFree plan }
    ensures obeying { (plan : Topology) (signals : Signals) (out : Levels) (rank : ℕ → ℕ) →
        IsWellFormed plan → Obeys plan signals out → IsRising plan rank →
        (t : ℕ) → IsLoopFreeAt plan signals out t }
{}

/// The law of settled milliseconds: where one is settled, nothing changes outside and no command is
/// given afterwards, and each nominated line has been up or down, and its ESMC on or off, as it is for
/// its delay, every later millisecond is settled too. Each element then gives and takes the same, and
/// each line is sent the same. No ranks are needed. From the settling bound on every millisecond is
/// settled, and much sooner where a settled network has only lost parts. To look at the messages that
/// are news is enough. No facing pair stands in a settled millisecond, with ranks or without.
pub fn settled_law()
    ensures stays { (plan : Topology) (signals : Signals) (out : Levels) (t u : ℕ) →
        IsWellFormed plan → Obeys plan signals out → IsSettled plan signals out t →
        IsQuietAfter signals t → AreStillBefore plan signals t → t ≤ u →
        IsSettled plan signals out u × IsSameAt plan signals out t u }
    ensures bound { (plan : Topology) (signals : Signals) (out : Levels) (last bound t : ℕ) →
        IsWellFormed plan → Obeys plan signals out → IsSettlingBound plan last bound →
        IsQuietAfter signals last → bound ≤ t → IsSettled plan signals out t }
    ensures soon { (plan : Topology) (signals : Signals) (out : Levels)
        (settled last bound t : ℕ) → IsWellFormed plan → Obeys plan signals out →
        IsSoonBound plan bound → IsLosing plan signals out settled last → last + bound ≤ t →
        IsSettled plan signals out t }
    ensures news { (plan : Topology) (signals : Signals) (out : Levels) (t : ℕ) →
        IsSettledByNews plan signals out t ↔ IsSettled plan signals out t }
    ensures unpaired { (plan : Topology) (signals : Signals) (out : Levels) (t : ℕ) →
        Obeys plan signals out → IsSettled plan signals out t → (lines : List ℕ) →
        IsClosedWalk plan (taken_in plan signals out t) lines → ¬ IsFacingPair plan lines }
{}

/// The timed laws by a list of events. A facing pair is short, whatever events there are; a settled
/// millisecond after which no event stands, and before which none switched a nominated line for its
/// delay, stays settled; where the plan has a settling bound after the last event, every millisecond
/// from it on is settled; and where after a settled millisecond nothing comes up and no line's ESMC
/// goes off, every millisecond from the plan's much smaller bound after losses on.
pub fn event_law()
    ensures pair { (plan : Topology) (events : List Event) (line back from until : ℕ) →
        IsWellFormed plan → from ≤ until →
        ((t : ℕ) → from ≤ t → t ≤ until →
        Faces plan (signals_by plan events) (out_at plan (signals_by plan events)) line back t) →
        until < from + (hearing_time + delay_of plan line) }
    ensures stays { (plan : Topology) (events : List Event) (t u : ℕ) → IsWellFormed plan →
        IsSettled plan (signals_by plan events) (out_at plan (signals_by plan events)) t →
        NoneAfter events t → AreUnswitchedBefore plan events t → t ≤ u →
        IsSettled plan (signals_by plan events) (out_at plan (signals_by plan events)) u
        × IsSameAt plan (signals_by plan events) (out_at plan (signals_by plan events)) t u }
    ensures bound { (plan : Topology) (events : List Event) (last bound t : ℕ) →
        IsWellFormed plan → NoneAfter events last → IsSettlingBound plan last bound → bound ≤ t →
        IsSettled plan (signals_by plan events) (out_at plan (signals_by plan events)) t }
    ensures soon { (plan : Topology) (events : List Event) (settled last bound t : ℕ) →
        IsWellFormed plan → IsSoonBound plan bound → AreLosses plan events settled last →
        last + bound ≤ t →
        IsSettled plan (signals_by plan events) (out_at plan (signals_by plan events)) t }
{}
