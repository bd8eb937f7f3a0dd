//! What is told of each case beside what becomes of the network: its timing, or nothing.

ghost use Rattle.std.specs.Prelude.{◌≡◌, ◌<◌, false, List, length, IfOk, OnOk};
ghost use Rattle.std.specs.List.{All};
ghost use Rattle.sync_topo.specs.declared.event.Event.{Event};
ghost use Rattle.sync_topo.specs.Topology.{Topology};
ghost use Rattle.net_rules.specs.Walks.{Taken};
ghost use Rattle.sync_net.specs.NetState.{NetState};
ghost use Rattle.sync_net.specs.Standing.{StandsFor};
ghost use Rattle.settle_trace.specs.Now.{taken_now};
ghost use Rattle.timings.specs.declared.counted.Timing.{Timing};
ghost use Rattle.sync_sweep.specs.private.ShownNow.{AreAlikeBut};

use std::alloc::Global;
use sync_net::Net;
use sync_text::NoMemory;
use timings::Timing;

/// Times one case after another that begins at a network, or tells nothing of them.
pub trait Timer: Drop {
    /// It serves cases that begin at a network.
    ghost IsTimer: { NetState → Self → Type 0 };

    /// It tells this of a plan in which each element takes what it takes.
    ghost IsTold: { Topology → Taken → Timing → Type 0 };

    /// One for the cases that begin at a network.
    fn new(alloc: Global, base: &Net<'_>) -> Result<Self, NoMemory>
        requires live { base.now.spent ≡ false }
        ensures { IfOk result (IsTimer base.now) };

    /// What it tells in the millisecond of the last step of a network that differs at some places alone
    /// from the one at which the cases begin.
    fn tell(
        &mut self,
        alloc: Global,
        base: &Net<'_>,
        net: &Net<'_>,
        places: &[u32],
    ) -> Result<Timing, NoMemory>
        requires live { net.now.spent ≡ false }
        requires stepped { 0 < net.now.next }
        requires elements { 0 < length net.now.plan.elements }
        requires plan { base.now.plan ≡ net.now.plan }
        requires within { All (λ e. e < length net.now.plan.elements) places.now }
        requires alike { AreAlikeBut places.now net.now base.now }
        requires timer { IsTimer base.now self.old }
        ensures told { IfOk result (λ timing. (all : List Event) → StandsFor net.now all net.now.next →
            IsTold net.now.plan (taken_now net.now all) timing) }
        ensures timer { OnOk result (IsTimer base.now self.new) };
}

/// Tells nothing: what it gives is no case's timing.
#[derive(Clone, Copy, Debug, PartialEq, Eq, Drop)]
pub struct Untimed;

impl Timer for Untimed {
    ghost IsTimer = { λ base timer. Unit {0} };

    ghost IsTold = { λ plan taken timing. Unit {0} };

    fn new(_alloc: Global, _base: &Net<'_>) -> Result<Untimed, NoMemory> {
        Ok(Untimed)
    }

    fn tell(
        &mut self,
        _alloc: Global,
        _base: &Net<'_>,
        _net: &Net<'_>,
        _places: &[u32],
    ) -> Result<Timing, NoMemory> {
        Ok(Timing {
            lost: 0,
            first: None,
            longest: 0,
        })
    }
}
