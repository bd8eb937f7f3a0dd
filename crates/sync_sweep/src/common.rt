//! What the cases of a study have in common.

use sync_net::Net;
use sync_topo::Event;

/// What the cases of a study have in common: a network that has come as far as up to a millisecond before
/// which nothing happens in one of them alone, and how far they go.
#[derive(Clone, Copy, Drop)]
pub struct Study<'a, 'p> {
    /// The network at which the cases begin.
    pub base: &'a Net<'p>,
    /// What happens in all of them.
    pub common: &'p [Event],
    /// The millisecond up to which the network has come.
    pub from: u64,
    /// The last millisecond of each case.
    pub until: u64,
    /// The settling bound after that, where the plan has one.
    pub bound: Option<u64>,
}
