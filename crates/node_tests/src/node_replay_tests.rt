//! Elements on files in pieces.

ghost use Rattle.std.specs.Prelude.{◌<◌, ◌≤◌, length};

use node_file::NodeErr;
use node_replay::{Node, Replayed};
use std::alloc::Global;
use std::process::Abort;
use std::test::Fail;
use sync_ql::limits::LAST_MILLISECOND;
use sync_text::NoAnswer;
use sync_topo::Plan;

mod histories;
mod refusals;

/// An element between two others, with a source of its own and a minute of wait-to-restore time.
const WITH_SOURCE: &[u8] = b"element = [{ name = 'A' }, { name = 'B', wtr = 1 }, { name = 'C' }]\n\
link = [{ name = 'L1', a = 'A', b = 'B', priority_b = 1 },\n\
 { name = 'L2', a = 'B', b = 'C', priority_b = 1 }]\n\
source = [{ name = 'S', at = 'B', level = 'QL-SSU-A', priority = 2 }]\n";

/// The element that is fed: the second of each plan here, whose name is B.
const FED: u32 = 1;

/// What an element gives for bytes that come in pieces of at most this size.
fn fed(
    alloc: Global,
    plan: &Plan,
    bytes: &[u8],
    size: usize,
    until: u64,
) -> Result<Replayed, NoAnswer<NodeErr>>
    requires within { FED < length plan.now.elements }
    requires in_range { until ≤ LAST_MILLISECOND }
{
    let mut node = Node::new(alloc, plan, FED, until)?;
    let mut left = bytes;
    while !left.is_empty() {
        let (piece, rest) = left.split_at(left.len().min(size.max(1)));
        node.feed(piece)?;
        left = rest;
    }
    node.finish()
}

/// The bytes of a file are taken up to its last piece, of this size, and that one is refused.
fn last_piece_is_refused(
    rt: &(impl Abort + AllocGlobal),
    plan: &Plan,
    file: &[u8],
    size: usize,
    want: NodeErr,
) -> Result<(), Fail> {
    assert!(rt; FED < plan.elements());
    let mut node = Node::new(rt.alloc(), plan, FED, 1000)?;
    let (before, piece) = file.split_at(file.len().saturating_sub(size));
    node.feed(before)?;
    assert!(rt; !node.spent());
    assert!(rt; node.feed(piece) == Err(NoAnswer::Refused(want)));
    assert!(rt; node.spent());
    Ok(())
}
