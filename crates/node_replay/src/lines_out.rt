//! What is kept of the lines out of the element.

ghost use Rattle.std.specs.Prelude.{◌≡◌, ◌<◌, IfSome, All, map};
ghost use Rattle.sync_topo.specs.Lines.{line_count, IsInput};
ghost use Rattle.node_replay.specs.private.Keeping.{said_by, out_after};

use crate::last_rows::{esmc_after, up_after};
use crate::shown::{InputAndLevel, level_out};
use node_file::NodeRow;
use sync_ql::Level;
use sync_topo::{InputId, LineId, Plan};

/// A line out of the element at the end of a millisecond.
#[derive(Clone, Copy, Debug, Drop)]
pub(crate) struct LineOut {
    pub(crate) line: LineId,
    /// Whether it is up.
    pub(crate) up: bool,
    /// Whether its ESMC is on.
    pub(crate) esmc: bool,
    /// The level that it says, if it speaks.
    pub(crate) said: Option<Level>,
    /// What it said a millisecond before.
    pub(crate) was: Option<Level>,
}

/// A line after the rows of a millisecond.
#[tactic(auto, unfolding(crate::specs::private::Keeping::out_after))]
fn out_after(plan: &Plan, here: &[NodeRow], shown: InputAndLevel, out: LineOut) -> LineOut
    requires input { IfSome shown.taken (IsInput plan.now) }
    requires line { out.line.0 < line_count plan.now }
    ensures { result ≡ out_after plan.now here.now shown out }
{
    let up = up_after(InputId::Line(out.line), out.up, here);
    let esmc = esmc_after(out.line, out.esmc, here);
    LineOut {
        line: out.line,
        up,
        esmc,
        said: said_by(plan, shown, out.line, up && esmc),
        was: out.said,
    }
}

/// What a line says, where it speaks.
#[tactic(auto, unfolding(crate::specs::private::Keeping::said_by))]
fn said_by(plan: &Plan, shown: InputAndLevel, line: LineId, speaks: bool) -> Option<Level>
    requires input { IfSome shown.taken (IsInput plan.now) }
    requires line { line.0 < line_count plan.now }
    ensures { result ≡ said_by plan.now shown line.0 speaks }
{
    if !speaks {
        return None;
    }
    Some(level_out(plan, shown, line))
}

/// Takes in the rows of a millisecond, and what the element gives in it.
pub(crate) fn note_lines_out(
    plan: &Plan,
    lines_out: &mut [LineOut],
    here: &[NodeRow],
    shown: InputAndLevel,
)
    requires input { IfSome shown.taken (IsInput plan.now) }
    requires lines { All (λ out. out.line.0 < line_count plan.now) lines_out.old }
    ensures { lines_out.new ≡ map (out_after plan.now here.now shown) lines_out.old }
{
    for out in lines_out.iter_mut() {
        *out = out_after(plan, here, shown, *out);
    }
}
