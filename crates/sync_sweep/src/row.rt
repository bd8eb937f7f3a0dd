//! The rows of a sweep.

ghost use Rattle.std.specs.Prelude.{◌≡◌, ◌<◌, ◌^◌, length, IfOk};
ghost use Rattle.std.specs.List.{AllZip, range_with_len};
ghost use Rattle.sync_sweep.specs.private.Rows.{IsRowOf};

use crate::outcomes::Outcome;
use crate::working::Worked;
use std::alloc::Global;
use sync_text::{NoMemory, Rows};

/// What becomes of a network where one link alone fails.
///
/// This project's own.
#[derive(Clone, Copy, Debug, PartialEq, Eq, Drop)]
pub struct SweepRow {
    /// The link, by its number.
    pub link: u32,
    /// What becomes of the network.
    pub outcome: Outcome,
}

/// The rows of all links, by what becomes of the network in each link's case.
pub(crate) fn rows_of(alloc: Global, worked: &[Worked]) -> Result<Rows<SweepRow>, NoMemory>
    requires few { length worked.now < 2 ^ 32 }
    ensures rows { IfOk result (AllZip IsRowOf worked.now) }
    ensures links { IfOk result (AllZip (λ link row. row.link ≡ link)
        (range_with_len 0 (length worked.now))) }
{
    let mut rows = Rows::new(alloc);
    for (link, one) in worked.iter().enumerate() {
        rows.push(row_of(link as u32, one))?;
    }
    Ok(rows)
}

/// The row of a link.
fn row_of(link: u32, worked: &Worked) -> SweepRow
    ensures row { IsRowOf worked.now result }
    ensures link { result.link ≡ link }
{
    SweepRow {
        link,
        outcome: worked.outcome,
    }
}
