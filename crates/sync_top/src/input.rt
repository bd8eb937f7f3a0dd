ghost use Rattle.std.specs.Prelude.{◌≡◌, ◌≢◌, Some};
ghost use Rattle.sync_edge.specs.Contents.{KeepsFolder};
ghost use Rattle.sync_top.specs.Reading.{file, file_limit};
ghost use Rattle.sync_top.specs.Answer.{outside_of};
ghost use Rattle.sync_top.specs.private.Work.{Gets, stopped_in};

use crate::reply::{Reply, Stop};
use crate::status::Status;
use plan_texts::line_text;
use std::alloc::Global;
use sync_edge::{Folder, ReadErr, read_all};
use sync_text::Text;
use sync_topo::Size;

/// The most bytes of a plan's file, and of a file that goes with a plan, where the plan is of standard
/// size.
pub(crate) const STANDARD_BYTES: usize = 8_388_608;

/// The same where the plan is large, or may be.
pub(crate) const LARGE_BYTES: usize = 1_073_741_824;

/// The most bytes of a file by the size of a plan.
fn file_limit(size: Size) -> usize
    ensures { result ≡ file_limit size }
{
    match size {
        Size::Standard => STANDARD_BYTES,
        Size::Large => LARGE_BYTES,
    }
}

/// The bytes of a file that may be as long as the size says.
pub(crate) fn file<F: Folder>(
    alloc: Global,
    folder: &mut F,
    size: Size,
    name: &str,
) -> Result<Text, Stop>
    ensures gets { Gets (λ text. text) (outside_of F.contents F.steady F.faults folder.old folder.new)
        (F.tries folder.old) (F.tries folder.new) result (file size name.now) }
    ensures no_plan { stopped_in result ≢ Some Status.BadPlan }
    ensures keeps { KeepsFolder F.contents F.steady F.faults folder.old folder.new }
{
    match read_all(alloc, folder, name, file_limit(size)) {
        Ok(bytes) => Ok(bytes),
        Err(ReadErr::Failed) => Err(Stop::Ended(Reply {
            status: Status::ReadFault,
            text: line_text(alloc, b"read fault")?,
        })),
        Err(ReadErr::TooLong) => Err(Stop::Ended(Reply {
            status: Status::TooLong,
            text: line_text(alloc, b"too long")?,
        })),
        Err(ReadErr::NoMemory) => Err(Stop::NoMemory),
    }
}
