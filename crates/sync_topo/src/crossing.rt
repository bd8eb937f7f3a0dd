//! What may be sent to another thread, and what may be shared between threads.

use crate::element::Element;
use crate::error::PlanErr;
use crate::event::{Event, Part, What};
use crate::input::{InputId, LineId};
use crate::link::Link;
use crate::place::{Place, Section};
use crate::plan::Plan;
use crate::rows::{ElementRow, LinkRow, PlanRows, SourceRow};
use crate::source::Source;

fn crosses<T: Send + Sync>() {}

fn all_cross() {
    crosses::<Plan>();
    crosses::<PlanErr>();
    crosses::<PlanRows>();
    crosses::<ElementRow>();
    crosses::<LinkRow>();
    crosses::<SourceRow>();
    crosses::<Element>();
    crosses::<Link>();
    crosses::<Source>();
    crosses::<Event>();
    crosses::<What>();
    crosses::<Part>();
    crosses::<InputId>();
    crosses::<LineId>();
    crosses::<Place>();
    crosses::<Section>();
}
