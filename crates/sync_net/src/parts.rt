//! What a network keeps beside its plan.

use crate::shared_element::SharedElement;
use crate::shared_line::SharedLine;
use crate::signals::{LineSignal, SourceSignal};
use agenda::{DueTimes, Marks};
use net_words::Tellings;
use sync_ql::Level;

/// All that a network keeps, each list by number: of elements, lines or sources.
#[derive(Debug, Drop)]
pub struct NetParts<'a> {
    // The first millisecond that no step has told of.
    pub next: u64,
    pub later_steps: u64,
    pub elements: Vec<SharedElement<'a>>,
    // The nominated lines.
    pub lines: Vec<Option<SharedLine<'a>>>,
    pub signals: Vec<LineSignal>,
    pub sources: Vec<SourceSignal>,
    // The level that is heard on each line, as its element was told.
    pub heards: Vec<Option<Level>>,
    // When each element is due, and after the elements each line.
    pub dues: DueTimes,
    // What the elements are told in a millisecond, and those that make a step in it; these stay
    // marked until the next.
    pub tellings: Tellings,
    // The lines that are called in a millisecond; these stay marked until the next.
    pub called: Marks,
}
