//! What a plan file says. No rule has been looked at here.

use sync_ql::NetOption;
use sync_text::{Rows, Text};

/// What a plan file says of one element.
#[derive(Debug, Drop)]
pub struct ElementRow {
    /// The element's name.
    pub name: Text,
    /// The level of its own clock; QL-SEC in option I and QL-ST3 in option II where it is left out.
    pub own: Option<Text>,
    /// The worst level that it takes; none where it is left out.
    pub floor: Option<Text>,
    /// The hold-off time in milliseconds; 300 where it is left out.
    pub holdoff: Option<i64>,
    /// The wait-to-restore time in minutes; 5 where it is left out.
    pub wtr: Option<i64>,
}

/// What a plan file says of one link.
#[derive(Debug, Drop)]
pub struct LinkRow {
    /// The link's name.
    pub name: Text,
    /// The name of the element at end a.
    pub a: Text,
    /// The name of the element at end b.
    pub b: Text,
    /// The priority of the line into end a; 0, not nominated, where it is left out.
    pub priority_a: Option<i64>,
    /// The priority of the line into end b; 0, not nominated, where it is left out.
    pub priority_b: Option<i64>,
    /// The delay of the line into end a in milliseconds; 1 where it is left out.
    pub delay_a: Option<i64>,
    /// The delay of the line into end b in milliseconds; 1 where it is left out.
    pub delay_b: Option<i64>,
    /// The name of the bundle that the link is of; a bundle of its own where it is left out.
    pub bundle: Option<Text>,
}

/// What a plan file says of one source.
#[derive(Debug, Drop)]
pub struct SourceRow {
    /// The source's name.
    pub name: Text,
    /// The name of its element.
    pub at: Text,
    /// The level that it has at first.
    pub level: Text,
    /// Its priority; 1 where it is left out.
    pub priority: Option<i64>,
}

/// What a plan file says, in the order of the file.
#[derive(Debug, Drop)]
pub struct PlanRows {
    /// The network option.
    pub option: NetOption,
    /// The elements.
    pub elements: Rows<ElementRow>,
    /// The links.
    pub links: Rows<LinkRow>,
    /// The sources.
    pub sources: Rows<SourceRow>,
}
