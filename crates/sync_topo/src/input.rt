//! Lines and inputs, by their numbers.

ghost use Rattle.std.specs.Prelude.{◌≡◌};
ghost use Rattle.sync_topo.specs.Lines.{is_same_input};

/// The number of a line.
///
/// Line 2k runs from end a of link k to its end b, and line 2k + 1 from b to a. This project's own.
#[derive(Clone, Copy, Debug, PartialEq, Eq, Drop)]
pub struct LineId(pub u32);

impl LineId {
    ghost use Rattle.std.specs.Prelude.{◌≡◌};
    ghost use Rattle.sync_topo.specs.Lines.{ends_at_b};

    /// The line runs from end a of its link to end b.
    pub(crate) fn ends_at_b(self) -> bool
        ensures { result ≡ ends_at_b self.0 }
    {
        self.0 % 2 == 0
    }
}

/// What an element may take its timing from.
///
/// After G.781, synchronization source inputs.
#[derive(Clone, Copy, Debug, PartialEq, Eq, Drop)]
pub enum InputId {
    /// A line into the element.
    Line(LineId),
    /// A source at the element, by its number.
    Source(u32),
}

/// Whether two inputs are the same.
pub fn is_same_input(one: InputId, other: InputId) -> bool
    ensures { result ≡ is_same_input one other }
{
    match (one, other) {
        (InputId::Line(one), InputId::Line(other)) => one.0 == other.0,
        (InputId::Source(one), InputId::Source(other)) => one == other,
        _ => false,
    }
}
