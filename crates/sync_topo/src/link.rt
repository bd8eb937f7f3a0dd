use sync_text::Text;

/// A link between two elements of a plan.
///
/// It is two lines, one for each direction. This project's own.
#[derive(Debug, Drop)]
pub struct Link {
    /// 1 to 32 of `A-Z a-z 0-9 _ -`, and no other link's.
    pub name: Text,
    /// The number of the element at end a.
    pub a: u32,
    /// The number of the element at end b, which is another.
    pub b: u32,
    /// The priority of the line into end a: 1 is the highest, 255 the lowest, and 0 is not
    /// nominated. After G.781, priority.
    pub priority_a: u8,
    /// The priority of the line into end b.
    pub priority_b: u8,
    /// How long a message takes on the line into end a, 1 to 2,000 milliseconds.
    pub delay_a: u32,
    /// How long a message takes on the line into end b, 1 to 2,000 milliseconds.
    pub delay_b: u32,
    /// The name of its bundle, if it has one: 1 to 32 of `A-Z a-z 0-9 _ -`.
    ///
    /// Links of one name join the same two elements, and a link without a name is a bundle of its own.
    pub bundle: Option<Text>,
}
