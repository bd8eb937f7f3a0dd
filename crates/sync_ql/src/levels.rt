ghost use Rattle.std.specs.Prelude.{◌<◌, length};
ghost use Rattle.sync_ql.specs.Table.{levels_of};

/// The network option, which says whose table of quality levels a network uses.
///
/// After G.781, network options I and II. Option III is left out.
#[derive(Clone, Copy, Debug, PartialEq, Eq)]
pub enum NetOption {
    /// Networks of the 2048 kbit/s hierarchy.
    I,
    /// Networks of the 1544 kbit/s hierarchy.
    II,
}

/// A quality level of a network option.
///
/// Every value is a row of the option's table.
/// After G.781, quality level.
#[derive(Clone, Copy, Debug, PartialEq, Eq)]
pub struct Level {
    /// The option in whose table the level stands.
    pub option: NetOption,
    /// The level's place in that table, counted from 0, which is the best.
    pub place: u8,
    /// The table has a row at this place.
    pub ghost is_row: { place < length (levels_of option) },
}
