ghost use Rattle.std.specs.Prelude.{◌≡◌, IfOk};
ghost use Rattle.sync_element.specs.Configured.{settings_of};

use std::alloc::Global;
use sync_ql::Level;
use sync_text::{NoMemory, Rows};

/// What one input of an element is set to.
///
/// After G.781, priority and quality level; bundles are this project's own.
#[derive(Clone, Copy, Debug, PartialEq, Eq)]
pub struct InputConfig {
    /// The priority number, from 1, of which the smaller comes first.
    pub priority: u8,
    /// The level that the input has until one is told.
    pub first: Option<Level>,
    /// The number of the input's bundle: inputs of parallel links that are joined have the same, and
    /// any other input has one of its own.
    pub bundle: u32,
}

/// What an element is set to.
///
/// After G.781, hold-off time, wait-to-restore time and quality level threshold.
#[derive(Debug, Drop)]
pub struct Config {
    /// The level of the element's own clock, which it has without an input.
    pub own: Level,
    /// The floor: no input of a worse level is taken.
    pub floor: Option<Level>,
    /// The hold-off time of each input, 300 to 1800 milliseconds.
    pub holdoff: u32,
    /// The wait-to-restore time of each input, 0 to 720,000 milliseconds.
    pub wtr: u32,
    /// The inputs, at most 64.
    pub inputs: Rows<InputConfig>,
}

impl Config {
    /// The same settings once more.
    pub fn try_clone(&self, alloc: Global) -> Result<Config, NoMemory>
        ensures { IfOk result (λ config. settings_of config ≡ settings_of self.now) }
    {
        let inputs = self.inputs.try_clone(alloc)?;
        Ok(Config {
            own: self.own,
            floor: self.floor,
            holdoff: self.holdoff,
            wtr: self.wtr,
            inputs,
        })
    }
}
