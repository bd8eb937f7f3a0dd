//! Codes that no frame has room for name no level, alone and beside an enhanced code.

use std::process::Abort;
use sync_ql::{Level, NetOption, level_of_code, level_of_codes, level_of_name};

/// The level of option I that has this name.
pub(crate) fn level(rt: &impl Abort, name: &'static str) -> Level {
    let level = level_of_name(NetOption::I, name.as_bytes());
    level.expect(rt, "a level of the option")
}

#[test]
fn codes_above_fifteen(rt: HostRuntime) {
    for option in [NetOption::I, NetOption::II] {
        for code in [16, 255] {
            assert!(rt; level_of_code(option, code) == None);
            assert!(rt; level_of_codes(option, code, Some(0x21)) == None);
        }
    }
}
