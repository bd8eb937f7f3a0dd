//! The rows of both tables of quality levels, best first.

ghost use Rattle.std.specs.Prelude.{◌≡◌, ◌<◌, length};
ghost use Rattle.sync_ql.specs.Table.{levels_of};
ghost use Rattle.sync_ql.specs.private.Rows.{rows_seen};

use crate::levels::NetOption;

/// The enhanced code of a level that its SSM code alone names.
pub const NOT_ENHANCED: u8 = 0xff;

/// A quality level as it is named and sent.
pub(crate) struct Row {
    pub(crate) name: &'static str,
    /// The four-bit SSM code.
    pub(crate) code: u8,
    /// The enhanced code beside it.
    pub(crate) enhanced: u8,
}

/// After G.781, quality levels of option I; those with an enhanced code are this project's own.
static OPTION_I: [Row; 9] = [
    Row {
        name: "QL-ePRTC",
        code: 0b0010,
        enhanced: 0x21,
    },
    Row {
        name: "QL-PRTC",
        code: 0b0010,
        enhanced: 0x20,
    },
    Row {
        name: "QL-ePRC",
        code: 0b0010,
        enhanced: 0x23,
    },
    Row {
        name: "QL-PRC",
        code: 0b0010,
        enhanced: NOT_ENHANCED,
    },
    Row {
        name: "QL-SSU-A",
        code: 0b0100,
        enhanced: NOT_ENHANCED,
    },
    Row {
        name: "QL-SSU-B",
        code: 0b1000,
        enhanced: NOT_ENHANCED,
    },
    Row {
        name: "QL-eEEC",
        code: 0b1011,
        enhanced: 0x22,
    },
    Row {
        name: "QL-SEC",
        code: 0b1011,
        enhanced: NOT_ENHANCED,
    },
    Row {
        name: "QL-DNU",
        code: 0b1111,
        enhanced: NOT_ENHANCED,
    },
];

/// After G.781, quality levels of option II; those with an enhanced code and the place of QL-PROV
/// are this project's own.
static OPTION_II: [Row; 13] = [
    Row {
        name: "QL-ePRTC",
        code: 0b0001,
        enhanced: 0x21,
    },
    Row {
        name: "QL-PRTC",
        code: 0b0001,
        enhanced: 0x20,
    },
    Row {
        name: "QL-ePRC",
        code: 0b0001,
        enhanced: 0x23,
    },
    Row {
        name: "QL-PRS",
        code: 0b0001,
        enhanced: NOT_ENHANCED,
    },
    Row {
        name: "QL-STU",
        code: 0b0000,
        enhanced: NOT_ENHANCED,
    },
    Row {
        name: "QL-ST2",
        code: 0b0111,
        enhanced: NOT_ENHANCED,
    },
    Row {
        name: "QL-TNC",
        code: 0b0100,
        enhanced: NOT_ENHANCED,
    },
    Row {
        name: "QL-ST3E",
        code: 0b1101,
        enhanced: NOT_ENHANCED,
    },
    Row {
        name: "QL-eEEC",
        code: 0b1010,
        enhanced: 0x22,
    },
    Row {
        name: "QL-ST3",
        code: 0b1010,
        enhanced: NOT_ENHANCED,
    },
    Row {
        name: "QL-SMC",
        code: 0b1100,
        enhanced: NOT_ENHANCED,
    },
    Row {
        name: "QL-PROV",
        code: 0b1110,
        enhanced: NOT_ENHANCED,
    },
    Row {
        name: "QL-DUS",
        code: 0b1111,
        enhanced: NOT_ENHANCED,
    },
];

/// The table of an option.
pub(crate) fn rows(option: NetOption) -> &'static [Row]
    ensures table { rows_seen result.now ≡ levels_of option }
    ensures len { length result.now ≡ length (levels_of option) }
    ensures short { length result.now < 256 }
{
    match option {
        NetOption::I => &OPTION_I,
        NetOption::II => &OPTION_II,
    }
}
