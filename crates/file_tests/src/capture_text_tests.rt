//! The texts of refusals, which no form prints.

use capture_text::CaptureErr;
use esmc_frame::FrameErr;
use std::test::Fail;
use test_makers::is_printed_as;

#[test]
fn captured_line_refusals_are_printed(rt: HostRuntime) -> Result<(), Fail> {
    for (error, text) in [
        (
            CaptureErr::Hex(7),
            "line 7: not an even number of hexadecimal digits",
        ),
        (
            CaptureErr::Frame(1, FrameErr::Version),
            "line 1: the version isn't 1",
        ),
        (
            CaptureErr::Row(20),
            "line 20: no row of three or seven fields",
        ),
    ] {
        assert!(rt; is_printed_as(rt.alloc(), error, text)?);
    }
    Ok(())
}
