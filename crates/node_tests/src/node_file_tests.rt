//! The texts of refusals, which no form prints.

use esmc_frame::FrameErr;
use node_file::NodeErr;
use std::test::Fail;
use test_makers::is_printed_as;

#[test]
fn line_refusals_are_printed(rt: HostRuntime) -> Result<(), Fail> {
    for (error, text) in [
        (NodeErr::Fields(1), "line 1: not AT,WORD,TARGET,VALUE"),
        (NodeErr::Time(2), "line 2: no millisecond up to 86400000"),
        (NodeErr::Order(3), "line 3: before the line before it"),
        (
            NodeErr::What(4),
            "line 4: no word for what comes or happens",
        ),
        (
            NodeErr::Target(5),
            "line 5: not a target of this word at this element",
        ),
        (NodeErr::Value(6), "line 6: not a value of this word"),
        (
            NodeErr::Frame(7, FrameErr::Version),
            "line 7: the version isn't 1",
        ),
    ] {
        assert!(rt; is_printed_as(rt.alloc(), error, text)?);
    }
    Ok(())
}
